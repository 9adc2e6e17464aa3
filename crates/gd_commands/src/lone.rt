//! Commands that have no options.

ghost use Rattle.std.specs.Prelude.{◌≡◌, IfOk, Some, None, map};
ghost use Rattle.gd_commands.specs.Forms.{asked_by};
ghost use Rattle.gd_commands.specs.Lone.{lone_form};

use crate::fault::CommandFault;
use crate::matched::{bare, matches_of};
use gd_asked::Command;
use std::alloc::Global;
use std::convert::AsStr;

/// The command, where there are no words behind its name; `Usage` only where there are some.
pub fn read_lone<S: AsStr>(
    alloc: Global,
    name: &str,
    command: Command,
    words: &[S],
) -> Result<Command, CommandFault>
    ensures asked { IfOk result (λ c.
        asked_by (lone_form name.now command) (map S.text words.now) ≡ Some c) }
    ensures usage { result ≡ Err CommandFault.Usage
        → asked_by (lone_form name.now command) (map S.text words.now) ≡ None }
{
    matches_of(bare(alloc, name), words)?;
    Ok(command)
}
