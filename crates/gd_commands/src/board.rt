//! The options of `board`.

ghost use Rattle.std.specs.Prelude.{◌≡◌, IfOk, Some, None, map};
ghost use Rattle.clap.specs.Words.{app_of};
ghost use Rattle.gd_commands.specs.Board.{board_form};
ghost use Rattle.gd_commands.specs.Forms.{app, asked_by};

use crate::fault::CommandFault;
use crate::matched::{bare, flag, is_set, matches_of, text};
use clap::Command as ClapCommand;
use gd_asked::Command;
use std::alloc::{AllocError, Global};
use std::convert::AsStr;

fn board_command<'a>(alloc: Global) -> Result<ClapCommand<'a>, AllocError>
    ensures { IfOk result (λ c. app_of c ≡ app board_form) }
{
    bare(alloc, "board").arg(flag(alloc, "counts"))
}

/// The command that the words behind `board` ask for; `Usage` only where they aren't in its form.
pub fn read_board<S: AsStr>(alloc: Global, words: &[S]) -> Result<Command, CommandFault>
    ensures asked { IfOk result (λ c. asked_by board_form (map S.text words.now) ≡ Some c) }
    ensures usage { result ≡ Err CommandFault.Usage
        → asked_by board_form (map S.text words.now) ≡ None }
{
    let matches = matches_of(board_command(alloc)?, words)?;
    let counts = is_set(text(&matches, "counts"));
    Ok(Command::Board { counts })
}
