//! The options of `rehearse`.

ghost use Rattle.std.specs.Prelude.{◌≡◌, IfOk, Some, None, map};
ghost use Rattle.clap.specs.Words.{app_of};
ghost use Rattle.gd_commands.specs.Forms.{app, asked_by, text_of};
ghost use Rattle.gd_commands.specs.Rehearse.{rehearse_by, rehearse_form};

use crate::fault::CommandFault;
use crate::matched::{bare, matches_of, text, value};
use crate::number::number_from;
use clap::Command as ClapCommand;
use gd_asked::Command;
use gd_base::SITES;
use std::alloc::{AllocError, Global};
use std::convert::AsStr;

fn rehearse_command<'a>(alloc: Global) -> Result<ClapCommand<'a>, AllocError>
    ensures { IfOk result (λ c. app_of c ≡ app rehearse_form) }
{
    bare(alloc, "rehearse").arg(value(alloc, "sites"))
}

/// The command with this value.
fn rehearse_by(sites: Option<&str>) -> Option<Command>
    ensures { result ≡ rehearse_by (text_of sites.entry) }
{
    let sites = number_from(1, u64::from(SITES), sites?)? as u8;
    Some(Command::Rehearse { sites })
}

/// The command that the words behind `rehearse` ask for; `Usage` only where they aren't in its form.
pub fn read_rehearse<S: AsStr>(alloc: Global, words: &[S]) -> Result<Command, CommandFault>
    ensures asked { IfOk result (λ c. asked_by rehearse_form (map S.text words.now) ≡ Some c) }
    ensures usage { result ≡ Err CommandFault.Usage
        → asked_by rehearse_form (map S.text words.now) ≡ None }
{
    let matches = matches_of(rehearse_command(alloc)?, words)?;
    rehearse_by(text(&matches, "sites")).ok_or(CommandFault::Usage)
}
