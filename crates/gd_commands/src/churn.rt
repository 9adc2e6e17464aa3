//! The options of `churn`.

ghost use Rattle.std.specs.Prelude.{◌≡◌, IfOk, Some, None, map};
ghost use Rattle.clap.specs.Words.{app_of};
ghost use Rattle.gd_commands.specs.Churn.{churn_by, churn_form};
ghost use Rattle.gd_commands.specs.Forms.{app, asked_by, text_of};

use crate::fault::CommandFault;
use crate::matched::{bare, matches_of, text, value};
use crate::number::number_from;
use clap::Command as ClapCommand;
use gd_asked::Command;
use gd_options::CHURN_STEPS;
use std::alloc::{AllocError, Global};
use std::convert::AsStr;

fn churn_command<'a>(alloc: Global) -> Result<ClapCommand<'a>, AllocError>
    ensures { IfOk result (λ c. app_of c ≡ app churn_form) }
{
    bare(alloc, "churn")
        .arg(value(alloc, "seed"))?
        .arg(value(alloc, "steps"))
}

/// The command with these values.
fn churn_by(seed: Option<&str>, steps: Option<&str>) -> Option<Command>
    ensures { result ≡ churn_by (text_of seed.entry) (text_of steps.entry) }
{
    let seed = number_from(0, u64::MAX, seed?)?;
    let steps = number_from(0, u64::from(CHURN_STEPS), steps?)? as u32;
    Some(Command::Churn { seed, steps })
}

/// The command that the words behind `churn` ask for; `Usage` only where they aren't in its form.
pub fn read_churn<S: AsStr>(alloc: Global, words: &[S]) -> Result<Command, CommandFault>
    ensures asked { IfOk result (λ c. asked_by churn_form (map S.text words.now) ≡ Some c) }
    ensures usage { result ≡ Err CommandFault.Usage
        → asked_by churn_form (map S.text words.now) ≡ None }
{
    let matches = matches_of(churn_command(alloc)?, words)?;
    churn_by(text(&matches, "seed"), text(&matches, "steps")).ok_or(CommandFault::Usage)
}
