//! The options of `replay`.

ghost use Rattle.std.specs.Prelude.{◌≡◌, IfOk, Some, None, map};
ghost use Rattle.clap.specs.Words.{app_of};
ghost use Rattle.gd_commands.specs.Forms.{app, asked_by, text_of};
ghost use Rattle.gd_commands.specs.Replay.{format_in, replay_by, replay_form};

use crate::fault::CommandFault;
use crate::matched::{bare, flag, is_set, matches_of, text};
use clap::{Arg, Command as ClapCommand};
use gd_asked::Command;
use gd_options::Format;
use std::alloc::{AllocError, Global};
use std::convert::AsStr;

fn replay_command<'a>(alloc: Global) -> Result<ClapCommand<'a>, AllocError>
    ensures { IfOk result (λ c. app_of c ≡ app replay_form) }
{
    let format = Arg::new(alloc, "format").long("format");
    bare(alloc, "replay")
        .arg(format)?
        .arg(flag(alloc, "counts"))?
        .arg(flag(alloc, "upto-fault"))
}

/// The format that a word names.
fn format_of(word: &str) -> Option<Format>
    ensures { result ≡ format_in word.now }
{
    if word == "text" {
        Some(Format::Text)
    } else if word == "json" {
        Some(Format::Json)
    } else if word == "events" {
        Some(Format::Events)
    } else {
        None
    }
}

/// The command with these values.
fn replay_by(
    format: Option<&str>,
    counts: Option<&str>,
    upto_fault: Option<&str>,
) -> Option<Command>
    ensures { result
        ≡ replay_by (text_of format.entry) (text_of counts.entry) (text_of upto_fault.entry) }
{
    let format = match format {
        None => Format::Text,
        Some(word) => format_of(word)?,
    };
    Some(Command::Replay {
        format,
        counts: is_set(counts),
        upto_fault: is_set(upto_fault),
    })
}

/// The command that the words behind `replay` ask for; `Usage` only where they aren't in its form.
pub fn read_replay<S: AsStr>(alloc: Global, words: &[S]) -> Result<Command, CommandFault>
    ensures asked { IfOk result (λ c. asked_by replay_form (map S.text words.now) ≡ Some c) }
    ensures usage { result ≡ Err CommandFault.Usage
        → asked_by replay_form (map S.text words.now) ≡ None }
{
    let matches = matches_of(replay_command(alloc)?, words)?;
    replay_by(
        text(&matches, "format"),
        text(&matches, "counts"),
        text(&matches, "upto-fault"),
    )
    .ok_or(CommandFault::Usage)
}
