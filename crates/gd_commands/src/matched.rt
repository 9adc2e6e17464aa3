//! What `clap` makes of the words behind a command's name.

ghost use Rattle.std.specs.Prelude.{◌≡◌, IfOk, false, map, None, true};
ghost use Rattle.clap.specs.Words.{all_of, app_of, found_of, first_of, is_simple_and_free, rows_of, rule_of};
ghost use Rattle.gd_commands.specs.Forms.{Form, app, asked_by, bare, flag_rule, is_set, text_of, value_rule};
ghost use Rattle.gd_commands.specs.Node.{texts_of};

use crate::fault::CommandFault;
use clap::error::ErrorKind;
use clap::{Arg, ArgAction, ArgMatches, Command as ClapCommand};
use std::alloc::Global;
use std::convert::AsStr;

/// A command that reads the words behind its name, without flags of `clap`'s own.
pub fn bare<'a>(alloc: Global, name: &'a str) -> ClapCommand<'a>
    ensures { app_of result ≡ bare name.entry.now }
{
    ClapCommand::new(alloc, name)
        .no_binary_name(true)
        .disable_help_flag(true)
        .disable_version_flag(true)
}

/// A required option with one value.
pub fn value<'a>(alloc: Global, name: &'a str) -> Arg<'a>
    ensures rule { rule_of result ≡ value_rule name.entry.now }
    ensures local { result.global ≡ false }
{
    Arg::new(alloc, name).long(name).required(true)
}

/// An option without a value, which may be there or not.
pub fn flag<'a>(alloc: Global, name: &'a str) -> Arg<'a>
    ensures rule { rule_of result ≡ flag_rule name.entry.now }
    ensures local { result.global ≡ false }
{
    Arg::new(alloc, name).long(name).action(ArgAction::SetTrue)
}

/// The values that the words give to the arguments of a form, of which this is the command. `Usage` where `clap`
/// doesn't take the words.
pub fn matches_of<'a, S: AsStr>(
    command: ClapCommand<'a>,
    words: &'a [S],
) -> Result<ArgMatches<'a>, CommandFault>
    requires { is_simple_and_free (app_of command) ≡ true }
    ensures taken { IfOk result (λ m. (form : Form) → app_of command.entry ≡ app form
        → asked_by form (map S.text words.entry.now) ≡ form.asks (rows_of (found_of m))) }
    ensures refused { result ≡ Err CommandFault.Usage
        → (form : Form) → app_of command.entry ≡ app form
        → asked_by form (map S.text words.entry.now) ≡ None }
{
    match command.try_get_matches_from(words) {
        Ok(matches) => Ok(matches),
        Err(error) => match error.kind() {
            ErrorKind::OutOfMemory => Err(CommandFault::NoMemory),
            _ => Err(CommandFault::Usage),
        },
    }
}

/// The first value of an argument.
pub fn text<'a>(matches: &ArgMatches<'a>, id: &str) -> Option<&'a str>
    ensures { text_of result ≡ first_of id.now (rows_of (found_of matches.now)) }
{
    matches.get_str(id)
}

/// All values of an argument.
pub fn texts<'m, 'a>(matches: &'m ArgMatches<'a>, id: &str) -> Option<&'m [&'a str]>
    ensures { texts_of result ≡ all_of id.now (rows_of (found_of matches.now)) }
{
    matches.get_strs(id)
}

/// Whether a flag with this value is there.
pub fn is_set(value: Option<&str>) -> bool
    ensures { result ≡ is_set (text_of value.entry) }
{
    match value {
        None => false,
        Some(word) => word == "true",
    }
}
