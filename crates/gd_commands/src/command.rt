//! The command that the words of a command line ask for.

ghost use Rattle.std.specs.Prelude.{◌≡◌, ◌∷◌, IfOk, Some, None};
ghost use Rattle.gd_asked.specs.InRange.{IsInRange};
ghost use Rattle.gd_commands.specs.Commands.{command_of};

use crate::board::read_board;
use crate::churn::read_churn;
use crate::fault::CommandFault;
use crate::lone::read_lone;
use crate::node::read_node;
use crate::rehearse::read_rehearse;
use crate::replay::read_replay;
use gd_asked::Command;
use gd_outside::{Word, WordList};
use std::alloc::Global;

/// The command that the words behind the program's name ask for.
///
/// `Usage` only where they ask for none: the first is no command's name, or the others aren't in that command's form.
/// `NoMemory` where memory runs out.
#[tactic(auto, unfolding(crate::specs::Commands::command_of))]
pub fn read_command(alloc: Global, words: &WordList) -> Result<Command, CommandFault>
    ensures asked { IfOk result (λ c. command_of words.now ≡ Some c) }
    ensures in_range { IfOk result IsInRange }
    ensures usage { result ≡ Err CommandFault.Usage
        → command_of words.now ≡ None }
{
    match words.as_slice().split_first() {
        Some((name, rest)) => read_named(alloc, name.as_str(), rest),
        None => Err(CommandFault::Usage),
    }
}

/// The same, of a command's name and the words behind it.
#[tactic(auto, unfolding(crate::specs::Commands::command_of))]
fn read_named(alloc: Global, name: &str, words: &[Word]) -> Result<Command, CommandFault>
    ensures asked { IfOk result (λ c. command_of (name.now ∷ words.now) ≡ Some c) }
    ensures usage { result ≡ Err CommandFault.Usage
        → command_of (name.now ∷ words.now) ≡ None }
{
    if name == "replay" {
        read_replay(alloc, words)
    } else if name == "upgrade" {
        read_lone(alloc, "upgrade", Command::Upgrade, words)
    } else if name == "snapshot" {
        read_lone(alloc, "snapshot", Command::Snapshot, words)
    } else if name == "view" {
        read_lone(alloc, "view", Command::View, words)
    } else if name == "board" {
        read_board(alloc, words)
    } else if name == "node" {
        read_node(alloc, words)
    } else if name == "rehearse" {
        read_rehearse(alloc, words)
    } else if name == "churn" {
        read_churn(alloc, words)
    } else {
        Err(CommandFault::Usage)
    }
}
