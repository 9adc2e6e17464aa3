//! `run`: carries out the command that the words ask for, over any input, output, journal and link.

ghost use Rattle.std.specs.Prelude.{ℕ, None, Some};
ghost use Rattle.gd_effects.specs.Outside.{outside};
ghost use Rattle.gd_asked.specs.InRange.{IsInRange};
ghost use Rattle.gd_outside.specs.Seen.{SeenSource, SeenJournal, SeenLink};
ghost use Rattle.gd_program.specs.Carrying.{Carried};
ghost use Rattle.gd_program.specs.Headline.{Headline};

use gd_base::Steps;
use gd_board::board;
use gd_commands::{Command, CommandFault, read_command};
use gd_effects::{print, status_of};
use gd_log::{replay, upgrade};
use gd_node::{Config, rejoin, serve};
use gd_outside::{Journal, Link, Sink, Source, Status, WordList};
use gd_watch::{snapshot, view};
use gd_words::{AsText, Reply};
use gd_world::{churn, rehearse};
use std::alloc::Global;
use std::sync::ledger::Ledger;

/// Carries out the command that the words ask for: `replay`, `upgrade`, `snapshot`, `view`, `board`, `node`, `node
/// --resume`, `rehearse` or `churn`.
///
/// `Usage` after the usage line, where the words ask for none of these; `NoMemory` where memory ran out; else what the
/// command returns. The steps rise by what the arrivals of events cost.
pub fn run<S: Source, K: Sink, J: Journal, N: Link, L: Ledger>(
    alloc: Global,
    words: &WordList,
    input: &mut S,
    output: &mut K,
    journal: &mut J,
    link: &mut N,
    steps: &mut Steps<L>,
) -> Status
    ensures { Headline (record {
      words = words.now;
      status = result;
      before = outside (S.seen input.old) (K.seen output.old) (J.seen journal.old)
          (N.seen link.old) steps.old;
      after = outside (S.seen input.new) (K.seen output.new) (J.seen journal.new)
          (N.seen link.new) steps.new;
    }) }
{
    match read_command(alloc, words) {
        Ok(command) => carry_out(alloc, command, input, output, journal, link, steps),
        Err(CommandFault::Usage) => refuse(output),
        Err(CommandFault::NoMemory) => Status::NoMemory,
    }
}

/// Carries out the command.
fn carry_out<S: Source, K: Sink, J: Journal, N: Link, L: Ledger>(
    alloc: Global,
    command: Command,
    input: &mut S,
    output: &mut K,
    journal: &mut J,
    link: &mut N,
    steps: &mut Steps<L>,
) -> Status
    requires { IsInRange command }
    ensures { Carried (Some command) result
        (outside (S.seen input.old) (K.seen output.old) (J.seen journal.old)
        (N.seen link.old) steps.old)
        (outside (S.seen input.new) (K.seen output.new) (J.seen journal.new)
        (N.seen link.new) steps.new) }
{
    match command {
        Command::Replay {
            format,
            counts,
            upto_fault,
        } => replay(alloc, input, output, format, counts, upto_fault, steps),
        Command::Upgrade => upgrade(alloc, input, output),
        Command::Snapshot => snapshot(alloc, input, output, steps),
        Command::View => view(alloc, input, output, steps),
        Command::Board { counts } => board(alloc, input, output, counts, steps),
        Command::Node {
            session,
            site,
            journal: path,
            addresses,
        } => {
            let config = Config::new(session, site, path, addresses);
            serve(alloc, &config, input, output, journal, link, steps)
        }
        Command::Rejoin {
            session,
            site,
            journal: kept,
            addresses,
        } => {
            let config = Config::new(session, site, kept, addresses);
            rejoin(alloc, &config, input, output, journal, link, steps)
        }
        Command::Rehearse { sites } => rehearse(alloc, sites, input, output, steps),
        Command::Churn { seed, steps: count } => churn(alloc, seed, count, output, steps),
    }
}

/// Prints how the program is called: `Usage`, or `WriteFault` where a write failed.
fn refuse<K: Sink>(output: &mut K) -> Status
    ensures { (input : SeenSource) (journal : SeenJournal) (link : SeenLink) (steps : ℕ)
        → Carried None result (outside input (K.seen output.old) journal link steps)
        (outside input (K.seen output.new) journal link steps) }
{
    let line = Reply::Usage.text();
    status_of(print(output, line.as_slice()), Status::Usage)
}
