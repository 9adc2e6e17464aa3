//! A session that is played from a number.

ghost use Rattle.std.specs.Prelude.{◌≡◌, ◌≤◌, Err};
ghost use Rattle.gd_effects.specs.Endings.{EndsAs, no_effects};
ghost use Rattle.gd_effects.specs.Outside.{outside};
ghost use Rattle.gd_effects.specs.Prints.{Prints, PrintsInSteps};
ghost use Rattle.gd_options.specs.declared.churn.TheConstants.{CHURN_STEPS};
ghost use Rattle.gd_outside.specs.Seen.{SeenSource, SeenJournal, SeenLink};
ghost use Rattle.gd_outside.specs.declared.end.End.{End as EndValue};
ghost use Rattle.gd_outside.specs.declared.status.Status.TheVariants.{Done, NoMemory};
ghost use Rattle.gd_reference.specs.Said.{all_said};
ghost use Rattle.gd_world.specs.Playing.{Plays};
ghost use Rattle.gd_world.specs.Rehearsing.{IsChurnEnd};
ghost use Rattle.gd_worlds.specs.Churn.{churn_effects, churned};

mod counting;
mod drawing;
mod holding;
mod playing;
mod summing;

use crate::churning::playing::Churning;
use crate::churning::summing::summary;
use crate::replies::Replies;
use gd_base::Steps;
use gd_effects::{print, status_of};
use gd_outside::{End, Sink, Status};
use gd_words::AsText;
use std::alloc::{AllocError, Global};
use std::sync::ledger::Ledger;

/// Plays a session of four sites by so many steps, at most `CHURN_STEPS`, which are drawn from the seed, then by rounds
/// in which each site sends to each other one, until every site holds every event, and by one more round; and prints
/// how that went. No input is read.
///
/// `NoMemory` where memory ran out, and then nothing was printed; `WriteFault` where a write failed.
pub fn churn<K: Sink, L: Ledger>(
    alloc: Global,
    seed: u64,
    count: u32,
    output: &mut K,
    steps: &mut Steps<L>,
) -> Status
    requires { count ≤ CHURN_STEPS }
    ensures ends { (input : SeenSource) (journal : SeenJournal) (link : SeenLink) →
        EndsAs (Unit {0}) (churn_effects seed count) no_effects Done result
        (outside input (K.seen output.old) journal link steps.old)
        (outside input (K.seen output.new) journal link steps.new) }
    ensures kinds { IsChurnEnd result }
    ensures silent { result ≡ NoMemory → K.seen output.new ≡ K.seen output.old }
{
    let run = play(alloc, seed, count, output, steps);
    status_of(run, Status::Done)
}

/// Plays it, and prints how it went. Nothing is printed where memory ran out.
fn play<K: Sink, L: Ledger>(
    alloc: Global,
    seed: u64,
    count: u32,
    output: &mut K,
    steps: &mut Steps<L>,
) -> Result<(), End>
    requires { count ≤ CHURN_STEPS }
    ensures does { PrintsInSteps (K.seen output.old) steps.old (churn_effects seed count) result
        (K.seen output.new) steps.new }
    ensures silent { result ≡ Err End.NoMemory → K.seen output.new ≡ K.seen output.old }
{
    let replies = answers(alloc, seed, count, steps)?;
    print_all(&replies, output)
}

/// What is printed of it. `AllocError` where memory ran out.
fn answers<L: Ledger>(
    alloc: Global,
    seed: u64,
    count: u32,
    steps: &mut Steps<L>,
) -> Result<Replies, AllocError>
    requires { count ≤ CHURN_STEPS }
    ensures { Plays (churned seed count) result steps.old steps.new }
{
    let mut churning = Churning::new(alloc, seed)?;
    churning.run(count, steps)?;
    summary(&churning.world, &churning.counts)
}

/// Prints these, line by line. `WriteFault` where a write failed; no other end comes.
fn print_all<K: Sink>(replies: &Replies, output: &mut K) -> Result<(), End>
    ensures does { Prints (K.seen output.old) (all_said replies.now) result (K.seen output.new) }
    ensures end { (e : EndValue) → result ≡ Err e → e ≡ End.WriteFault }
{
    for reply in replies.as_slice() {
        print(output, reply.text().as_slice())?;
    }
    Ok(())
}
