//! The command `snapshot`: reads a log, and writes the snapshot of the site that begins anew with its events.

ghost use Rattle.std.specs.Prelude.{◌≡◌, ◌≤◌, ◌+◌, ◌⊎◌, sum, Err, IfOk, OnOk, OnErr, IsSome};
ghost use Rattle.gd_effects.specs.Effects.{cost};
ghost use Rattle.gd_effects.specs.Endings.{EndsAs, IsUncut, no_effects};
ghost use Rattle.gd_effects.specs.Outside.{outside};
ghost use Rattle.gd_effects.specs.Prints.{PrintsInSteps};
ghost use Rattle.gd_events.specs.Sound.{IsOp};
ghost use Rattle.gd_grammar.specs.Drawings.{drawings};
ghost use Rattle.gd_logs.specs.Written.{IsRuled};
ghost use Rattle.gd_outside.specs.Seen.{SeenJournal, SeenLink};
ghost use Rattle.gd_outside.specs.Told.{told};
ghost use Rattle.gd_reference.specs.SlowRun.{IsReaderEnd, ended_by};
ghost use Rattle.gd_viewing.specs.Handing.{snapshot_of as handed};
ghost use Rattle.gd_viewing.specs.Snapshotting.{of_snapshot, site_of, snapshotted};
ghost use Rattle.gd_arriving.specs.Arriving.{PaidFront};
ghost use Rattle.gd_watch.specs.Capturing.{steps_of};

use gd_base::Steps;
use gd_capture::snapshot_of;
use gd_effects::status_of;
use gd_events::EventList;
use gd_handover::{Snapshot, write_snapshot};
use gd_logs::{LogFault, ReadError, read_whole_of};
use gd_outside::{End, Sink, Source, Status};
use gd_reading::refuse;
use gd_site::Site;
use gd_wire::{Drawings, LogHeader};
use std::alloc::{AllocError, Global};
use std::sync::ledger::Ledger;

/// Reads a log to its end, and writes the snapshot of the site that its header names, where that begins anew with its
/// events.
///
/// `Done` after the snapshot, and `BadLog` after the line of the first fault where the bytes are no log. `ReadFault`
/// where a read failed and `NoMemory` where memory ran out, both with nothing written, and `WriteFault` where a write
/// failed, with a prefix written. Each event that arrives takes the steps that its repair costs, and each kept event,
/// which is undone to find the drawing at the line, one more; after `BadLog` and `ReadFault` there are none.
pub fn snapshot<S: Source, K: Sink, L: Ledger>(
    alloc: Global,
    source: &mut S,
    output: &mut K,
    steps: &mut Steps<L>,
) -> Status
    ensures ends { (journal : SeenJournal) (link : SeenLink)
        → EndsAs (IsSome (S.seen source.new).left)
        (snapshotted (told (S.seen source.old).left)) no_effects
        (ended_by (told (S.seen source.old).left)) result
        (outside (S.seen source.old) (K.seen output.old) journal link steps.old)
        (outside (S.seen source.new) (K.seen output.new) journal link steps.new) }
    ensures kinds { IsReaderEnd result }
    ensures silent { (result ≡ Status.ReadFault) ⊎ (result ≡ Status.NoMemory)
        → K.seen output.new ≡ K.seen output.old }
    ensures unread { result ≡ Status.ReadFault → steps.new ≡ steps.old }
    // The steps rose by what is owed, where nothing cut the run short, and by no more in any case.
    ensures steps { IsSome (S.seen source.new).left → IsUncut result
        → steps.new ≡ steps.old + cost (snapshotted (told (S.seen source.old).left)) }
    ensures most_steps { IsSome (S.seen source.new).left
        → steps.new ≤ steps.old + cost (snapshotted (told (S.seen source.old).left)) }
{
    match read_whole_of::<Drawings, S>(alloc, source) {
        Ok(log) => {
            let done = hand_on(alloc, &log.header, &log.events, output, steps);
            status_of(done, Status::Done)
        }
        Err(ReadError::Memory) => Status::NoMemory,
        Err(ReadError::Log(LogFault::Read)) => Status::ReadFault,
        Err(ReadError::Log(LogFault::Bad { at, why })) => {
            status_of(refuse(output, at, why), Status::BadLog)
        }
    }
}

/// Writes the snapshot of the site of a log. Memory runs out before anything is written, if it does.
fn hand_on<K: Sink, L: Ledger>(
    alloc: Global,
    header: &LogHeader,
    events: &EventList,
    output: &mut K,
    steps: &mut Steps<L>,
) -> Result<(), End>
    requires ruled { IsRuled IsOp drawings header.now events.now }
    ensures does { PrintsInSteps (K.seen output.old) steps.old
        (of_snapshot (site_of header.now events.now)) result (K.seen output.new) steps.new }
    ensures silent { result ≡ Err End.NoMemory → K.seen output.new ≡ K.seen output.old }
{
    let snapshot = capture(alloc, header, events, steps)?;
    write_snapshot(&snapshot, output)
}

/// The snapshot of the site of a log. `AllocError` where memory ran out; some of the first steps were then taken.
fn capture<L: Ledger>(
    alloc: Global,
    header: &LogHeader,
    events: &EventList,
    steps: &mut Steps<L>,
) -> Result<Snapshot, AllocError>
    requires ruled { IsRuled IsOp drawings header.now events.now }
    ensures snapshot { IfOk result (λ s. s ≡ handed (site_of header.now events.now)) }
    ensures steps { OnOk result
        (steps.new ≡ steps.old + sum (steps_of (site_of header.now events.now))) }
    ensures err_steps { OnErr result
        (PaidFront (steps_of (site_of header.now events.now)) steps.old steps.new) }
{
    let site = Site::from_log(
        alloc,
        header.site(),
        header.n(),
        header.session(),
        events,
        steps,
    )?;
    snapshot_of(alloc, &site, steps)
}
