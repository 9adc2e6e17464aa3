//! The command `upgrade`: reads a log, and writes it in the newest version.

ghost use Rattle.std.specs.Prelude.{◌≡◌, [], ◌∷◌, ◌++◌, List, map, ℕ, Err, ◌⊎◌, IsSome};
ghost use Rattle.gd_outside.specs.Seen.{SeenJournal, SeenLink};
ghost use Rattle.gd_outside.specs.Told.{told};
ghost use Rattle.gd_base.specs.declared.version.Version.TheVariants as version;
ghost use Rattle.gd_events.specs.Events.{Event as EventValue};
ghost use Rattle.gd_grammar.specs.Chains.{AreChains};
ghost use Rattle.gd_grammar.specs.Drawings.{drawings};
ghost use Rattle.gd_grammar.specs.HeaderBytes.{upgraded};
ghost use Rattle.gd_grammar.specs.LogBytes.{gate, log_pieces, record_bytes};
ghost use Rattle.gd_effects.specs.Effects.{Print};
ghost use Rattle.gd_effects.specs.Outside.{outside};
ghost use Rattle.gd_effects.specs.Prints.{Prints};
ghost use Rattle.gd_effects.specs.Endings.{EndsAs, no_effects};
ghost use Rattle.gd_reference.specs.SlowRun.{IsReaderEnd, upgraded_log, ended_by};

use gd_effects::{print, status_of};
use gd_events::{Event, EventList};
use gd_logs::{CLOSED, LogFault, ReadError, gated_of, read_log};
use gd_outside::{End, Sink, Source, Status};
use gd_reading::refuse;
use gd_wire::{Chains, Drawings, HeaderBytes, LogHeader, write_header};
use std::alloc::Global;

/// Reads a log to its end, and writes it with a header of the newest version: the header, each event with its check
/// behind an open gate, and a closed gate. It takes no steps.
///
/// `Done` after the log, and `BadLog` after the line of the first fault where the bytes are no log. `ReadFault` where a
/// read failed and `NoMemory` where memory ran out, both with nothing written, and `WriteFault` where a write failed,
/// with a prefix written.
pub fn upgrade<S: Source, K: Sink>(alloc: Global, source: &mut S, output: &mut K) -> Status
    ensures ends { (journal : SeenJournal) (link : SeenLink) (steps : ℕ)
        → EndsAs (IsSome (S.seen source.new).left)
        (upgraded_log (told (S.seen source.old).left)) no_effects
        (ended_by (told (S.seen source.old).left)) result
        (outside (S.seen source.old) (K.seen output.old) journal link steps)
        (outside (S.seen source.new) (K.seen output.new) journal link steps) }
    ensures kinds { IsReaderEnd result }
    ensures silent { (result ≡ Status.ReadFault) ⊎ (result ≡ Status.NoMemory)
        → K.seen output.new ≡ K.seen output.old }
{
    match read_log(alloc, source) {
        Ok((header, events)) => {
            let done = write_log(header.upgraded::<Drawings>(), events, output);
            status_of(done, Status::Done)
        }
        Err(ReadError::Memory) => Status::NoMemory,
        Err(ReadError::Log(LogFault::Read)) => Status::ReadFault,
        Err(ReadError::Log(LogFault::Bad { at, why })) => {
            status_of(refuse(output, at, why), Status::BadLog)
        }
    }
}

/// Writes the log of these events. Each is let go once it is written.
fn write_log<K: Sink>(header: LogHeader, events: EventList, output: &mut K) -> Result<(), End>
    requires newest { header.version ≡ version.Three }
    ensures does { Prints (K.seen output.old) (map Print (log_pieces drawings header events)) result
        (K.seen output.new) }
    ensures end { (e : End) → result ≡ Err e → e ≡ End.WriteFault }
{
    let mut head = HeaderBytes::new();
    write_header(&header, &mut head);
    print(output, head.as_slice())?;
    let mut chains = Chains::new();
    let mut left = events.into_events();
    'records: while let Some(event) = left.next() {
        write_record(event, &mut chains, output)?;
    }
    print(output, &[CLOSED])
}

/// Writes an event with its check, behind an open gate, and lets it go.
fn write_record<K: Sink>(event: Event, chains: &mut Chains, output: &mut K) -> Result<(), End>
    ensures does { (seen : List EventValue) → AreChains drawings chains.old seen
        → Prints (K.seen output.old)
        (Print (gate ∷ record_bytes drawings version.Three seen event) ∷ []) result
        (K.seen output.new) }
    ensures chains { (seen : List EventValue) → AreChains drawings chains.old seen
        → AreChains drawings chains.new (seen ++ event ∷ []) }
    ensures end { (e : End) → result ≡ Err e → e ≡ End.WriteFault }
{
    let record = gated_of::<Drawings>(&event, chains);
    print(output, record.as_slice())
}
