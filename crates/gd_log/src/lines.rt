//! What is printed of a log that was read. It is made before any of it is printed.

ghost use Rattle.std.specs.Prelude.{◌≡◌, ◌≤◌, ◌+◌, length, map, sum, Err, IfOk, OnOk, OnErr, IsTrue};
ghost use Rattle.gd_base.specs.declared.ranges.TheConstants.{SESSION_EVENTS};
ghost use Rattle.gd_events.specs.Ordered.{are_distinct};
ghost use Rattle.gd_model.specs.Arrivals.{costs};
ghost use Rattle.gd_model.specs.Drawing.{picture};
ghost use Rattle.gd_model.specs.Shown.{items};
ghost use Rattle.gd_effects.specs.Effects.{Print};
ghost use Rattle.gd_effects.specs.Prints.{Prints};
ghost use Rattle.gd_json.specs.PictureJson.{picture_json};
ghost use Rattle.gd_json.specs.EventsJson.{events_json};
ghost use Rattle.gd_reference.specs.SlowRun.{lines_as};
ghost use Rattle.gd_reference.specs.Tally.{tally};
ghost use Rattle.gd_arriving.specs.Arriving.{PaidFront};
ghost use Rattle.gd_log.specs.Printing.{lines_in};

use crate::arriving::arrived_empty;
use gd_arriving::Tally;
use gd_base::Steps;
use gd_effects::print;
use gd_events::EventList;
use gd_export::{JsonText, events_json, picture_json};
use gd_options::Format;
use gd_outside::{End, Sink};
use gd_view::{Picture, write_text};
use std::alloc::{AllocError, Global};
use std::mem;
use std::sync::ledger::Ledger;

/// What is printed of a log, before its counts.
#[derive(Drop)]
pub enum Lines {
    /// The lines of a drawing.
    Text(Picture),
    /// One line.
    Json(JsonText),
}

/// Lets the events arrive, and makes what is printed of them. `AllocError` where memory runs out: the events before
/// that have taken their steps then.
pub fn lines_of<L: Ledger>(
    alloc: Global,
    events: EventList,
    format: Format,
    steps: &mut Steps<L>,
) -> Result<(Lines, Tally), AllocError>
    requires few { length events ≤ SESSION_EVENTS }
    requires distinct { IsTrue (are_distinct events) }
    ensures lines { IfOk result (λ x. lines_in x.0 ≡ lines_as format events) }
    ensures tally { IfOk result (λ x. x.1 ≡ tally events) }
    ensures steps { OnOk result (steps.new ≡ steps.old + sum (costs events)) }
    ensures err { OnErr result (PaidFront (costs events) steps.old steps.new) }
{
    match format {
        Format::Text => {
            let (picture, tally) = drawn(alloc, events, steps)?;
            Ok((Lines::Text(picture), tally))
        }
        Format::Json => {
            let (line, tally) = drawn_json(alloc, events, steps)?;
            Ok((Lines::Json(line), tally))
        }
        Format::Events => {
            let (line, tally) = arrived_json(alloc, events, steps)?;
            Ok((Lines::Json(line), tally))
        }
    }
}

/// The picture of the events, once they have arrived.
fn drawn<L: Ledger>(
    alloc: Global,
    events: EventList,
    steps: &mut Steps<L>,
) -> Result<(Picture, Tally), AllocError>
    requires few { length events ≤ SESSION_EVENTS }
    requires distinct { IsTrue (are_distinct events) }
    ensures picture { IfOk result (λ x. x.0 ≡ items (picture events)) }
    ensures tally { IfOk result (λ x. x.1 ≡ tally events) }
    ensures steps { OnOk result (steps.new ≡ steps.old + sum (costs events)) }
    ensures err { OnErr result (PaidFront (costs events) steps.old steps.new) }
{
    let (history, tally) = arrived_empty(alloc, events, steps)?;
    let picture = Picture::of(alloc, history.document())?;
    // The program ends soon, and its memory with it: to free each entry alone would take a tenth of the time.
    mem::forget(history);
    Ok((picture, tally))
}

/// The same as JSON.
fn drawn_json<L: Ledger>(
    alloc: Global,
    events: EventList,
    steps: &mut Steps<L>,
) -> Result<(JsonText, Tally), AllocError>
    requires few { length events ≤ SESSION_EVENTS }
    requires distinct { IsTrue (are_distinct events) }
    ensures line { IfOk result (λ x. x.0 ≡ picture_json (items (picture events))) }
    ensures tally { IfOk result (λ x. x.1 ≡ tally events) }
    ensures steps { OnOk result (steps.new ≡ steps.old + sum (costs events)) }
    ensures err { OnErr result (PaidFront (costs events) steps.old steps.new) }
{
    let (picture, tally) = drawn(alloc, events, steps)?;
    let line = picture_json(alloc, &picture)?;
    Ok((line, tally))
}

/// The events as JSON. It is made before they arrive, since each is let go then.
fn arrived_json<L: Ledger>(
    alloc: Global,
    events: EventList,
    steps: &mut Steps<L>,
) -> Result<(JsonText, Tally), AllocError>
    requires few { length events ≤ SESSION_EVENTS }
    requires distinct { IsTrue (are_distinct events) }
    ensures line { IfOk result (λ x. x.0 ≡ events_json events) }
    ensures tally { IfOk result (λ x. x.1 ≡ tally events) }
    ensures steps { OnOk result (steps.new ≡ steps.old + sum (costs events)) }
    ensures err { OnErr result (PaidFront (costs events) steps.old steps.new) }
{
    let line = events_json(alloc, &events)?;
    let (history, tally) = arrived_empty(alloc, events, steps)?;
    mem::forget(history);
    Ok((line, tally))
}

/// Prints them. `WriteFault` where a write failed; no other end comes.
pub fn write_lines<K: Sink>(lines: &Lines, output: &mut K) -> Result<(), End>
    ensures does { Prints (K.seen output.old) (map Print (lines_in lines.now)) result
        (K.seen output.new) }
    ensures end { (e : End) → result ≡ Err e → e ≡ End.WriteFault }
{
    match lines {
        Lines::Text(picture) => write_text(picture, output),
        Lines::Json(line) => print(output, line.as_str().as_bytes()),
    }
}
