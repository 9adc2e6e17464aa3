//! The command `view`: reads a snapshot and frames behind it, and prints what comes of these and the drawing.

ghost use Rattle.std.specs.Prelude.{◌≡◌, ℕ, ◌≤◌, ◌+◌, ◌^◌, ◌++◌, List, length, map, IfOk, IsSome};
ghost use Rattle.gd_effects.specs.Effects.{Work, cost};
ghost use Rattle.gd_effects.specs.Endings.{EndsAs, IsUncut};
ghost use Rattle.gd_effects.specs.Outside.{outside};
ghost use Rattle.gd_effects.specs.Runs.{RunsAs};
ghost use Rattle.gd_model.specs.Arrivals.{costs};
ghost use Rattle.gd_outside.specs.Seen.{SeenJournal, SeenLink};
ghost use Rattle.gd_outside.specs.Told.{told};
ghost use Rattle.gd_viewing.specs.SlowViewer.{opened};
ghost use Rattle.gd_viewing.specs.Viewing.{end_behind, items_of, most_items, shown_behind, view_cut};
ghost use Rattle.gd_viewing.specs.Viewing.{view_effects, view_end, whole_behind};
ghost use Rattle.gd_watch.specs.Ends.{IsShownEnd, IsViewEnd};

use crate::ending::end_with;
use crate::showing::show_items;
use gd_base::Steps;
use gd_effects::ended;
use gd_handover::{Snapshot, SnapshotFault, read_front};
use gd_outside::{End, Sink, Source, Status};
use gd_viewer::Viewer;
use gd_words::Reply;
use std::alloc::Global;
use std::sync::ledger::Ledger;

/// Reads a snapshot and the items behind it, which are a length of two bytes and a frame each, and prints what comes of
/// each frame and then the drawing.
///
/// `Done` after the drawing. `BadView` after the line of the first fault: of the snapshot, with nothing printed before
/// it, or of an item that is longer than any frame or isn't whole, in place of the drawing. `LineLimit` after the line
/// that says so, where a byte of item 1,000,001 stands. An item that is no frame, and a frame that is refused, are
/// printed as that, and the next item follows. `ReadFault` where a read failed, with all done that the snapshot and the
/// whole items before it ask for; `WriteFault` where a write failed, with a prefix written; `NoMemory` where memory ran
/// out.
///
/// Each kept event of the snapshot, and each event of a frame that is taken, takes the steps that its repair costs.
pub fn view<S: Source, K: Sink, L: Ledger>(
    alloc: Global,
    input: &mut S,
    output: &mut K,
    steps: &mut Steps<L>,
) -> Status
    ensures ends { (journal : SeenJournal) (link : SeenLink)
        → EndsAs (IsSome (S.seen input.new).left)
        (view_effects (told (S.seen input.old).left)) view_cut
        (view_end (told (S.seen input.old).left)) result
        (outside (S.seen input.old) (K.seen output.old) journal link steps.old)
        (outside (S.seen input.new) (K.seen output.new) journal link steps.new) }
    ensures kinds { IsViewEnd result }
    // The steps rose by what is owed, where nothing cut the run short, and by no more in any case.
    ensures steps { IsSome (S.seen input.new).left → IsUncut result
        → steps.new ≡ steps.old + cost (view_effects (told (S.seen input.old).left)) }
    ensures most_steps { IsSome (S.seen input.new).left
        → steps.new ≤ steps.old + cost (view_effects (told (S.seen input.old).left)) }
{
    ended(run(alloc, input, output, steps))
}

/// Carries the run out.
fn run<S: Source, K: Sink, L: Ledger>(
    alloc: Global,
    input: &mut S,
    output: &mut K,
    steps: &mut Steps<L>,
) -> Result<Status, End>
    ensures runs { (journal : SeenJournal) (link : SeenLink)
        → RunsAs (view_effects (told (S.seen input.old).left)) view_cut
        (view_end (told (S.seen input.old).left)) result
        (outside (S.seen input.old) (K.seen output.old) journal link steps.old)
        (outside (S.seen input.new) (K.seen output.new) journal link steps.new) }
    ensures kinds { IfOk result IsShownEnd }
{
    match read_front(alloc, input) {
        Ok((snapshot, place)) => open(alloc, snapshot, place, input, output, steps),
        Err(SnapshotFault::Read) => Err(End::ReadFault),
        Err(SnapshotFault::NoMemory) => Err(End::NoMemory),
        Err(SnapshotFault::Bad { at, why }) => {
            end_with(&Reply::BadView { at, why }, Status::BadView, output)
        }
    }
}

/// Opens a viewer with a snapshot of so many bytes, and shows it the items of an input.
fn open<S: Source, K: Sink, L: Ledger>(
    alloc: Global,
    snapshot: Snapshot,
    place: u64,
    input: &mut S,
    output: &mut K,
    steps: &mut Steps<L>,
) -> Result<Status, End>
    requires { place ≤ 2 ^ 40 }
    ensures runs { (front : List ℕ) → length front ≡ place
        → (journal : SeenJournal) (link : SeenLink) →
        let bytes = told (S.seen input.old).left in
        let slow = opened snapshot in
        let first = map Work (costs snapshot.kept) in
        RunsAs (first ++ shown_behind (front ++ bytes) slow (items_of most_items bytes))
        (λ taken. first ++ whole_behind slow (items_of most_items taken))
        (end_behind (items_of most_items bytes)) result
        (outside (S.seen input.old) (K.seen output.old) journal link steps.old)
        (outside (S.seen input.new) (K.seen output.new) journal link steps.new) }
    ensures kinds { IfOk result IsShownEnd }
{
    let mut viewer = Viewer::open(alloc, snapshot, steps)?;
    show_items(alloc, &mut viewer, place, input, output, steps)
}
