//! The loop over items.

ghost use Rattle.std.specs.Prelude.{◌≡◌, ℕ, ◌≤◌, ◌^◌, ◌++◌, List, length, map, IfOk};
ghost use Rattle.gd_effects.specs.Effects.{Print};
ghost use Rattle.gd_effects.specs.Outside.{outside};
ghost use Rattle.gd_effects.specs.Prints.{Prints};
ghost use Rattle.gd_effects.specs.Runs.{RunsAs};
ghost use Rattle.gd_outside.specs.Seen.{SeenJournal, SeenLink};
ghost use Rattle.gd_outside.specs.Told.{told};
ghost use Rattle.gd_reference.specs.DrawingText.{text};
ghost use Rattle.gd_viewer.specs.Viewers.{StandsFor};
ghost use Rattle.gd_viewing.specs.SlowViewer.{SlowViewer, viewed};
ghost use Rattle.gd_viewing.specs.Viewing.{end_behind, items_of, most_items, shown_behind, whole_behind};
ghost use Rattle.gd_watch.specs.Ends.{IsShownEnd};

use crate::ending::end_with;
use crate::items::{LENGTH_BYTES, Next, frame_of, next_item};
use crate::taking::take_item;
use gd_base::Steps;
use gd_handover::Ahead;
use gd_outside::{End, Sink, Source, Status};
use gd_view::write_text;
use gd_viewer::Viewer;
use gd_words::Reply;
use std::alloc::Global;
use std::sync::ledger::Ledger;

/// How many items may come.
const MOST_ITEMS: u32 = 1_000_000;

/// Has a viewer take the items of an input, and prints what comes of each, and then the drawing or the fault of an
/// item, whose place is counted on from `place`. `Done` behind the drawing, `BadView` behind a fault, and `LineLimit`
/// behind the line of an item that is one too many.
pub(crate) fn show_items<S: Source, K: Sink, L: Ledger>(
    alloc: Global,
    viewer: &mut Viewer,
    place: u64,
    input: &mut S,
    output: &mut K,
    steps: &mut Steps<L>,
) -> Result<Status, End>
    requires met { (slow : SlowViewer) × StandsFor slow viewer.old }
    requires near { place ≤ 2 ^ 40 }
    ensures runs { (slow : SlowViewer) → StandsFor slow viewer.old
        → (front : List ℕ) → length front ≡ place → (journal : SeenJournal) (link : SeenLink) →
        let bytes = told (S.seen input.old).left in
        RunsAs (shown_behind (front ++ bytes) slow (items_of most_items bytes))
        (λ taken. whole_behind slow (items_of most_items taken))
        (end_behind (items_of most_items bytes)) result
        (outside (S.seen input.old) (K.seen output.old) journal link steps.old)
        (outside (S.seen input.new) (K.seen output.new) journal link steps.new) }
    ensures kinds { IfOk result IsShownEnd }
{
    let mut ahead = Ahead::new();
    let mut place = place;
    let mut left = MOST_ITEMS;
    'items: loop {
        let Ok(next) = next_item(&mut ahead, left, input) else {
            return Err(End::ReadFault);
        };
        let count = match next {
            Next::End => return show(viewer, output),
            Next::TooMany => return end_with(&Reply::LineLimit, Status::LineLimit, output),
            Next::Broken { at, why } => {
                let at = place + at as u64;
                return end_with(&Reply::BadView { at, why }, Status::BadView, output);
            }
            Next::Item(count) => count,
        };
        take_item(alloc, viewer, frame_of(&ahead, count), output, steps)?;
        ahead.skip(count + LENGTH_BYTES);
        place += (count + LENGTH_BYTES) as u64;
        left -= 1;
    }
}

/// Prints the text of the drawing. `NoMemory` where memory ran out, and `WriteFault` where a write failed.
fn show<K: Sink>(viewer: &Viewer, output: &mut K) -> Result<Status, End>
    ensures does { (slow : SlowViewer) → StandsFor slow viewer.now
        → Prints (K.seen output.old) (map Print (text (viewed slow))) result (K.seen output.new) }
    ensures end { IfOk result (λ s. s ≡ Status.Done) }
{
    let picture = viewer.picture()?;
    write_text(&picture, output)?;
    Ok(Status::Done)
}
