//! The drawing with all kept events undone.
ghost use Rattle.std.specs.Prelude.{◌≡◌, ◌+◌, ◌≤◌, length, IfOk, IsTrue, OnErr, OnOk};
ghost use Rattle.gd_canvas.specs.Slots.{is_admitted};
ghost use Rattle.gd_slots.specs.Slots.{board_of};
ghost use Rattle.gd_drawing.specs.Rules.{drawing_rules};
ghost use Rattle.gd_events.specs.Ops.{Op};
ghost use Rattle.gd_history.specs.Entries.{AllOf, all_held, events_of};
ghost use Rattle.gd_history.specs.Histories.{base_of};
ghost use Rattle.gd_repair.specs.Repair.{Stamped, stamped, unwound};

use gd_base::Steps;
use gd_canvas::Canvas;
use gd_history::{Entry, EntryList, History};
use gd_repair::Document;
use std::alloc::{AllocError, Global};
use std::sync::ledger::Ledger;

/// A copy of the history's drawing with all its entries undone, one step each. `AllocError` where memory ran out; some
/// of the steps were then taken.
pub(crate) fn base_of<L: Ledger>(
    alloc: Global,
    history: &History<Canvas>,
    steps: &mut Steps<L>,
) -> Result<Canvas, AllocError>
    ensures board { IfOk result (λ base.
        board_of base ≡ base_of drawing_rules board_of history.now) }
    ensures steps { OnOk result (steps.new ≡ steps.old + length history.now.entries) }
    ensures err_steps { OnErr result (steps.new ≤ steps.old + length history.now.entries) }
    ensures err_rose { OnErr result (steps.old ≤ steps.new) }
{
    let entries = history.entries();
    let mut canvas = history.document().copy(alloc)?;
    undo_all(alloc, &mut canvas, entries, steps)?;
    Ok(canvas)
}

/// Undoes the entries in the canvas from the last one to the first. `AllocError` where memory ran out; some of them
/// were then undone.
fn undo_all<L: Ledger>(
    alloc: Global,
    canvas: &mut Canvas,
    entries: &EntryList<Canvas>,
    steps: &mut Steps<L>,
) -> Result<(), AllocError>
    requires { AllOf (λ e. IsTrue (is_admitted e.stamp e.op canvas.old)) (events_of entries.now) }
    ensures board { OnOk result (board_of canvas.new
        ≡ unwound drawing_rules (all_held entries.now) (board_of canvas.old)) }
    ensures steps { OnOk result (steps.new ≡ steps.old + length entries.now) }
    ensures err_steps { OnErr result (steps.new ≤ steps.old + length entries.now) }
    ensures err_rose { OnErr result (steps.old ≤ steps.new) }
{
    let mut left = entries.len();
    'undoing: while left > 0 {
        left -= 1;
        undo(alloc, canvas, entries.get(left), steps)?;
    }
    Ok(())
}

/// Undoes the event of an entry, which stays as it is. `AllocError` where memory ran out, and then nothing changes.
fn undo<L: Ledger>(
    alloc: Global,
    canvas: &mut Canvas,
    entry: &Entry<Canvas>,
    steps: &mut Steps<L>,
) -> Result<(), AllocError>
    requires { IsTrue (is_admitted entry.now.stamp entry.now.op canvas.old) }
    ensures board { OnOk result (board_of canvas.new
        ≡ drawing_rules.undo (stamped entry.now.stamp entry.now.op) entry.now.before
        (board_of canvas.old)) }
    ensures kept { (x : Stamped Op) → IsTrue (is_admitted x.stamp x.op canvas.old)
        → IsTrue (is_admitted x.stamp x.op canvas.new) }
    ensures step { OnOk result (steps.new ≡ steps.old + 1) }
    ensures err_steps { OnErr result (steps.new ≡ steps.old) }
{
    let mut kept = entry.kept().copy(alloc)?;
    canvas.undo(entry.stamp(), &mut kept, steps);
    Ok(())
}
