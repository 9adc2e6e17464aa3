//! What holds of backs, and of undos and redos: contracts of functions that do nothing.
ghost use Rattle.std.specs.Prelude.{◌≡◌, ◌≤◌, ◌+◌, ◌-◌, ◌++◌, ℕ, List, length, replicate, take, None, Some, Ok, Err};
ghost use Rattle.std.specs.Prelude.{◌∷◌, [], IsTrue};
ghost use Rattle.std.specs.List.{AllByRecursion};
ghost use Rattle.gd_base.specs.Stamps.{Stamp, IsStamp, is_before};
ghost use Rattle.gd_base.specs.declared.ranges.TheConstants.{MOST_BACKS};
ghost use Rattle.gd_events.specs.Events.{Event};
ghost use Rattle.gd_events.specs.Ops.{Op};
ghost use Rattle.gd_events.specs.Sound.{IsOp, IsSoundBefore};
ghost use Rattle.gd_lines.specs.Edits.{Edit};
ghost use Rattle.gd_lines.specs.declared.command.Turn.{Turn};
ghost use Rattle.gd_lines.specs.declared.command.Turn.TheVariants.{Undo, Redo};
ghost use Rattle.gd_model.specs.Backs.{back, op_of};
ghost use Rattle.gd_model.specs.Board.{Board, apply, board};
ghost use Rattle.gd_model.specs.Drawing.{picture};
ghost use Rattle.gd_model.specs.Forms.{form};
ghost use Rattle.gd_model.specs.declared.form.Form.{Form};
ghost use Rattle.gd_reference.specs.DrawingText.{text};
ghost use Rattle.gd_reference.specs.SlowSite.{SlowSite};
ghost use Rattle.gd_reference.specs.Judging.{edit};
ghost use Rattle.gd_reference.specs.TakeBack.{Asked, BackRefusal, NothingBack, after_edit, after_gesture, backs_of};
ghost use Rattle.gd_reference.specs.TakeBack.{events_in, made, turn};
ghost use Rattle.gd_backs.specs.Turns.{gestures, turns, done_after, IsMet};
ghost use Rattle.gd_backs.specs.Worked.{at_clock, grouped, ungrouped_back, disbanded_back, nested};

/// Each form is an operation, at any stamp.
pub fn each_form_is_an_operation()
    ensures { (t : Stamp) (f : Form) → form t (op_of f) ≡ f }
{}

/// The back of any operation, at any stamp directly behind it, leaves the board as it was; and so does the back of that
/// one.
pub fn a_back_leaves_no_trace()
    ensures once { (s t : Stamp) (op : Op) (b : Board)
        → apply t (back s op b) (apply s op b) ≡ b }
    ensures again { (s t u : Stamp) (op : Op) (b : Board)
        → let undo = back s op b in
        apply u (back t undo (apply s op b)) (apply t undo (apply s op b)) ≡ apply s op b }
{}

/// The back of a sound operation, over sound events, is a sound operation at any later stamp: so an undo or a redo is
/// refused by no range.
pub fn each_back_is_sound()
    ensures { (held : List Event) (s t : Stamp) (op : Op)
        → AllByRecursion (IsSoundBefore t) held → IsStamp s → IsTrue (is_before s t) → IsOp s op
        → IsOp t (back s op (board held)) }
{}

/// So is each operation that takes sound events of a site back, at any stamp later than these and than what it holds.
pub fn each_back_of_a_gesture_is_sound()
    ensures { (slow : SlowSite) (es : List Event) (t : Stamp)
        → AllByRecursion (IsSoundBefore t) slow.held → AllByRecursion (IsSoundBefore t) es
        → AllByRecursion (IsOp t) (backs_of slow es) }
{}

/// An edit is a gesture of one, and a gesture that makes no event changes nothing: so it isn't kept, and no undo takes
/// it back.
pub fn an_edit_is_a_gesture_of_one()
    ensures site { (slow : SlowSite) (wanted : Edit)
        → after_edit slow wanted ≡ after_gesture slow (Ok wanted ∷ []) }
    ensures events { (slow : SlowSite) (wanted : Edit)
        → events_in (edit slow wanted) ≡ made slow (Ok wanted ∷ []) }
    ensures none { (slow : SlowSite) (asked : List Asked) → made slow asked ≡ []
        → after_gesture slow asked ≡ slow }
{}

/// Where a site, whatever it holds, makes at most 1,024 gestures of an event or more each, and then undos and redos in
/// any order, and nothing else happens in between, it shows what it showed after those of the gestures that are done
/// then: behind so many undos and then so many redos, the first of them. An undo or a redo is refused only where there
/// is nothing to do, by the greatest clock, and by the number of the site's events.
pub fn undos_and_redos_show_what_the_gestures_showed()
    ensures text { (t u v : SlowSite) (wanted : List (List Asked)) (row : List Turn) (n : ℕ)
        → gestures t wanted ≡ Some u → length wanted ≤ MOST_BACKS
        → turns u row ≡ Some v → done_after row (length wanted) 0 ≡ Some n
        → (w : SlowSite) × (gestures t (take n wanted) ≡ Some w)
        × (text (picture v.held) ≡ text (picture w.held)) }
    ensures in_a_row { (k j i : ℕ) → j ≤ k → i ≤ j
        → done_after (replicate j Undo ++ replicate i Redo) k 0 ≡ Some ((k - j) + i) }
    ensures something_to_do { (t u v : SlowSite) (wanted : List (List Asked)) (row : List Turn)
        (k j : ℕ)
        → gestures t wanted ≡ Some u → length wanted ≤ MOST_BACKS
        → turns u row ≡ Some v → done_after row (length wanted) 0 ≡ Some k
        → length wanted ≡ k + j
        → (turn v Undo ≡ Err NothingBack → k ≡ 0) × (turn v Redo ≡ Err NothingBack → j ≡ 0) }
    ensures refusals { (slow : SlowSite) (which : Turn) (why : BackRefusal)
        → turn slow which ≡ Err why → IsMet why }
{}

/// A group that is taken back by an ungroup leaves a trace once the ungroup before it is taken back, and one that is
/// taken back by a disband leaves none.
#[tactic(auto, unfolding(gd_base::specs::Stamps::stamp_cmp, gd_base::specs::Insertions::inserted_by, gd_base::specs::Ranks::rank_cmp, gd_base::specs::Ranks::level_cmp))]
pub fn an_ungroup_does_not_take_a_group_back()
    ensures grouped { nested grouped ≡ (at_clock 3, None) ∷ (at_clock 1, Some (at_clock 3))
        ∷ (at_clock 2, Some (at_clock 3)) ∷ [] }
    ensures ungrouped { nested ungrouped_back ≡ (at_clock 1, None) ∷ (at_clock 2, None)
        ∷ (at_clock 3, None) ∷ [] }
    ensures disbanded { nested disbanded_back ≡ nested grouped }
{}
