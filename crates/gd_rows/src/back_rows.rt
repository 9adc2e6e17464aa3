//! Undo and redo, computed on worked rows.
#![tactic(auto, unfolding(crate::proofs::Computing::computing, crate::specs::WorkedBacks::turned))]

ghost use Rattle.std.specs.Prelude.{◌≡◌, ◌∷◌, ◌++◌, [], ◌-◌, IsOk, Ok, Err, Some, codes, replicate, slice_get, take};
ghost use Rattle.std.specs.List.{AllByRecursion};
ghost use Rattle.gd_base.specs.declared.op.Op.TheVariants as op;
ghost use Rattle.gd_base.specs.declared.refusal.EditRefusal.TheVariants as why;
ghost use Rattle.gd_base.specs.declared.refusal.Refusal.TheVariants as refusal;
ghost use Rattle.gd_lines.specs.declared.command.Command.TheVariants as command;
ghost use Rattle.gd_lines.specs.declared.command.Turn.TheVariants.{Undo, Redo};
ghost use Rattle.gd_lines.specs.declared.reply.Reply.TheVariants as reply;
ghost use Rattle.gd_model.specs.Drawing.{picture};
ghost use Rattle.gd_reference.specs.Backs.{kept, no_backs, with_gesture, with_turn};
ghost use Rattle.gd_reference.specs.DrawingText.{text};
ghost use Rattle.gd_reference.specs.Offers.{offers};
ghost use Rattle.gd_reference.specs.SiteEffects.{events_replies, turn_replies};
ghost use Rattle.gd_reference.specs.SlowSite.{new_site};
ghost use Rattle.gd_reference.specs.TakeBack.{NothingBack, Refused, after_edit, after_turn, turn};
ghost use Rattle.gd_rows.specs.Worked.{at_stamp, event, square_line};
ghost use Rattle.gd_rows.specs.WorkedNodes.{asked};
ghost use Rattle.gd_rows.specs.WorkedBacks.{all_again, all_again_held, all_again_printed, all_back, all_back_held};
ghost use Rattle.gd_rows.specs.WorkedBacks.{all_back_printed, backs_of, behind, dressed, dressed_backs, dressed_text};
ghost use Rattle.gd_rows.specs.WorkedBacks.{far, far_shown, forgetting, forgotten, forgotten_printed, gestures_of};
ghost use Rattle.gd_rows.specs.WorkedBacks.{gone_site, gone_turns, kept_on_the_way, last_site, late_fill, late_move};
ghost use Rattle.gd_rows.specs.WorkedBacks.{late_stroke, lost_backs, made_and_moved, made_and_taken, moved_backs};
ghost use Rattle.gd_rows.specs.WorkedBacks.{nested, nested_backs, nested_shown, one, owing, place_of, prints, put_back};
ghost use Rattle.gd_rows.specs.WorkedBacks.{refusing, refusing_printed, regrouped, regrouped_again, regrouped_backs};
ghost use Rattle.gd_rows.specs.WorkedBacks.{regrouped_shown, restored, restored_backs, restored_text, restoring};
ghost use Rattle.gd_rows.specs.WorkedBacks.{set_and_taken, site_behind, stopping, stopping_again, three, told_to_one};
ghost use Rattle.gd_rows.specs.WorkedBacks.{told_to_two, turned, turns, two, unacceptable, undone_steps, unjoined};

/// Two edits are taken back, the second first, and then nothing is left; then they are done again, the first first.
/// Each undo and each redo is an event.
pub fn two_edits_are_taken_back_and_done_again()
    ensures printed { prints (all_back ++ asked (command.Show ∷ command.Status ∷ []))
        ≡ all_back_printed }
    ensures again { prints (all_again ++ asked (command.Show ∷ [])) ≡ all_again_printed }
    ensures held { (behind all_again).held ≡ all_again_held }
    ensures kept { AllByRecursion (λ r. (behind r.0).backs ≡ r.1) kept_on_the_way }
{}

/// An edit forgets what could be done again, and one that is refused doesn't.
pub fn an_edit_forgets_what_could_be_done_again()
    ensures backs { (behind forgetting).backs ≡ backs_of (op.Delete (at_stamp 4 1)
        ∷ op.Delete (at_stamp 1 1) ∷ []) [] }
    ensures printed { prints (forgotten ++ asked (command.Show ∷ [])) ≡ forgotten_printed }
    ensures refused { prints (refusing ++ asked (command.Show ∷ [])) ≡ refusing_printed }
{}

/// What takes each kind of edit back, and what takes that back. The undo shows again what was shown.
pub fn what_makes_and_takes_objects_is_taken_back()
    ensures shown { text (picture dressed.held) ≡ dressed_text }
    ensures order { dressed.backs ≡ backs_of dressed_backs [] }
    ensures backs { AllByRecursion (λ r. (after_edit dressed r.edit).backs
        ≡ backs_of (r.back ∷ dressed_backs) []) made_and_taken }
    ensures taken { AllByRecursion
        (λ r. text (picture (after_turn (after_edit dressed r.edit) Undo).held)
        ≡ dressed_text) made_and_taken }
    ensures again { AllByRecursion (λ r. (after_turn (after_edit dressed r.edit) Undo).backs
        ≡ backs_of dressed_backs (r.again ∷ [])) made_and_taken }
    ensures redone { AllByRecursion
        (λ r. (turned (after_edit dressed r.edit) (Undo ∷ Redo ∷ [])).backs
        ≡ backs_of (r.back ∷ dressed_backs) []) made_and_taken }
{}

/// So it is with what sets a part of an object.
pub fn what_sets_a_part_is_taken_back()
    ensures backs { AllByRecursion (λ r. (after_edit dressed r.edit).backs
        ≡ backs_of (r.back ∷ dressed_backs) []) set_and_taken }
    ensures taken { AllByRecursion
        (λ r. text (picture (after_turn (after_edit dressed r.edit) Undo).held)
        ≡ dressed_text) set_and_taken }
    ensures again { AllByRecursion (λ r. (after_turn (after_edit dressed r.edit) Undo).backs
        ≡ backs_of dressed_backs (r.again ∷ [])) set_and_taken }
    ensures redone { AllByRecursion
        (λ r. (turned (after_edit dressed r.edit) (Undo ∷ Redo ∷ [])).backs
        ≡ backs_of (r.back ∷ dressed_backs) []) set_and_taken }
{}

/// A group that is made anew of what was in a dissolved one: each undo and each redo shows what the edits in front of
/// it showed.
pub fn groups_are_taken_back_one_by_one()
    ensures backs { (behind regrouped).backs ≡ backs_of regrouped_backs [] }
    ensures again { (behind (regrouped ++ turns 8 Undo)).backs ≡ backs_of [] regrouped_again }
    ensures undone { AllByRecursion
        (λ r. text (picture (behind (regrouped ++ turns (8 - r.0) Undo)).held)
        ≡ r.1) regrouped_shown }
    ensures redone { AllByRecursion
        (λ r. text (picture (behind (regrouped ++ turns 8 Undo ++ turns r.0 Redo)).held)
        ≡ r.1) regrouped_shown }
{}

/// A member of a group, and a group in a group, are deleted, and go back into their groups.
pub fn links_come_back()
    ensures backs { (behind nested).backs ≡ backs_of nested_backs [] }
    ensures undone { AllByRecursion (λ r. text (picture (behind (nested ++ turns r.0 Undo)).held)
        ≡ r.2) nested_shown }
    ensures redone { AllByRecursion
        (λ r. text (picture (behind (nested ++ turns 8 Undo ++ turns r.1 Redo)).held)
        ≡ r.2) nested_shown }
{}

/// A member that was shown behind the range is shown there again.
pub fn an_undo_shows_what_was_out_of_the_range()
    ensures { text (picture (behind (far ++ turns 1 Undo)).held) ≡ far_shown }
{}

/// The backs of 1,024 gestures are kept, and with the next one the oldest goes. So it is with what can be done again.
pub fn the_oldest_back_goes()
    ensures room { kept one (replicate 1022 two ++ three ∷ []) ≡ one ∷ replicate 1022 two
        ++ three ∷ [] }
    ensures full { kept one (replicate 1023 two ++ three ∷ []) ≡ one ∷ replicate 1023 two }
    ensures gesture { with_gesture one (gestures_of (replicate 1024 two) (three ∷ []))
        ≡ gestures_of (one ∷ replicate 1023 two) [] }
    ensures nothing { with_gesture [] (gestures_of (replicate 1024 two) (three ∷ []))
        ≡ gestures_of (replicate 1024 two) (three ∷ []) }
    ensures undo { with_turn Undo one (gestures_of (two ∷ three ∷ []) (replicate 1024 two))
        ≡ gestures_of (three ∷ []) (one ∷ replicate 1023 two) }
    ensures redo { with_turn Redo one (gestures_of (replicate 1024 two) (two ∷ three ∷ []))
        ≡ gestures_of (one ∷ replicate 1023 two) (three ∷ []) }
{}

/// A refused edit, a refused undo and a refused redo change nothing.
pub fn what_is_refused_changes_nothing()
    ensures edits { AllByRecursion (λ w. after_edit dressed w ≡ dressed) unacceptable }
    ensures ends { AllByRecursion (λ w. after_edit dressed w ≡ dressed) unjoined }
    ensures undo { after_turn (new_site 1 1 7) Undo ≡ new_site 1 1 7 }
    ensures redo { after_turn dressed Redo ≡ dressed }
    ensures clock_end { after_turn (after_turn last_site Undo) Redo ≡ after_turn last_site Undo }
{}

/// Where nothing is left, that comes first, then the greatest clock, and then the number of the site's events. There
/// has to be room for all events of the gesture.
pub fn each_refusal_of_an_undo_and_a_redo()
    ensures nothing { turn (new_site 1 1 7) Undo ≡ Err NothingBack }
    ensures nothing_again { turn (new_site 1 1 7) Redo ≡ Err NothingBack }
    ensures last_clock { turn last_site Undo
        ≡ Ok (event 281474976710655 1 2 (op.Delete (at_stamp 281474976710654 1))
        ∷ []) }
    ensures clock_end { turn (after_turn last_site Undo) Redo ≡ Err (Refused why.ClockEnd) }
    ensures nothing_first { turn (after_turn last_site Undo) Undo ≡ Err NothingBack }
    ensures two_clocks { turn (owing 2 last_site) Undo ≡ Err (Refused why.ClockEnd) }
    ensures last_number { IsOk (turn (owing 65535 (new_site 1 1 7)) Undo) }
    ensures session_full { turn (owing 65536 (new_site 1 1 7)) Undo
        ≡ Err (Refused why.SessionFull) }
    ensures session_filled { turn (owing 65535 (behind made_and_moved)) Undo ≡ Err (Refused why.SessionFull) }
    ensures clock_first { turn (owing 65536 last_site) Undo ≡ Err (Refused why.ClockEnd) }
    ensures nothing_said { turn_replies (Err NothingBack) ≡ reply.Refused refusal.NothingBack ∷ [] }
    ensures clock_said { turn_replies (Err (Refused why.ClockEnd))
        ≡ reply.Refused refusal.ClockEnd ∷ [] }
{}

/// An undo reaches other sites as any edit does. What comes from them leaves what can be taken back, and a restart
/// forgets it, where it keeps the undo or the redo that the site stopped in, and where it doesn't.
pub fn an_undo_is_an_edit()
    ensures others { (site_behind 2 undone_steps).held ≡ take 3 all_back_held }
    ensures stored { (site_behind 1 (stopping 1)).held ≡ take 3 all_back_held }
    ensures lost { (site_behind 1 (stopping 0)).held ≡ take 2 all_back_held }
    ensures stored_again { (site_behind 1 (stopping_again 1)).held ≡ take 3 all_back_held
        ++ event 4 1 4 (place_of 1 1 50 60) ∷ [] }
    ensures lost_again { (site_behind 1 (stopping_again 0)).held ≡ take 3 all_back_held }
    ensures forgotten { AllByRecursion
        (λ stored. (site_behind 1 (stopping stored)).backs ≡ no_backs)
        (0 ∷ 1 ∷ []) }
    ensures forgotten_again { AllByRecursion (λ stored. (site_behind 1 (stopping_again stored)).backs ≡ no_backs)
        (0 ∷ 1 ∷ []) }
    ensures refused { turn (site_behind 1 (stopping 1)) Redo ≡ Err NothingBack }
{}

/// Where another site deleted the object meanwhile, an undo is accepted and changes nothing.
pub fn an_undo_of_what_another_deleted()
    ensures kept { gone_site.backs ≡ moved_backs }
    ensures undo { turn gone_site Undo ≡ Ok (event 3 1 3 (place_of 1 1 0 0) ∷ []) }
    ensures backs { AllByRecursion (λ r. (turned gone_site r.0).backs ≡ r.1) gone_turns }
    ensures shown { AllByRecursion (λ r. text (picture (turned gone_site r.0).held) ≡ codes "end 0\n"
        ∷ []) gone_turns }
{}

/// An undo of a delete puts back what the site had, whatever comes late. What comes behind it in stamp order changes
/// that.
pub fn late_events_beside_an_undo_of_a_delete()
    ensures put_back { slice_get (site_behind 1 restoring).held 3 ≡ Some put_back }
    ensures one { events_replies (site_behind 1 restoring)
        (late_move ∷ late_stroke ∷ late_fill ∷ [])
        ≡ told_to_one }
    ensures two { events_replies (site_behind 2 restoring) (site_behind 1 restoring).held
        ≡ told_to_two }
    ensures shown { AllByRecursion (λ site. text (picture (site_behind site restored).held)
        ≡ restored_text) (1 ∷ 2 ∷ []) }
    ensures again { (after_turn (site_behind 1 restored) Redo).backs ≡ restored_backs }
    ensures lost { AllByRecursion (λ r. (turned (site_behind 2 restored) r.0).backs ≡ r.1)
        lost_backs }
    ensures lost_shown { text
        (picture (turned (site_behind 2 restored) (Undo ∷ Undo ∷ Undo ∷ [])).held)
        ≡ square_line "1.1" "-" "0 0" ∷ codes "end 1\n" ∷ [] }
{}
