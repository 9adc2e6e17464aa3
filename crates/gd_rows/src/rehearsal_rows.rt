//! Rehearsals, computed on worked rows.
#![tactic(auto, unfolding(crate::proofs::Computing::computing))]

ghost use Rattle.std.specs.Prelude.{◌≡◌, ◌∷◌, [], Some, codes, slice_get};
ghost use Rattle.gd_effects.specs.Effects.{Print, Work, printed};
ghost use Rattle.gd_outside.specs.declared.status.Status.TheVariants.{Done, LineLimit};
ghost use Rattle.gd_worlds.specs.Rehearsal.{rehearsal_after, rehearsal_effects, rehearsal_end, rehearsal_lines};
ghost use Rattle.gd_rows.specs.WorkedRehearsals.{answers, behind_blanks, costs, covered, delivered_late, empty_frame};
ghost use Rattle.gd_rows.specs.WorkedRehearsals.{heard_of, hidden, lowered, noted, prints, quitting, quitting_printed};
ghost use Rattle.gd_rows.specs.WorkedRehearsals.{refused_in_order, refused_in_world, regrouped, rehearsed, reworked};
ghost use Rattle.gd_rows.specs.WorkedRehearsals.{reworked_effects, reworked_shown, taken_back, taken_between, too_far};
ghost use Rattle.gd_rows.specs.WorkedRehearsals.{typed, used};

/// A late move that a later one covers is dropped, for no step.
pub fn a_covered_move()
    ensures printed { prints 2 covered ≡ answers covered }
    ensures cost { costs 2 covered ≡ 5 }
{}

/// A late raise that a lower covers is dropped, and both sites show the object at the bottom.
pub fn a_raise_that_a_lower_covers()
    ensures { prints 2 lowered ≡ answers lowered }
{}

/// A late group has the events redone that depend on it, one of them through the other. The steps of a line come before
/// what is printed of it; nothing is recorded, and no frame is tried.
pub fn two_groups_at_once()
    ensures effects { rehearsed 2 (typed reworked) ≡ reworked_effects }
    ensures printed { prints 2 reworked_shown ≡ answers reworked_shown }
{}

/// Grouping anew what was dissolved moves nothing, at two sites at once.
pub fn grouping_anew()
    ensures printed { prints 2 regrouped ≡ answers regrouped }
    ensures cost { costs 2 regrouped ≡ 16 }
{}

/// What is in a deleted group is hidden.
pub fn members_of_a_deleted_group()
    ensures { prints 1 hidden ≡ answers hidden }
{}

/// The first refusal that applies is given, and nothing changes.
pub fn the_first_refusal_is_given()
    ensures printed { prints 1 refused_in_order ≡ answers refused_in_order }
    ensures cost { costs 1 refused_in_order ≡ 5 }
{}

/// An object can be shown out of the range, and can't be moved there.
pub fn places_out_of_the_range()
    ensures { prints 1 too_far ≡ answers too_far }
{}

/// Two edits are taken back, and then nothing is left, and done again. An undo and a redo cost what an edit costs, and
/// a refused one nothing.
pub fn two_edits_are_taken_back()
    ensures printed { prints 1 taken_back ≡ answers taken_back }
    ensures cost { costs 1 taken_back ≡ 6 }
{}

/// What comes late between a delete and the undo of it finds nothing.
pub fn a_move_between_a_delete_and_its_undo()
    ensures printed { prints 2 taken_between ≡ answers taken_between }
    ensures cost { costs 2 taken_between ≡ 14 }
{}

/// Three sites draw together, each for a while alone.
pub fn three_sites_draw()
    ensures printed { prints 3 used ≡ answers used }
    ensures cost { costs 3 used ≡ 42 }
{}

/// A site that isn't there, a send from a site to itself, and a number of no mail, 0 among them, are refused, and
/// nothing is done.
pub fn what_a_world_refuses()
    ensures printed { prints 2 refused_in_world ≡ answers refused_in_world }
    ensures site { rehearsed 2 (codes "at 3 create rect 0 0 10 10") ≡ Print (codes "refused: NoSite\n")
        ∷ [] }
    ensures mail { rehearsed 2 (codes "at 1 create rect 0 0 10 10\nsend 1 2\ndeliver 0")
        ≡ Work 1 ∷ Print (codes "ok 1.1\n") ∷ Print (codes "mail 1\n")
        ∷ Print (codes "refused: NoMail\n") ∷ [] }
{}

/// A frame is of session 1. Mail that comes twice, or late, changes nothing then.
pub fn mail_that_comes_late()
    ensures mail { slice_get (rehearsal_after 2 (rehearsal_lines (codes "send 1 2"))).mail 0
        ≡ Some empty_frame }
    ensures printed { prints 2 delivered_late ≡ answers delivered_late }
    ensures cost { costs 2 delivered_late ≡ 4 }
{}

/// Notes are taken, and go with frames. They cost no step.
pub fn notes_are_taken()
    ensures printed { prints 2 noted ≡ answers noted }
    ensures cost { costs 2 noted ≡ 0 }
{}

/// Blank lines print nothing, and nothing counts behind `quit`.
pub fn a_rehearsal_quits()
    ensures printed { printed (rehearsed 1 quitting) ≡ quitting_printed }
    ensures end { rehearsal_end (rehearsal_lines quitting) ≡ Done }
{}

/// The first line that is one too many is said, and is the last.
pub fn a_rehearsal_ends_at_its_last_line()
    ensures as_many { printed (rehearsal_effects 1 (heard_of 3 (codes "\nat 1 show\n\n")))
        ≡ codes "end 0\n" }
    ensures done { rehearsal_end (heard_of 3 (codes "\nat 1 show\n\n")) ≡ Done }
    ensures more { printed (rehearsal_effects 1 (heard_of 3 (codes "\nat 1 show\n\nx\nat 1 show\n")))
        ≡ codes "end 0\nline limit\n" }
    ensures over { rehearsal_end (heard_of 3 (codes "\nat 1 show\n\nx\nat 1 show\n")) ≡ LineLimit }
    ensures quit { rehearsal_end (heard_of 2 (codes "\nquit\nx\n")) ≡ Done }
{}

/// A hundred thousand lines are heard, and one more is the last.
pub fn a_hundred_thousand_lines()
    ensures heard { rehearsed 1 (behind_blanks []) ≡ [] }
    ensures done { rehearsal_end (rehearsal_lines (behind_blanks [])) ≡ Done }
    ensures more { printed (rehearsed 1 (behind_blanks (codes "x"))) ≡ codes "line limit\n" }
    ensures over { rehearsal_end (rehearsal_lines (behind_blanks (codes "x"))) ≡ LineLimit }
{}
