//! What edits become, computed on worked rows.
#![tactic(auto, unfolding(crate::proofs::Computing::computing))]

ghost use Rattle.std.specs.Prelude.{◌≡◌, [], Ok, Err, pos};
ghost use Rattle.std.specs.List.{AllByRecursion};
ghost use Rattle.gd_base.specs.declared.op.Op.TheVariants as op;
ghost use Rattle.gd_base.specs.declared.refusal.EditRefusal.TheVariants as why;
ghost use Rattle.gd_base.specs.declared.shape.Shape.TheVariants.{Rect};
ghost use Rattle.gd_reference.specs.Judging.{judged, edit, edit_by};
ghost use Rattle.gd_rows.specs.Worked.{event};
ghost use Rattle.gd_rows.specs.WorkedWorlds.{new_rect, group_of};
ghost use Rattle.gd_rows.specs.WorkedEdits.{grouped_site, grouped_edits, far_site, far_edits, farther_site};
ghost use Rattle.gd_rows.specs.WorkedEdits.{listener_at, raised};

/// The first refusal of an edit that applies, and what an edit that is not refused becomes.
pub fn an_edit_is_judged()
    ensures grouped { AllByRecursion (λ r. judged grouped_site.held r.0 ≡ r.1) grouped_edits }
    ensures far { AllByRecursion (λ r. judged far_site.held r.0 ≡ r.1) far_edits }
    ensures shifts_too_far { judged farther_site.held (group_of 1 1 2 1) ≡ Err why.TooFar }
{}

/// The greatest clock is 2^48 - 1, and a site makes 65,535 events.
pub fn clocks_and_numbers_come_to_an_end()
    ensures last_clock { edit (listener_at 281474976710654) (new_rect (pos 0))
        ≡ Ok (event 281474976710655 1 1 (op.Create Rect (pos 0) (pos 0) (pos 10) (pos 10) [])) }
    ensures no_more_clocks { edit (listener_at 281474976710655) (new_rect (pos 0))
        ≡ Err why.ClockEnd }
    ensures last_number { edit_by 1 70000 65534 (Ok raised) ≡ Ok (event 70001 1 65535 raised) }
    ensures no_more_numbers { edit_by 1 70000 65535 (Ok raised) ≡ Err why.SessionFull }
{}
