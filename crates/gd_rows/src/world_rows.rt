//! Sites and worlds, computed on worked rows.
#![tactic(auto, unfolding(crate::proofs::Computing::computing))]

ghost use Rattle.std.specs.Prelude.{◌≡◌, ◌∷◌, [], Some, slice_get, codes, pos};
ghost use Rattle.std.specs.List.{AllByRecursion};
ghost use Rattle.gd_base.specs.declared.offer.Offer.TheVariants.{Next, Repeat, Gap, Backdated};
ghost use Rattle.gd_base.specs.declared.refusal.FrameFault.TheVariants as fault;
ghost use Rattle.gd_base.specs.declared.refusal.Refusal.TheVariants.{NoteEnd};
ghost use Rattle.gd_lines.specs.declared.reply.Reply.TheVariants as reply;
ghost use Rattle.gd_model.specs.Drawing.{picture};
ghost use Rattle.gd_reference.specs.DrawingText.{text};
ghost use Rattle.gd_reference.specs.Offers.{offer, offers, refusal, refused, take_frame};
ghost use Rattle.gd_reference.specs.SiteEffects.{frame_replies, note_reply, of_frame};
ghost use Rattle.gd_base.specs.Notes.{no_note};
ghost use Rattle.gd_reference.specs.SlowSite.{line, outbox, left_outbox, status, own};
ghost use Rattle.gd_reference.specs.World.{Names, after_line};
ghost use Rattle.gd_rows.specs.Worked.{at_stamp, event};
ghost use Rattle.gd_rows.specs.WorkedWorlds.{site_status, cover_site, cover_world, cover_held, cover_frame};
ghost use Rattle.gd_rows.specs.WorkedWorlds.{cover_effects, cover_text, covered_move, covered_raise, covering_lower};
ghost use Rattle.gd_rows.specs.WorkedWorlds.{late_group, other_create, lowering_site, raising_site, lower_world};
ghost use Rattle.gd_rows.specs.WorkedWorlds.{raise_frame, covering_frame, lower_text, closure_site, closure_world};
ghost use Rattle.gd_rows.specs.WorkedWorlds.{closure_held, closure_frame, closure_effects, closure_text, noted_world};
ghost use Rattle.gd_rows.specs.WorkedWorlds.{noted_note, answered_world, lost_world, stored_world, taken_world};
ghost use Rattle.gd_rows.specs.WorkedWorlds.{turned_world, focused_world, listener_of_note, named, listener};
ghost use Rattle.gd_rows.specs.WorkedWorlds.{ahead_create, ahead_move, ahead_first, ahead_gap, ahead_rest};
ghost use Rattle.gd_rows.specs.WorkedWorlds.{refused_heads, sure_frame, sure_raise, sure_late_frame, two_held};
ghost use Rattle.gd_rows.specs.WorkedWorlds.{lower_frame, noting_frame, ahead_one, ahead_none, ahead_all, sure_site};
ghost use Rattle.gd_rows.specs.WorkedWorlds.{over_acknowledged, first_rect, noted_site};

/// A move that arrives late, and that a later one covers, is held like any other. It is printed as dropped, and shows
/// nothing.
pub fn a_covered_move_is_held()
    ensures held { (cover_world.at 1).held ≡ cover_held }
    ensures mail { slice_get cover_world.mail 1 ≡ Some cover_frame }
    ensures effects { of_frame cover_site cover_frame ≡ cover_effects }
    ensures said { frame_replies cover_site cover_frame
        ≡ reply.Dropped (at_stamp 2 2) (at_stamp 3 1) covered_move.op ∷ [] }
    ensures status { status (cover_world.at 1) ≡ site_status 4 1 2 3 }
    ensures shown { text (picture (cover_world.at 1).held) ≡ cover_text }
{}

/// A raise and a lower of one object that were made at once. The raise comes late and is covered by the lower, and both
/// sites show the object at the bottom.
pub fn a_raise_that_a_lower_covers()
    ensures mail { slice_get lower_world.mail 1 ≡ Some raise_frame }
    ensures dropped { frame_replies lowering_site raise_frame
        ≡ reply.Dropped (at_stamp 3 1) (at_stamp 3 2) covered_raise.op ∷ [] }
    ensures back { slice_get lower_world.mail 2 ≡ Some covering_frame }
    ensures applied { frame_replies raising_site covering_frame
        ≡ reply.Applied (at_stamp 3 2) covering_lower.op ∷ [] }
    ensures shown { AllByRecursion (λ site. text (picture (lower_world.at site).held) ≡ lower_text)
        (1 ∷ 2 ∷ []) }
{}

/// Two groups that were made at once, of which one takes a member from the other. The late one is printed with how many
/// events were redone.
pub fn two_groups_at_once()
    ensures held { (closure_world.at 1).held ≡ closure_held }
    ensures mail { slice_get closure_world.mail 1 ≡ Some closure_frame }
    ensures effects { of_frame closure_site closure_frame ≡ closure_effects }
    ensures said { frame_replies closure_site closure_frame
        ≡ reply.Applied (at_stamp 1 2) other_create.op
        ∷ reply.Reworked (at_stamp 3 2) 2 late_group.op ∷ [] }
    ensures shown { text (picture (closure_world.at 1).held) ≡ closure_text }
{}

/// A frame that runs ahead brings nothing but its beat, and what was held already isn't taken again.
pub fn a_frame_that_runs_ahead()
    ensures first { offers listener ahead_first.events ≡ Next ∷ [] }
    ensures gap { offers ahead_one ahead_gap.events ≡ Gap ∷ Gap ∷ [] }
    ensures rest { offers ahead_none ahead_rest.events ≡ Next ∷ Next ∷ Next ∷ [] }
    ensures repeated { offers ahead_all ahead_rest.events ≡ Repeat ∷ Repeat ∷ Repeat ∷ [] }
    ensures status { status ahead_all ≡ site_status 4 0 4 4 }
{}

/// An event at the sure clock comes too late. The line stays at the own clock, however high the sure clock is.
pub fn the_sure_clock_is_a_boundary()
    ensures taken { offers listener sure_frame.events ≡ Next ∷ Next ∷ [] }
    ensures backdated { offers sure_site sure_late_frame.events ≡ Backdated 9 9 ∷ [] }
    ensures next { offer sure_site (record sure_raise { stamp = at_stamp 10 2 }) ≡ Next }
    ensures held { (take_frame sure_site sure_late_frame).held ≡ ahead_create ∷ ahead_move 2 ∷ [] }
    ensures status { status (take_frame sure_site sure_late_frame) ≡ site_status 2 0 2 2 }
{}

/// The first cause that a frame isn't taken for.
pub fn a_frame_is_refused()
    ensures heads { AllByRecursion (λ r. refused 7 1 2 0 r.0 ≡ r.1) refused_heads }
    ensures by_the_site { refusal listener over_acknowledged ≡ Some (fault.OverAck 1 0) }
{}

/// A note goes with each frame; an acknowledgement empties the outbox; a restart forgets both, and keeps what was
/// stored.
pub fn notes_acknowledgements_and_restarts()
    ensures noted { (noted_world.at 2).notes 1 ≡ noted_note }
    ensures unsent { outbox (noted_world.at 1) ≡ own (noted_world.at 1) }
    ensures answered { outbox (answered_world.at 1) ≡ [] }
    ensures left { left_outbox (answered_world.at 1) ≡ own (answered_world.at 1) }
    ensures sure { line (answered_world.at 1) ≡ 1 }
    ensures lost { status (lost_world.at 1) ≡ site_status 1 1 0 1 }
    ensures stored { status (stored_world.at 1) ≡ site_status 2 2 0 2 }
    ensures forgotten { (stored_world.at 1).notes 1 ≡ no_note }
    ensures taken { (taken_world.at 2).held ≡ first_rect ∷ [] }
    ensures sure_of { status (taken_world.at 2) ≡ site_status 1 0 1 1 }
{}

/// An acknowledgement, a note and a sure clock never go back, and a note isn't replaced by another of its number.
pub fn what_comes_late_replaces_nothing()
    ensures acked { (turned_world.at 1).acked 2 ≡ 2 }
    ensures noted { (turned_world.at 1).notes 2 ≡ named 2 (codes "Bob") }
    ensures equal { (take_frame noted_site (noting_frame (named 1 (codes "Bob")))).notes 2
        ≡ named 1 (codes "Ann") }
    ensures sure { (take_frame two_held lower_frame).sure 2 ≡ 2 }
{}

/// A name keeps the focus. A site makes 65,535 notes, and no more.
pub fn own_notes_are_numbered()
    ensures focused { (focused_world.at 1).notes 1 ≡ noted_note }
    ensures last { (after_line (listener_of_note 65534) (Names (codes "Ann"))).notes 1
        ≡ named 65535 (codes "Ann") }
    ensures last_said { note_reply (listener_of_note 65534) ≡ reply.Noted 65535 }
    ensures no_more { after_line (listener_of_note 65535) (Names (codes "Ann"))
        ≡ listener_of_note 65535 }
    ensures no_more_said { note_reply (listener_of_note 65535) ≡ reply.Refused NoteEnd }
{}
