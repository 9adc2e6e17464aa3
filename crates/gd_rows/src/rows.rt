//! The definitions, computed on worked rows.
#![tactic(auto, unfolding(crate::proofs::Computing::computing))]

ghost use Rattle.std.specs.List.{AllByRecursion};
ghost use Rattle.std.specs.Prelude.{◌≡◌, ◌++◌, ◌∷◌, [], None, Ok, Err, Some, codes, false, true, length, pos, take};
ghost use Rattle.gd_outside.specs.declared.status.Status.TheVariants as status;
ghost use Rattle.gd_base.specs.declared.content.Content.TheVariants.{ToPlace};
ghost use Rattle.gd_model.specs.declared.form.Form.TheVariants.{Sets};
ghost use Rattle.gd_repair.specs.Repair.Outcome.{applied, dropped, reworked};
ghost use Rattle.gd_grammar.specs.FrameBytes.{frame, frame_bytes};
ghost use Rattle.gd_grammar.specs.Drawings.{log};
ghost use Rattle.gd_model.specs.Drawing.{picture};
ghost use Rattle.gd_model.specs.Splices.{splice};
ghost use Rattle.gd_model.specs.Arrivals.{drawn, all_drawn, outcome_of, costs};
ghost use Rattle.gd_reference.specs.DrawingText.{text};
ghost use Rattle.gd_run.specs.Runs.{cut_of, effects_of, end_of};
ghost use Rattle.gd_reference.specs.Tally.{tally};
ghost use Rattle.gd_json.specs.Worked.{tie_picture_json, tie_events_json};
ghost use Rattle.gd_asked.specs.declared.command.Command.TheVariants.{Churn, Rehearse};
ghost use Rattle.gd_options.specs.declared.format.Format.TheVariants.{Json, Events};
ghost use Rattle.gd_lines.specs.Replies.{usage_line};
ghost use Rattle.gd_rows.specs.Worked.{header, header_two, header_bytes, empty_log, tie_log, tie_events, tie_text};
ghost use Rattle.gd_rows.specs.Worked.{rank_events, ellipse_lowered, rank_text, effect_before_cause, end_alone, replay};
ghost use Rattle.gd_rows.specs.Worked.{replays, counted, tie_counts, prints_of, works_of, cut_text, moved_log};
ghost use Rattle.gd_rows.specs.Worked.{moved_events, moved_text, styled_log, styled_events, styled_text, grouped_log};
ghost use Rattle.gd_rows.specs.Worked.{grouped_events, regrouped_events, regrouped_text, nested_events, nested_text};
ghost use Rattle.gd_rows.specs.Worked.{checked_faults, frame_row, frame_value, at_stamp, moves_held, late_move};
ghost use Rattle.gd_rows.specs.Worked.{late_delete, tied_held, late_group, undone_by_the_group, log_faults};
ghost use Rattle.gd_rows.specs.Worked.{lowered_log, lowered_events, frame_faults, last_move};
ghost use Rattle.gd_rows.specs.WorkedChurns.{nothing_printed};

/// A log without events prints no object, with its closed gate and without.
pub fn an_empty_log_prints_its_end()
    ensures gate { effects_of replay [] empty_log [] ≡ prints_of end_alone }
    ensures no_gate { effects_of replay [] header_bytes [] ≡ prints_of end_alone }
{}

/// Events of one clock are ordered by their sites.
pub fn a_tie_of_clocks_goes_by_sites()
    ensures read { log tie_log ≡ Ok (header, tie_events) }
    ensures printed { effects_of replay [] tie_log []
        ≡ works_of (1 ∷ 1 ∷ []) ++ prints_of tie_text }
    ensures end { end_of replay [] tie_log ≡ status.Done }
{}

/// The same as one line of JSON, of the drawing and of the events, and then with the line of the counts.
pub fn a_tie_as_json()
    ensures picture { effects_of (replays Json false) [] tie_log []
        ≡ works_of (1 ∷ 1 ∷ []) ++ prints_of (tie_picture_json ∷ []) }
    ensures events { effects_of (replays Events true) [] tie_log []
        ≡ works_of (1 ∷ 1 ∷ []) ++ prints_of (tie_events_json ∷ tie_counts ∷ []) }
    ensures end { end_of (replays Events true) [] tie_log ≡ status.Done }
{}

/// A move puts an object at another place, and a label is printed behind all else.
pub fn a_move_and_a_label_are_shown()
    ensures read { log moved_log ≡ Ok (header, moved_events) }
    ensures printed { effects_of replay [] moved_log []
        ≡ works_of (1 ∷ 1 ∷ []) ++ prints_of moved_text }
{}

/// A size, both colours, the width and a label are those that were set last, and what is set of no object changes
/// nothing.
pub fn a_look_is_set()
    ensures read { log styled_log ≡ Ok (header, styled_events) }
    ensures printed { effects_of replay [] styled_log []
        ≡ works_of (1 ∷ 1 ∷ 1 ∷ 1 ∷ 1 ∷ 1 ∷ 1 ∷ []) ++ prints_of styled_text }
{}

/// A raise lifts its object above all whose creates and raises come before it by their stamps, and a lower puts its
/// object below all.
pub fn the_last_raise_is_on_top()
    ensures raised { text (picture rank_events) ≡ rank_text }
    ensures lowered { text (picture ellipse_lowered) ≡ rank_text }
{}

/// A group is read with its members and their shifts.
pub fn a_group_is_read()
    ensures { log grouped_log ≡ Ok (header, grouped_events) }
{}

/// A lower is read in version two.
pub fn a_lower_is_read()
    ensures { log lowered_log ≡ Ok (header_two, lowered_events) }
{}

/// Grouping again, after an ungroup and a move, moves nothing.
pub fn regrouping_moves_nothing()
    ensures { text (picture regrouped_events) ≡ regrouped_text }
{}

/// What stands in a deleted group is hidden, and what stands in a dissolved one is shown in the group that holds it.
pub fn deleted_and_dissolved_groups_are_seen_through()
    ensures { text (picture nested_events) ≡ nested_text }
{}

/// A delete that comes before the create of its object by arrival alone still deletes it.
pub fn an_effect_before_its_cause_counts()
    ensures { text (picture effect_before_cause) ≡ end_alone }
{}

/// A late move is dropped by the next move of its object, and a late delete has that one redone.
pub fn a_late_event_is_dropped_or_has_others_redone()
    ensures dropped { outcome_of moves_held late_move ≡ dropped (drawn last_move) }
    ensures redone { outcome_of (moves_held ++ late_move ∷ []) late_delete
        ≡ reworked (all_drawn (last_move ∷ [])) }
    ensures first { outcome_of [] late_move ≡ applied }
    ensures steps { costs (moves_held ++ late_move ∷ late_delete ∷ []) ≡ 1 ∷ 1 ∷ 1 ∷ 0 ∷ 3 ∷ [] }
{}

/// How many were applied, dropped and reworked, and how many others were undone.
pub fn arrivals_are_counted()
    ensures none { tally [] ≡ counted 0 0 0 0 }
    ensures late { tally (moves_held ++ late_move ∷ late_delete ∷ []) ≡ counted 3 1 1 1 }
    ensures group { tally (tied_held ++ late_group ∷ []) ≡ counted (length tied_held) 0 1 2 }
    ensures ranks { tally rank_events ≡ counted 4 0 0 0 }
    ensures before_its_cause { tally effect_before_cause ≡ counted 1 1 0 0 }
{}

/// Where a move is dropped, its before-value is that of the move that drops it, which now finds the place that the
/// dropped one sets.
pub fn a_dropped_event_is_spliced_in()
    ensures { splice (at_stamp 2 2) late_move.op (at_stamp 3 1) last_move.op
        (Some (Sets (at_stamp 1 1) (ToPlace (pos 50) (pos 50))))
        ≡ (
          Some (Sets (at_stamp 1 1) (ToPlace (pos 50) (pos 50))),
          Some (Sets (at_stamp 1 1) (ToPlace (pos 90) (pos 90))),
        ) }
{}

/// An event that depends on a late one through another event alone is undone with it.
pub fn dependents_of_dependents_are_redone()
    ensures { outcome_of tied_held late_group ≡ reworked (all_drawn undone_by_the_group) }
{}

/// A raise doesn't depend on that of another object, a lower covers the raise of its object, and a delete the create.
pub fn what_others_do_costs_nothing()
    ensures ranks { costs rank_events ≡ 1 ∷ 1 ∷ 1 ∷ 1 ∷ [] }
    ensures lowered { costs ellipse_lowered ≡ 1 ∷ 1 ∷ 1 ∷ 0 ∷ [] }
    ensures before_its_cause { costs effect_before_cause ≡ 1 ∷ 0 ∷ [] }
{}

/// The first fault of a log, with its place as the number of bytes that stand from it on.
pub fn a_fault_has_its_place()
    ensures { AllByRecursion (λ r. log r.0 ≡ Err r.1) log_faults }
{}

/// Bytes that are no log are refused with the place and the reason of the first fault.
pub fn what_is_no_log_is_refused()
    ensures printed { effects_of replay [] (take 32 tie_log) [] ≡ prints_of cut_text }
    ensures end { end_of replay [] (take 32 tie_log) ≡ status.BadLog }
{}

/// Where there is no command, it is said how the program is called, whatever the input is.
pub fn what_is_no_command_is_refused()
    ensures printed { effects_of None [] tie_log [] ≡ prints_of (usage_line ∷ []) }
    ensures end { end_of None [] tie_log ≡ status.Usage }
{}

/// A rehearsal is one of so many sites. Where no more of its input can be read, the whole lines in it are answered.
pub fn a_rehearsal_is_run()
    ensures printed { effects_of (Some (Rehearse 2)) [] (codes "send 1 2\nsend 1 3") []
        ≡ prints_of (codes "mail 1\n" ∷ codes "refused: NoSite\n" ∷ []) }
    ensures end { end_of (Some (Rehearse 2)) [] (codes "send 1 2\nsend 1 3") ≡ status.Done }
    ensures cut { cut_of (Some (Rehearse 2)) [] [] (codes "send 1 2\nsend 1 3")
        ≡ prints_of (codes "mail 1\n" ∷ []) }
{}

/// A churn does the same whatever the input is.
pub fn a_churn_is_run()
    ensures printed { effects_of (Some (Churn 1 0)) [] tie_log [] ≡ prints_of nothing_printed }
    ensures end { end_of (Some (Churn 1 0)) [] tie_log ≡ status.Done }
    ensures cut { cut_of (Some (Churn 1 0)) [] [] tie_log ≡ [] }
{}

/// A frame is read from its bytes, and written as them.
pub fn a_frame_is_read_and_written()
    ensures read { frame frame_row ≡ Ok frame_value }
    ensures written { frame_bytes frame_value ≡ frame_row }
{}

/// The first fault of bytes that are no frame, with its place as the number of bytes that stand from it on: up to the
/// checksum, and where that is right.
pub fn a_fault_of_a_frame_has_its_place()
    ensures checked { AllByRecursion (λ r. frame r.0 ≡ Err r.1) checked_faults }
    ensures read { AllByRecursion (λ r. frame r.0 ≡ Err r.1) frame_faults }
{}
