//! Checks behind events, and sites that part, computed on worked rows.
#![tactic(auto, unfolding(crate::proofs::Computing::computing))]

ghost use Rattle.std.specs.List.{AllByRecursion};
ghost use Rattle.std.specs.Prelude.{◌≡◌, ◌∷◌, [], Err, Ok, Some, None, codes, set};
ghost use Rattle.gd_grammar.specs.Chains.{chain, check_with};
ghost use Rattle.gd_grammar.specs.Drawings.{drawings, log, logged};
ghost use Rattle.gd_grammar.specs.FrameBytes.{frame, frame_bytes};
ghost use Rattle.gd_effects.specs.Effects.{printed};
ghost use Rattle.gd_lines.specs.declared.command.Command.TheVariants as command;
ghost use Rattle.gd_outside.specs.declared.status.Status.TheVariants.{BadLog, Done};
ghost use Rattle.gd_reference.specs.Offers.{verdict};
ghost use Rattle.gd_reference.specs.SlowSite.{held_check};
ghost use Rattle.gd_run.specs.Runs.{effects_of, end_of};
ghost use Rattle.gd_rows.specs.Worked.{header_three, header_two, prints_of, record_event, replay};
ghost use Rattle.gd_rows.specs.WorkedChecks.{changed_journal, crossed_events, crossed_faults, crossed_in_two};
ghost use Rattle.gd_rows.specs.WorkedChecks.{crossed_journal, flipped_journal, later_verdicts, other_check};
ghost use Rattle.gd_rows.specs.WorkedChecks.{parted_site, parting_entries, parting_frame, parting_printed, parting_row};
ghost use Rattle.gd_rows.specs.WorkedChecks.{replay_upto, three_held, turned_round_events, turned_round_journal, upto};
ghost use Rattle.gd_rows.specs.WorkedChecks.{verdicts};
ghost use Rattle.gd_rows.specs.WorkedNodes.{asked, listening, repeat_journal};
ghost use Rattle.gd_rows.specs.WorkedRejoins.{rejoins, tie_journal};
ghost use Rattle.gd_rows.specs.WorkedWorlds.{ahead_move, check_one, check_two};

/// The check of a site's events goes on from event to event.
pub fn checks_follow_one_another()
    ensures none { chain drawings [] ≡ 0 }
    ensures first { check_with drawings [] record_event ≡ check_one }
    ensures second { check_with drawings (record_event ∷ []) (ahead_move 2) ≡ check_two }
    ensures both { chain drawings (record_event ∷ ahead_move 2 ∷ []) ≡ check_two }
{}

/// In a journal each site's checks go on by themselves, however its events lie among those of others.
pub fn each_site_has_its_checks()
    ensures read { log crossed_journal ≡ Ok (header_three, crossed_events) }
    ensures written { logged header_three crossed_events ≡ crossed_journal }
    ensures turned_round { log turned_round_journal ≡ Ok (header_three, turned_round_events) }
    ensures unchecked { log crossed_in_two ≡ Ok (header_two, record_event ∷ []) }
{}

/// What was changed has its place: the check of the first event that isn't as it was, or a gate that is neither open
/// nor closed.
pub fn a_changed_journal_is_found()
    ensures { AllByRecursion (λ r. log r.0 ≡ Err r.1) crossed_faults }
{}

/// A node doesn't go on from such a journal, and says the place.
pub fn a_changed_journal_is_refused()
    ensures check { effects_of (rejoins 7) (set repeat_journal 40 195) (codes "status\n") []
        ≡ prints_of (codes "bad log at 40: Check\n" ∷ []) }
    ensures gate { effects_of (rejoins 7) (set repeat_journal 44 1) (codes "status\n") []
        ≡ prints_of (codes "bad log at 44: Behind\n" ∷ []) }
    ensures end { end_of (rejoins 7) (set repeat_journal 40 195) (codes "status\n") ≡ BadLog }
{}

/// What stands before a fault is shown where that is asked for, and then the fault is said.
pub fn a_replay_goes_up_to_a_fault()
    ensures check { effects_of replay_upto [] changed_journal []
        ≡ upto (codes "bad log at 73: Check\n") }
    ensures gate { effects_of replay_upto [] flipped_journal []
        ≡ upto (codes "bad log at 44: Behind\n") }
    ensures header { effects_of replay_upto [] [] []
        ≡ prints_of (codes "end 0\n" ∷ codes "bad log at 0: Short\n" ∷ []) }
    ensures end { end_of replay_upto [] changed_journal ≡ BadLog }
    ensures unasked { effects_of replay [] changed_journal []
        ≡ prints_of (codes "bad log at 73: Check\n" ∷ []) }
    ensures whole { effects_of replay_upto [] tie_journal []
        ≡ effects_of replay [] tie_journal [] }
    ensures done { end_of replay_upto [] tie_journal ≡ Done }
{}

/// A frame that counts as many events as are held, with another check, shows a parting, and no other frame does.
pub fn a_frame_shows_a_parting()
    ensures read { frame parting_row ≡ Ok parting_frame }
    ensures written { frame_bytes parting_frame ≡ parting_row }
    ensures first { AllByRecursion (λ r. verdict three_held r.0 ≡ r.1) verdicts }
    ensures later { AllByRecursion (λ r. verdict parted_site r.0 ≡ r.1) later_verdicts }
    ensures held { parted_site.held ≡ three_held.held }
    ensures check { held_check parted_site 2 ≡ held_check three_held 2 }
    ensures noted { parted_site.parted 2 ≡ Some 3 }
    ensures others { parted_site.parted 1 ≡ None }
{}

/// A node says once that it has parted from another one, and then what it holds.
pub fn a_node_says_that_it_has_parted()
    ensures { printed (listening parting_entries (asked (command.Poll ∷ command.Status ∷ command.Who
        ∷ command.Show ∷ []))) ≡ parting_printed }
{}
