//! Going on from a journal, computed on worked rows.
#![tactic(auto, unfolding(crate::proofs::Computing::computing))]

ghost use Rattle.std.specs.List.{AllByRecursion};
ghost use Rattle.std.specs.Prelude.{◌≡◌, ◌∷◌, [], codes, take};
ghost use Rattle.gd_effects.specs.Effects.{journal_after, printed};
ghost use Rattle.gd_lines.specs.declared.command.Command.TheVariants as command;
ghost use Rattle.gd_outside.specs.declared.status.Status.TheVariants.{BadLog, Done, OtherJournal};
ghost use Rattle.gd_reference.specs.NodeRun.{node_lines};
ghost use Rattle.gd_reference.specs.Rejoin.{Events, found, rejoined, rejoined_held};
ghost use Rattle.gd_run.specs.Runs.{cut_of, effects_of, end_of};
ghost use Rattle.gd_rows.specs.Worked.{header_three, prints_of, tie_events};
ghost use Rattle.gd_rows.specs.WorkedNodes.{asked, repeat_entries, repeat_journal};
ghost use Rattle.gd_rows.specs.WorkedRejoins.{again_effects, begins, closure_rejoined, cut_journals, edit_effects};
ghost use Rattle.gd_rows.specs.WorkedRejoins.{edit_input, edited_events, edited_journal, faulty_journals, held_effects};
ghost use Rattle.gd_rows.specs.WorkedRejoins.{new_effects, noting_input, noting_journal, noting_printed, notes_input};
ghost use Rattle.gd_rows.specs.WorkedRejoins.{notes_printed, other_journals, rejoins, undos_input, undos_printed};
ghost use Rattle.gd_rows.specs.WorkedRejoins.{whole_journals, worn_journal};
ghost use Rattle.gd_rows.specs.WorkedWorlds.{closure_held};

/// A log's events are found where its closing gate is there, whatever stands behind it.
pub fn a_whole_journal_is_found()
    ensures { AllByRecursion (λ r. found header_three r.0 ≡ r.1) whole_journals }
{}

/// A journal that ends too soon has a fault at its end, also where only the closing gate is missing.
pub fn a_cut_journal_is_faulty()
    ensures { AllByRecursion (λ r. found header_three r.0 ≡ r.1) cut_journals }
{}

/// A log of another session, of another site, of other sites, or in another version is another journal.
pub fn another_journal_is_found()
    ensures { AllByRecursion (λ r. found header_three r.0 ≡ r.1) other_journals }
{}

/// A fault of the log counts before its header. Among these are a check of other events, and a gate that is neither
/// open nor closed.
pub fn a_fault_is_found_first()
    ensures { AllByRecursion (λ r. found header_three r.0 ≡ r.1) faulty_journals }
{}

/// A node that goes on takes the steps of its journal's events, and holds them.
pub fn a_node_goes_on()
    ensures effects { effects_of (rejoins 7) repeat_journal (codes "status\n") [] ≡ held_effects }
    ensures end { end_of (rejoins 7) repeat_journal (codes "status\n") ≡ Done }
    ensures cut { cut_of (rejoins 7) repeat_journal [] (codes "status\nsta") ≡ held_effects }
    ensures reworked { rejoined 1 2 7 (Events closure_held) [] (asked (command.Status ∷ []))
        ≡ closure_rejoined }
{}

/// A node that begins anew writes its header over what its journal holds, and holds nothing.
pub fn a_new_node_goes_on_from_nothing()
    ensures effects { effects_of begins repeat_journal (codes "status\n") [] ≡ new_effects }
{}

/// Another journal is refused.
pub fn another_journal_is_refused()
    ensures effects { effects_of (rejoins 8) repeat_journal (codes "status\n") []
        ≡ prints_of (codes "other journal\n" ∷ []) }
    ensures end { end_of (rejoins 8) repeat_journal (codes "status\n") ≡ OtherJournal }
{}

/// A journal that lacks its closing gate is refused with that place.
pub fn a_cut_journal_is_refused()
    ensures effects { effects_of (rejoins 7) (take 44 repeat_journal) (codes "status\n") []
        ≡ prints_of (codes "bad log at 44: Short\n" ∷ []) }
    ensures end { end_of (rejoins 7) (take 44 repeat_journal) (codes "status\n") ≡ BadLog }
{}

/// What was found isn't taken again.
pub fn what_was_found_is_a_repeat()
    ensures { effects_of (rejoins 7) repeat_journal (codes "poll\n") repeat_entries
        ≡ again_effects }
{}

/// An edit is recorded over the closing gate, and sent with the own events that were found.
pub fn an_edit_goes_behind_what_was_found()
    ensures effects { effects_of (rejoins 7) worn_journal edit_input [] ≡ edit_effects }
    ensures journal { journal_after worn_journal edit_effects ≡ edited_journal }
    ensures found { found header_three edited_journal ≡ Events edited_events }
    ensures held { rejoined_held 1 2 7 (Events tie_events) [] (node_lines edit_input)
        ≡ edited_events }
{}

/// A node that goes on has made no note yet, and takes back only what it edits from then on.
pub fn notes_and_undos_begin_anew()
    ensures first { printed (effects_of begins [] noting_input []) ≡ noting_printed }
    ensures journal { journal_after [] (effects_of begins [] noting_input []) ≡ noting_journal }
    ensures notes { printed (effects_of (rejoins 7) noting_journal notes_input [])
        ≡ notes_printed }
    ensures undos { printed (effects_of (rejoins 7) noting_journal undos_input [])
        ≡ undos_printed }
{}
