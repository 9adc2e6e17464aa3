//! The slow run of a node, computed on worked rows.
#![tactic(auto, unfolding(crate::proofs::Computing::computing))]

ghost use Rattle.std.specs.Prelude.{◌≡◌, ◌∷◌, [], length, pos, replicate};
ghost use Rattle.gd_lines.specs.declared.command.Command.TheVariants as command;
ghost use Rattle.gd_effects.specs.Effects.{journal_after, printed, tried};
ghost use Rattle.gd_reference.specs.NodeRun.{node_effects};
ghost use Rattle.gd_rows.specs.WorkedWorlds.{new_rect};
ghost use Rattle.gd_rows.specs.WorkedNodes.{alone, asked, created_effects, full_entries, full_printed, long_entries};
ghost use Rattle.gd_rows.specs.WorkedNodes.{long_printed, ahead_entries, ahead_printed, failing_entries};
ghost use Rattle.gd_rows.specs.WorkedNodes.{failing_printed, listening, noting_lines, noting_printed, refused_entries};
ghost use Rattle.gd_rows.specs.WorkedNodes.{refused_printed, repeat_effects, repeat_entries, repeat_journal};
ghost use Rattle.gd_rows.specs.WorkedNodes.{sure_entries, sure_printed, turned_effects, turned_journal, turned_lines};

/// A frame that comes three times is taken once, and answered once.
pub fn a_repeated_frame()
    ensures effects { listening repeat_entries (asked (command.Poll ∷ [])) ≡ repeat_effects }
    ensures journal { journal_after [] (listening repeat_entries (asked (command.Poll ∷ [])))
        ≡ repeat_journal }
{}

/// What runs ahead is taken once what was missing is there.
pub fn a_run_ahead()
    ensures { printed (listening ahead_entries (asked (command.Poll ∷ command.Status ∷ [])))
        ≡ ahead_printed }
{}

/// An event at the sure clock is printed as refused.
pub fn an_event_at_the_sure_clock()
    ensures { printed (listening sure_entries (asked (command.Poll ∷ command.Status ∷ [])))
        ≡ sure_printed }
{}

/// A failed receive ends a poll; the next one goes on behind it.
pub fn a_link_that_fails()
    ensures printed { printed (listening failing_entries (asked (command.Poll ∷ command.Poll ∷ [])))
        ≡ failing_printed }
    ensures tried { length (tried (listening failing_entries (asked (command.Poll ∷ command.Poll
        ∷ [])))) ≡ 2 }
{}

/// What isn't a frame, or isn't taken, is printed with its cause.
pub fn frames_that_are_refused()
    ensures { printed (listening refused_entries (asked (command.Poll ∷ command.Show ∷ [])))
        ≡ refused_printed }
{}

/// Notes, faulty lines, edits, and the end.
pub fn lines_are_answered()
    ensures { printed (listening [] noting_lines) ≡ noting_printed }
{}

/// An edit's step comes first, then its record, its line, and a frame for each other site by rising number.
pub fn an_own_event()
    ensures { node_effects 2 3 7 [] (asked (command.Edit (new_rect (pos 0)) ∷ []))
        ≡ created_effects }
{}

/// So it is with an undo and a redo, where they are accepted. Refused ones are printed.
pub fn an_undo_and_a_redo()
    ensures effects { node_effects 2 3 7 [] turned_lines ≡ turned_effects }
    ensures journal { journal_after [] turned_effects ≡ turned_journal }
{}

/// A poll takes 256 datagrams at most, and ends behind a pause, which is no datagram.
pub fn a_poll_comes_to_its_end()
    ensures { printed (alone full_entries (asked (replicate 4 command.Poll))) ≡ full_printed }
{}

/// A datagram of 8,192 bytes is read, and one of a byte more is not.
pub fn a_long_datagram()
    ensures { printed (alone long_entries (asked (command.Poll ∷ []))) ≡ long_printed }
{}
