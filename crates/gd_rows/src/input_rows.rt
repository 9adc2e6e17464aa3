//! The lines of an input, and the run of a node over its bytes, computed on worked rows.
#![tactic(auto, unfolding(crate::proofs::Computing::computing))]

ghost use Rattle.std.specs.Prelude.{◌≡◌, ◌++◌, ◌∷◌, [], codes, replicate, true, false};
ghost use Rattle.gd_effects.specs.Effects.{printed};
ghost use Rattle.gd_lines.specs.declared.command.Command.TheVariants as command;
ghost use Rattle.gd_outside.specs.declared.status.Status.TheVariants.{Done, LineLimit};
ghost use Rattle.gd_reference.specs.InputLines.{Over, is_long, lf, lines_of, whole_lines};
ghost use Rattle.gd_reference.specs.NodeRun.{end_after, node_lines};
ghost use Rattle.gd_rows.specs.WorkedNodes.{alone, asked, failing_entries, failing_printed, repeat_effects};
ghost use Rattle.gd_rows.specs.WorkedNodes.{repeat_entries};
ghost use Rattle.gd_rows.specs.WorkedInputs.{answered, blank, cr, handed, heard_long, heard_of, label_input};
ghost use Rattle.gd_rows.specs.WorkedInputs.{label_printed, letters, letters_quit, note_input, note_printed};
ghost use Rattle.gd_rows.specs.WorkedInputs.{quit_letters};

/// A line begins only where a byte stands, and the last one needs no LF. A CR is a byte of its line.
pub fn an_input_is_cut_into_lines()
    ensures none { lines_of [] ≡ [] }
    ensures last { lines_of (codes "show\n\nquit") ≡ codes "show" ∷ [] ∷ codes "quit" ∷ [] }
    ensures ended { lines_of (codes "show\n\nquit\n") ≡ codes "show" ∷ [] ∷ codes "quit" ∷ [] }
    ensures cr { lines_of (cr ∷ codes "\nshow" ++ cr ∷ [])
        ≡ (cr ∷ []) ∷ (codes "show" ++ cr ∷ []) ∷ [] }
{}

/// What stands behind the last LF is in no whole line.
pub fn whole_lines_end_in_lf()
    ensures none { whole_lines [] ≡ [] }
    ensures begun { whole_lines (codes "show\n\nqu") ≡ codes "show\n\n" }
    ensures no_line { whole_lines (codes "show") ≡ [] }
    ensures all { whole_lines (codes "\nshow\n") ≡ codes "\nshow\n" }
{}

/// The first line that is one too many is the last that is heard.
pub fn lines_are_counted()
    ensures none { heard_of 0 [] ≡ [] }
    ensures as_many { heard_of 3 (codes "\nshow\n\n")
        ≡ asked (command.Blank ∷ command.Show ∷ command.Blank ∷ []) }
    ensures more { heard_of 3 (codes "\nshow\n\nx\nquit")
        ≡ asked (command.Blank ∷ command.Show ∷ command.Blank ∷ []) ++ Over ∷ [] }
    ensures done { end_after (heard_of 3 (codes "\nshow\n\n")) ≡ Done }
    ensures over { end_after (heard_of 3 (codes "\nshow\n\nx\nquit")) ≡ LineLimit }
{}

/// A run says that a line is one too many, and ends. Behind `quit` no line counts.
pub fn a_run_ends_at_its_last_line()
    ensures as_many { printed (answered 3 (codes "\n\n\n")) ≡ [] }
    ensures more { printed (answered 3 (codes "\n\n\nx")) ≡ codes "line limit\n" }
    ensures answered { printed (answered 2 (codes "show\n\nquit\n"))
        ≡ codes "end 0\nline limit\n" }
    ensures over { printed (alone [] (Over ∷ asked (command.Show ∷ [])))
        ≡ codes "ready 1 of 1\nline limit\n" }
    ensures quit { printed (answered 2 (codes "\nquit\nshow\n")) ≡ [] }
    ensures end { end_after (heard_of 2 (codes "\nquit\nshow\n")) ≡ Done }
{}

/// A million lines are heard, and one more is the last.
pub fn a_million_lines()
    ensures heard { node_lines (replicate 1000000 lf) ≡ replicate 1000000 blank }
    ensures more { node_lines (replicate 1000001 lf) ≡ replicate 1000000 blank ++ Over ∷ [] }
    ensures done { end_after (node_lines (replicate 1000000 lf)) ≡ Done }
    ensures over { end_after (node_lines (replicate 1000001 lf)) ≡ LineLimit }
{}

/// A line of 65,536 bytes is heard, its CR among them, and one of a byte more is the last. Behind `quit` it is nothing.
pub fn a_long_line()
    ensures heard { node_lines (letters_quit 65536) ≡ heard_long }
    ensures over { node_lines (letters_quit 65537) ≡ Over ∷ [] }
    ensures cr { is_long (letters 65535 ++ cr ∷ []) ≡ false }
    ensures cr_over { is_long (letters 65536 ++ cr ∷ []) ≡ true }
    ensures refused { printed (handed [] (letters_quit 65536))
        ≡ codes "ready 1 of 2\nrefused: LongLine\n" }
    ensures said { printed (handed [] (letters_quit 65537))
        ≡ codes "ready 1 of 2\nline limit\n" }
    ensures quit { printed (handed [] (quit_letters 65537)) ≡ codes "ready 1 of 2\n" }
    ensures done { end_after heard_long ≡ Done }
    ensures quit_done { end_after (node_lines (quit_letters 65537)) ≡ Done }
    ensures ended { end_after (node_lines (letters_quit 65537)) ≡ LineLimit }
{}

/// A frame that comes three times is taken once, and answered once, also where a line ends in CR and LF.
pub fn a_repeated_frame()
    ensures effects { handed repeat_entries (codes "poll\nquit\n") ≡ repeat_effects }
    ensures cr { handed repeat_entries (codes "poll" ++ cr ∷ codes "\nquit") ≡ repeat_effects }
    ensures end { end_after (node_lines (codes "poll\nquit\n")) ≡ Done }
{}

/// A label of 501 bytes is refused, and one of 500 is taken.
pub fn a_long_label()
    ensures printed { printed (handed [] label_input) ≡ label_printed }
    ensures end { end_after (node_lines label_input) ≡ Done }
{}

/// A failed receive ends a poll; the next one goes on behind it.
pub fn a_link_that_fails()
    ensures printed { printed (handed failing_entries (codes "poll\npoll\nquit\n"))
        ≡ failing_printed }
    ensures end { end_after (node_lines (codes "poll\npoll\nquit\n")) ≡ Done }
{}

/// Notes are counted, and shown.
pub fn notes_are_taken()
    ensures printed { printed (handed [] note_input) ≡ note_printed }
    ensures end { end_after (node_lines note_input) ≡ Done }
{}
