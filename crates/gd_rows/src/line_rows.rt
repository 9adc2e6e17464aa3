//! The definitions of lines, computed on worked rows.
#![tactic(auto, unfolding(crate::proofs::Computing::computing))]

ghost use Rattle.std.specs.Prelude.{◌≡◌, Ok, Err, Some, None, codes};
ghost use Rattle.std.specs.List.{AllByRecursion};
ghost use Rattle.gd_lines.specs.Lines.{read};
ghost use Rattle.gd_lines.specs.ScriptLines.{read_script};
ghost use Rattle.gd_lines.specs.Replies.{reply_text, parted_line, status_line, who_line, backdated_line};
ghost use Rattle.gd_rows.specs.Worked.{at_stamp};
ghost use Rattle.gd_rows.specs.WorkedLines.{ada, echoes, nobody, read_lines, faulty_lines, script_lines};

/// A label is everything behind one space, and one CR at the end is taken off.
pub fn lines_are_read()
    ensures { AllByRecursion (λ r. read r.0 ≡ Ok r.1) read_lines }
{}

/// The faults of a line come in their order, and its words are judged from left to right.
pub fn the_first_fault_of_a_line_is_given()
    ensures { AllByRecursion (λ r. read r.0 ≡ Err r.1) faulty_lines }
{}

/// The faults of a rehearsal's line go over the whole line.
pub fn lines_of_a_rehearsal_are_read()
    ensures { AllByRecursion (λ r. read_script r.0 ≡ r.1) script_lines }
{}

/// An echo ends with the operation of its event.
pub fn echoes_are_printed()
    ensures { AllByRecursion (λ r. reply_text r.0 ≡ r.1) echoes }
{}

/// Replies are printed with their numbers, ids and names.
pub fn replies_are_printed()
    ensures status { status_line (record { held = 12; kept = 0; line = 5; clock = 5; parted = 0 })
        ≡ codes "held 12 kept 0 line 5 clock 5\n" }
    ensures parted { status_line (record { held = 12; kept = 0; line = 5; clock = 5; parted = 2 })
        ≡ codes "held 12 kept 0 line 5 clock 5 parted 2\n" }
    ensures parting { parted_line 16 65535 ≡ codes "parted from 16 at 65535\n" }
    ensures who { who_line 1 ada ≡ codes "who 1 Ada focus 1.1\n" }
    ensures nobody { who_line 2 nobody ≡ codes "who 2 - focus -\n" }
    ensures backdated { backdated_line (at_stamp 9 2) 9 9
        ≡ codes "event 9.2 refused: Backdated 9 9\n" }
{}
