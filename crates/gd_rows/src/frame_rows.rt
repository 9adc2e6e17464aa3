//! Frames that are full, computed on worked rows.
#![tactic(auto, unfolding(crate::proofs::Computing::computing))]

ghost use Rattle.std.specs.List.{AllByRecursion};
ghost use Rattle.std.specs.Prelude.{◌≡◌, ◌∷◌, [], Ok, codes, length, map, true};
ghost use Rattle.gd_check.specs.Checks.{check};
ghost use Rattle.gd_grammar.specs.FrameBytes.{frame, frame_bytes};
ghost use Rattle.gd_lines.specs.declared.command.Command.TheVariants as command;
ghost use Rattle.gd_reference.specs.Fitting.{in_a_frame};
ghost use Rattle.gd_reference.specs.NodeRun.{answers};
ghost use Rattle.gd_reference.specs.Offers.{window};
ghost use Rattle.gd_rows.specs.WorkedFrames.{check_value, deleted, deleted_effects, fits, full_site, lagging_effects};
ghost use Rattle.gd_rows.specs.WorkedFrames.{lagging_entries, lagging_site, moved, moved_effects, moves_frame};
ghost use Rattle.gd_rows.specs.WorkedFrames.{moves_from, moves_row, numbers_of, wide_numbers, wide_site};
ghost use Rattle.gd_rows.specs.WorkedNodes.{asked};

/// The checksum is CRC-32C.
pub fn nine_digits_are_checked()
    ensures { check 0 (codes "123456789") ≡ check_value }
{}

/// A frame has as many of the first events as fit.
pub fn the_first_events_fit()
    ensures { AllByRecursion (λ r. length (in_a_frame r.0) ≡ r.1) fits }
{}

/// A frame with as many moves as fit is read from its bytes, and written as them.
pub fn a_full_frame_is_read_and_written()
    ensures brought { in_a_frame (moves_from 2 46) ≡ moves_frame.events }
    ensures read { frame moves_row ≡ Ok moves_frame }
    ensures written { frame_bytes moves_frame ≡ moves_row }
{}

/// An edit sends nothing to a site for which older events fill the frame, and a poll sends these. One that fits is
/// sent.
pub fn an_edit_behind_older_ones()
    ensures waits { answers full_site [] (asked (command.Edit moved ∷ command.Poll ∷ []))
        ≡ moved_effects }
    ensures goes { answers full_site [] (asked (command.Edit deleted ∷ [])) ≡ deleted_effects }
{}

/// A poll sends a window of frames to a site of which it took a frame: in turn, and then the first ones once more. A
/// site of which it took none is sent the first frame alone. Where no event is left behind that one, it is the whole
/// window.
pub fn a_window_for_a_site_that_was_heard()
    ensures tried { answers lagging_site lagging_entries (asked (command.Poll ∷ []))
        ≡ lagging_effects }
    ensures most { map numbers_of (window (wide_site 25) true 2) ≡ wide_numbers }
    ensures least { map numbers_of (window (wide_site 1) true 2) ≡ (1 ∷ []) ∷ [] }
{}
