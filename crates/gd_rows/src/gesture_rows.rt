//! Gestures of several edits, and frames of several events, computed on worked rows.
#![tactic(auto, unfolding(crate::proofs::Computing::computing))]

ghost use Rattle.std.specs.List.{AllByRecursion};
ghost use Rattle.std.specs.Prelude.{◌≡◌, ◌∷◌, ◌++◌, [], Err, Ok};
ghost use Rattle.gd_base.specs.declared.refusal.Refusal.TheVariants.{GestureFull};
ghost use Rattle.gd_effects.specs.Effects.{journal_after, printed};
ghost use Rattle.gd_lines.specs.declared.command.Command.TheVariants as command;
ghost use Rattle.gd_reference.specs.NodeRun.{with_waiting};
ghost use Rattle.gd_rows.specs.WorkedBacks.{behind};
ghost use Rattle.gd_rows.specs.WorkedInputs.{handed};
ghost use Rattle.gd_rows.specs.WorkedNodes.{alone, asked, listening, repeat_entries};
ghost use Rattle.gd_rows.specs.WorkedGestures.{begun, between, full_lines, full_printed, gesture, gesture_effects};
ghost use Rattle.gd_rows.specs.WorkedGestures.{gesture_journal, kept_on_the_way, one_more, pair_effects, pair_entries};
ghost use Rattle.gd_rows.specs.WorkedGestures.{pair_journal, polled_lines, polled_printed, refused_input};
ghost use Rattle.gd_rows.specs.WorkedGestures.{refused_printed, too_many, turned_effects, turned_gesture};
ghost use Rattle.gd_rows.specs.WorkedGestures.{turned_journal, unfinished_inputs, waiting};

/// Nothing is done until the `end`. Then come the steps of all events, one record of them, a line for each line, and
/// one frame for each other site.
pub fn a_gesture_is_done_at_its_end()
    ensures effects { listening [] (gesture between) ≡ gesture_effects }
    ensures journal { journal_after [] gesture_effects ≡ gesture_journal }
{}

/// An undo takes a whole gesture back, the last event first, and a redo does it again.
pub fn a_gesture_is_taken_back_as_one()
    ensures effects { listening [] turned_gesture ≡ turned_effects }
    ensures journal { journal_after [] turned_effects ≡ turned_journal }
    ensures kept { AllByRecursion (λ r. (behind r.0).backs ≡ r.1) kept_on_the_way }
{}

/// An `end` without a `begin` is refused, and so is what is no edit within a gesture. One that never ends leaves
/// nothing.
pub fn what_is_no_edit_is_refused_in_a_gesture()
    ensures printed { printed (handed [] refused_input) ≡ refused_printed }
    ensures polled { printed (listening repeat_entries polled_lines) ≡ polled_printed }
    ensures unfinished { AllByRecursion (λ input. handed [] input ≡ begun) unfinished_inputs }
{}

/// At most 512 lines wait.
pub fn a_gesture_is_full()
    ensures last { with_waiting (waiting 511) one_more ≡ waiting 512 }
    ensures over { AllByRecursion (λ line. with_waiting (waiting 512) line ≡ waiting 512
        ++ Err GestureFull ∷ []) too_many }
    ensures blank { with_waiting (waiting 512) (Ok command.Blank) ≡ waiting 512 }
    ensures printed { printed (alone [] full_lines) ≡ full_printed }
{}

/// What a frame brings is recorded together, and then echoed.
pub fn a_frame_of_two_events()
    ensures effects { listening pair_entries (asked (command.Poll ∷ [])) ≡ pair_effects }
    ensures journal { journal_after [] pair_effects ≡ pair_journal }
{}
