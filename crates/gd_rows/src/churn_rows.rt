//! Churn, computed on worked rows.
#![tactic(auto, unfolding(crate::proofs::Computing::computing))]

ghost use Rattle.std.specs.Prelude.{◌≡◌, ◌++◌, ◌∷◌, [], Some, false, fold, map, slice_get, true};
ghost use Rattle.gd_effects.specs.Effects.{Print, Work};
ghost use Rattle.gd_reference.specs.Said.{all_said};
ghost use Rattle.gd_reference.specs.World.{start};
ghost use Rattle.gd_worlds.specs.Churn.{churn_effects, churned, ids_made, is_same, new_churning, no_counts};
ghost use Rattle.gd_worlds.specs.Churn.{rounds_to_all, stepped, summary, times, with_reply};
ghost use Rattle.gd_rows.specs.WorkedRehearsals.{empty_frame};
ghost use Rattle.gd_rows.specs.WorkedChurns.{counted_replies, counts, counts_printed, drawn_by, drawn_table};
ghost use Rattle.gd_rows.specs.WorkedChurns.{eight_lines, eight_printed, eight_works, group_lines, group_made};
ghost use Rattle.gd_rows.specs.WorkedChurns.{idle_table, lines_drawn, making, nothing_printed, numbers, one_gone};
ghost use Rattle.gd_rows.specs.WorkedChurns.{one_made, seeded, sends, sent_to, seven_printed, seven_works, three_made};
ghost use Rattle.gd_rows.specs.WorkedChurns.{words};

/// The first words of the generator of a seed.
pub fn words_are_drawn()
    ensures none { words 2 (seeded 0) ≡ 298703107 ∷ 4236525527 ∷ [] }
    ensures one { words 4 (seeded 1) ≡ 866585574 ∷ 2109535214 ∷ 3403630417 ∷ 296513984 ∷ [] }
    ensures last { words 2 (seeded 18446744073709551615) ≡ 2553256318 ∷ 1362994822 ∷ [] }
{}

/// What a step asks for, by each number. What isn't drawn is left for the next step.
pub fn a_step_is_drawn()
    ensures made { map (drawn_by three_made 5) numbers ≡ drawn_table }
    ensures idle { map (drawn_by [] 0) numbers ≡ idle_table }
    ensures sends { map sent_to (1 ∷ 0 ∷ 26 ∷ []) ≡ sends }
{}

/// The lines of some steps, by what was made before.
pub fn steps_are_drawn()
    ensures eight { lines_drawn 8 (new_churning 224141972) ≡ eight_lines }
    ensures group { lines_drawn 8 (new_churning 168112386) ≡ group_lines }
    ensures made { (times 8 stepped (new_churning 168112386)).made ≡ group_made }
{}

/// No step: all hold all at once, and one round of mail that says nothing comes, among the sites of session 1.
pub fn nothing_is_churned()
    ensures none { rounds_to_all 4 (new_churning 1) ≡ new_churning 1 }
    ensures effects { churn_effects 1 0 ≡ map Print nothing_printed }
    ensures mail { slice_get (churned 1 0).world.mail 0 ≡ Some empty_frame }
{}

/// A rect that one site raises and moves while another one deletes it. All steps come before the first line.
pub fn seven_steps()
    ensures { churn_effects 224141972 7 ≡ map Work seven_works ++ map Print seven_printed }
{}

/// And connects it to another one.
pub fn eight_steps()
    ensures { churn_effects 224141972 8 ≡ map Work eight_works ++ map Print eight_printed }
{}

/// Each answer counts for one number, and each number has its place.
pub fn answers_are_counted()
    ensures counted { fold with_reply (record no_counts { idle = 7 }) counted_replies ≡ counts }
    ensures printed { all_said (summary (start 4 1) counts) ≡ map Print counts_printed }
{}

/// What is made is what an accepted create or group made.
pub fn ids_are_kept()
    ensures { map (λ r. ids_made r.0 r.1) making ≡ map (λ r. r.2) making }
{}

/// Sites are the same where they show the same, whatever they hold.
pub fn sites_are_compared()
    ensures differ { map (λ site. is_same (one_made site)) (1 ∷ 2 ∷ 3 ∷ 4 ∷ []) ≡ false ∷ false
        ∷ false ∷ false ∷ [] }
    ensures same { is_same one_gone ≡ true }
{}
