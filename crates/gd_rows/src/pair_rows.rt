//! What undos and redos do beside what another site does at once, computed on worked rows.
#![tactic(auto, unfolding(crate::proofs::Computing::computing))]

ghost use Rattle.std.specs.Prelude.{◌≡◌, ◌∷◌, []};
ghost use Rattle.std.specs.List.{AllByRecursion};
ghost use Rattle.gd_rows.specs.WorkedPairs.{bears, bears_as, disband_pairs, drawings, outcomes, outcomes_as};
ghost use Rattle.gd_rows.specs.WorkedPairs.{regroup_pairs, reopen_pairs, rerank_pairs, restore_pairs};

/// A restore beside a delete, a raise and a group of what it puts back.
pub fn a_restore_beside_others()
    ensures drawn { AllByRecursion (λ p. drawings p ≡ p.shown ∷ p.shown ∷ []) restore_pairs }
    ensures relation { AllByRecursion (λ p. bears p ≡ bears_as p.relation) restore_pairs }
    ensures outcome { AllByRecursion (λ p. outcomes p ≡ outcomes_as p.relation p.later)
        restore_pairs }
{}

/// A restore of a group, which ties its members again, beside those of the group and of a member.
pub fn a_restore_with_ties_beside_others()
    ensures drawn { AllByRecursion (λ p. drawings p ≡ p.shown ∷ p.shown ∷ []) regroup_pairs }
    ensures relation { AllByRecursion (λ p. bears p ≡ bears_as p.relation) regroup_pairs }
    ensures outcome { AllByRecursion (λ p. outcomes p ≡ outcomes_as p.relation p.later)
        regroup_pairs }
{}

/// A disband beside those of the group and of a member.
pub fn a_disband_beside_others()
    ensures drawn { AllByRecursion (λ p. drawings p ≡ p.shown ∷ p.shown ∷ []) disband_pairs }
    ensures relation { AllByRecursion (λ p. bears p ≡ bears_as p.relation) disband_pairs }
    ensures outcome { AllByRecursion (λ p. outcomes p ≡ outcomes_as p.relation p.later)
        disband_pairs }
{}

/// A rerank beside those of its object.
pub fn a_rerank_beside_others()
    ensures drawn { AllByRecursion (λ p. drawings p ≡ p.shown ∷ p.shown ∷ []) rerank_pairs }
    ensures relation { AllByRecursion (λ p. bears p ≡ bears_as p.relation) rerank_pairs }
    ensures outcome { AllByRecursion (λ p. outcomes p ≡ outcomes_as p.relation p.later)
        rerank_pairs }
{}

/// A reopen beside those of its group.
pub fn a_reopen_beside_others()
    ensures drawn { AllByRecursion (λ p. drawings p ≡ p.shown ∷ p.shown ∷ []) reopen_pairs }
    ensures relation { AllByRecursion (λ p. bears p ≡ bears_as p.relation) reopen_pairs }
    ensures outcome { AllByRecursion (λ p. outcomes p ≡ outcomes_as p.relation p.later)
        reopen_pairs }
{}
