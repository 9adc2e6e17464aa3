//! How a session that is played from a number ends: contracts of functions that do nothing.
ghost use Rattle.std.specs.Prelude.{◌≡◌, ℕ, ◌++◌, ◌∷◌, [], List, true};
ghost use Rattle.gd_effects.specs.Effects.{Effect};
ghost use Rattle.gd_lines.specs.declared.reply.Reply.TheVariants as reply;
ghost use Rattle.gd_reference.specs.Said.{says};
ghost use Rattle.gd_worlds.specs.Churn.{all_hold_all, churn_effects, churned, is_same};

/// A churn ends with every site holding every event, whatever the seed and however many steps it takes.
#[tactic(auto, using(crate::proofs::Agreement::ends_with_all))]
pub fn churns_bring_all()
    ensures { (seed steps : ℕ) → all_hold_all (churned seed steps).world ≡ true }
{}

/// A churn ends with all sites showing the same: the last line that it prints says `same yes`, whatever the seed and
/// however many steps it takes.
#[tactic(auto, using(crate::proofs::Agreement::ends_alike, crate::proofs::Agreement::said_alike))]
pub fn churns_end_alike()
    ensures same { (seed steps : ℕ) → is_same (churned seed steps).world ≡ true }
    ensures said { (seed steps : ℕ) → (front : List Effect)
        × (churn_effects seed steps ≡ front ++ says (reply.Same true) ∷ []) }
{}
