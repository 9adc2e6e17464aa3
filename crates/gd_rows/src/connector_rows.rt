//! Connectors and looks, computed on worked rows.
#![tactic(auto, unfolding(crate::proofs::Computing::computing))]

ghost use Rattle.std.specs.Prelude.{◌≡◌, ◌∷◌, []};
ghost use Rattle.std.specs.List.{AllByRecursion};
ghost use Rattle.gd_model.specs.Drawing.{picture};
ghost use Rattle.gd_model.specs.Splices.{splice};
ghost use Rattle.gd_reference.specs.DrawingText.{text};
ghost use Rattle.gd_reference.specs.Judging.{judged};
ghost use Rattle.gd_rows.specs.Worked.{at_stamp};
ghost use Rattle.gd_rows.specs.WorkedConnectors.{connect_pairs, deletes, edits, groups, hidden_edits, pictures};
ghost use Rattle.gd_rows.specs.WorkedConnectors.{reconnect_pairs, restore_pairs, splices, style_pairs, then_one};
ghost use Rattle.gd_rows.specs.WorkedPairs.{bears, bears_as, drawings, outcomes, outcomes_as};

/// A connector is shown between its ends, wherever it lies, where both are shown.
pub fn connectors_are_shown()
    ensures { AllByRecursion (λ r. text (picture r.0) ≡ r.1) pictures }
{}

/// What edits of connectors and looks become, and why they are refused.
pub fn edits_of_connectors_are_judged()
    ensures shown { AllByRecursion (λ r. judged (then_one (groups 1 2)) r.0 ≡ r.1) edits }
    ensures hidden { AllByRecursion (λ r. judged (then_one (deletes 1)) r.0 ≡ r.1) hidden_edits }
{}

/// A connect beside what is done to its ends and to the connector.
pub fn a_connect_beside_others()
    ensures drawn { AllByRecursion (λ p. drawings p ≡ p.shown ∷ p.shown ∷ []) connect_pairs }
    ensures relation { AllByRecursion (λ p. bears p ≡ bears_as p.relation) connect_pairs }
    ensures outcome { AllByRecursion (λ p. outcomes p ≡ outcomes_as p.relation p.later)
        connect_pairs }
{}

/// A reconnect beside others.
pub fn a_reconnect_beside_others()
    ensures drawn { AllByRecursion (λ p. drawings p ≡ p.shown ∷ p.shown ∷ []) reconnect_pairs }
    ensures relation { AllByRecursion (λ p. bears p ≡ bears_as p.relation) reconnect_pairs }
    ensures outcome { AllByRecursion (λ p. outcomes p ≡ outcomes_as p.relation p.later)
        reconnect_pairs }
{}

/// A style of two parts beside others.
pub fn a_style_beside_others()
    ensures drawn { AllByRecursion (λ p. drawings p ≡ p.shown ∷ p.shown ∷ []) style_pairs }
    ensures relation { AllByRecursion (λ p. bears p ≡ bears_as p.relation) style_pairs }
    ensures outcome { AllByRecursion (λ p. outcomes p ≡ outcomes_as p.relation p.later)
        style_pairs }
{}

/// A restore of a connector beside others.
pub fn a_restored_connector_beside_others()
    ensures drawn { AllByRecursion (λ p. drawings p ≡ p.shown ∷ p.shown ∷ []) restore_pairs }
    ensures relation { AllByRecursion (λ p. bears p ≡ bears_as p.relation) restore_pairs }
    ensures outcome { AllByRecursion (λ p. outcomes p ≡ outcomes_as p.relation p.later)
        restore_pairs }
{}

/// What is dropped finds what the one that covers it found of its parts, and that one finds what the dropped one sets.
pub fn dropped_ends_and_looks_are_spliced_in()
    ensures { AllByRecursion
        (λ s. splice (at_stamp 6 2) s.dropped (at_stamp 7 1) s.cover s.found ≡ s.finds)
        splices }
{}
