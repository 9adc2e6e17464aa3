//! The definitions, computed on rows worked by hand.
#![tactic(auto, unfolding(crate::proofs::Computing::computing))]

ghost use Rattle.std.specs.List.{AllByRecursion};
ghost use Rattle.std.specs.Prelude.{◌≡◌, ◌∷◌, [], codes};
ghost use Rattle.gd_model.specs.Drawing.{picture};
ghost use Rattle.gd_model.specs.Shown.{items};
ghost use Rattle.gd_json.specs.PictureJson.{item_json, picture_json};
ghost use Rattle.gd_json.specs.EventsJson.{event_json, events_json};
ghost use Rattle.gd_json.specs.Worked.{tie_events, tie_picture_json, tie_events_json, items_of_json, events_of_json};

/// A log without events is an empty array, as a drawing and as events.
pub fn nothing_is_an_empty_array()
    ensures picture { picture_json (items (picture [])) ≡ codes "[]\n" }
    ensures events { events_json [] ≡ codes "[]\n" }
{}

/// A drawing goes from bottom to top, and its events in the order of the log.
pub fn a_tie_of_clocks_as_json()
    ensures picture { picture_json (items (picture tie_events)) ≡ tie_picture_json }
    ensures events { events_json tie_events ≡ tie_events_json }
{}

/// Shapes and a group, in a group and in none. No fill is null, and a label has quotes and backslashes marked.
pub fn items_as_json()
    ensures { AllByRecursion (λ r. item_json r.0 ≡ r.1) items_of_json }
{}

/// Each operation has its own keys.
pub fn operations_as_json()
    ensures { AllByRecursion (λ r. event_json r.0 ≡ r.1) events_of_json }
{}
