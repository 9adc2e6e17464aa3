//! One slot: a value, where it is there.
ghost use Rattle.std.specs.Prelude.{◌≡◌, not, option_and_then, option_map, Some, is_some, unwrap_or};

use crate::changes::Change;

/// Puts a value into the slot, and says whether it did. Where the slot has one, that one stays.
pub fn fill_slot<V: Drop>(slot: &mut Option<V>, new: V) -> bool
    ensures value { slot.new ≡ Some (unwrap_or slot.old new) }
    ensures filled { result ≡ not (is_some slot.old) }
{
    if slot.is_some() {
        return false;
    }
    *slot = Some(new);
    true
}

/// Changes the value in the slot, if there is one, and returns what was replaced.
pub fn change_slot<V, C: Change<V>>(slot: &mut Option<V>, change: C) -> Option<C::Old>
    ensures value { slot.new ≡ option_map (C.changed change) slot.old }
    ensures old { result ≡ option_and_then (C.replaced change) slot.old }
{
    match slot {
        Some(value) => change.change(value),
        None => None,
    }
}
