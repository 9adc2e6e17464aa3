//! What holds of slots: contracts of functions that do nothing.
ghost use Rattle.std.specs.Prelude.{◌≡◌, ℕ, Some};
ghost use Rattle.std.specs.FinMap as map_of;
ghost use Rattle.std.specs.List.{IsDistinct};
ghost use Rattle.gd_base.specs.Stamps.{Stamp, is_same};
ghost use Rattle.gd_slots.specs.Slots.{Slots, OneSlot, board_of, ids, value_at};

/// Each value of the board is the value of exactly one slot, and no slot has another.
pub fn each_value_has_one_slot<V: Drop>()
    ensures one { (es : Slots V) → IsDistinct is_same (ids es) → (id : Stamp) (v : V)
        → map_of.get (board_of es) id ≡ Some v → OneSlot es id v }
    ensures held { (es : Slots V) → IsDistinct is_same (ids es) → (k : ℕ) (id : Stamp) (v : V)
        → value_at es k ≡ Some (id, v) → map_of.get (board_of es) id ≡ Some v }
{}
