//! What a search waits for under one key.

ghost use Rattle.std.specs.Prelude.{refl};
ghost use Rattle.std.specs.Ordering.{as_partial_cmp, eq_by_cmp};
ghost use Rattle.std.specs.Cmp.{eq_by_cmp_equiv, partial_equiv_from_equiv, partial_order_from_total};
ghost use Rattle.gd_history.specs.WaiterOrder.{waiter_cmp, waiter_cmp-total};

use gd_base::Stamp;
use std::cmp::Ordering;

/// A stamp that is awaited, the key that it stands under, and a guess at a member that sought the key. The earliest one
/// is the greatest, so it stands at the top of a heap.
#[derive(Clone, Copy)]
pub(crate) struct Waiter {
    pub(crate) stamp: Stamp,
    pub(crate) key: u64,
    pub(crate) guess: usize,
}

impl PartialEq for Waiter {
    ghost eq = { eq_by_cmp waiter_cmp };

    ghost laws = { partial_equiv_from_equiv (eq_by_cmp_equiv waiter_cmp-total) };

    fn eq(&self, other: &Waiter) -> bool {
        self.cmp(other).is_eq()
    }
}

impl Eq for Waiter {
    ghost laws = { eq_by_cmp_equiv waiter_cmp-total };
}

impl PartialOrd for Waiter {
    ghost partial_cmp = { as_partial_cmp waiter_cmp };

    ghost laws = { partial_order_from_total waiter_cmp-total };

    fn partial_cmp(&self, other: &Waiter) -> Option<Ordering> {
        Some(self.cmp(other))
    }
}

impl Ord for Waiter {
    ghost cmp = { waiter_cmp };

    ghost total = { waiter_cmp-total };

    ghost matches_partial_cmp = { λ w x. refl };

    ghost matches_eq = { λ w x. refl };

    #[tactic(auto, unfolding(gd_base::specs::Stamps::stamp_cmp))]
    fn cmp(&self, other: &Waiter) -> Ordering {
        other.stamp.cmp(&self.stamp)
    }
}
