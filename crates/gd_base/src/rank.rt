ghost use Rattle.std.specs.Prelude.{refl};
ghost use Rattle.std.specs.Ordering.{as_partial_cmp};
ghost use Rattle.std.specs.Cmp.{eq_by_cmp_equiv, partial_equiv_from_equiv, partial_order_from_agreeing_total};
ghost use Rattle.gd_base.specs.Ranks.{rank_cmp, is_same_rank};
ghost use Rattle.gd_base.specs.RankOrder.{rank_cmp-total};

use crate::stamp::Stamp;
use std::cmp::Ordering;

/// How high an object lies in the stack, with the stamp of the event that gave it its place: the one that made it, or
/// the last one that raised or lowered it. Every `Low` lies below every `High`. Of two `Low` the greater stamp is
/// lower, of two `High` the greater stamp is higher. Among objects of one rank the id decides.
#[derive(Clone, Copy, Debug)]
pub enum Rank {
    Low(Stamp),
    High(Stamp),
}

/// A place in the stack. Levels are ordered by rank, then by id.
#[derive(Clone, Copy, Debug, PartialEq, Eq, PartialOrd, Ord)]
pub struct Level {
    pub rank: Rank,
    pub id: Stamp,
}

impl PartialEq for Rank {
    ghost eq = { is_same_rank };

    ghost laws = { partial_equiv_from_equiv (eq_by_cmp_equiv rank_cmp-total) };

    fn eq(&self, other: &Rank) -> bool {
        self.cmp(other).is_eq()
    }
}

impl Eq for Rank {
    ghost laws = { eq_by_cmp_equiv rank_cmp-total };
}

impl PartialOrd for Rank {
    ghost partial_cmp = { as_partial_cmp rank_cmp };

    ghost laws = { partial_order_from_agreeing_total rank_cmp rank_cmp-total (λ q r. refl)
        (λ q r. refl) };

    fn partial_cmp(&self, other: &Rank) -> Option<Ordering> {
        Some(self.cmp(other))
    }
}

impl Ord for Rank {
    ghost cmp = { rank_cmp };

    ghost total = { rank_cmp-total };

    ghost matches_partial_cmp = { λ q r. refl };

    ghost matches_eq = { λ q r. refl };

    #[tactic(auto, unfolding(crate::specs::Stamps::stamp_cmp, crate::specs::Ranks::rank_cmp))]
    fn cmp(&self, other: &Rank) -> Ordering {
        match self {
            Rank::Low(stamp) => match other {
                Rank::Low(other) => other.cmp(stamp),
                Rank::High(_) => Ordering::Less,
            },
            Rank::High(stamp) => match other {
                Rank::Low(_) => Ordering::Greater,
                Rank::High(other) => stamp.cmp(other),
            },
        }
    }
}
