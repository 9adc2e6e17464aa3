//! What takes gestures back, or does them again.
ghost use Rattle.std.specs.Prelude.{◌≡◌, ◌≤◌, ◌-◌, ◌∷◌, [], drop, OnOk, MatchOption};
ghost use Rattle.std.specs.VecDeque.{deque_len, deque_capacity};
ghost use Rattle.gd_reference.specs.Backs.{kept};
ghost use Rattle.gd_takeback.specs.Seen.{newest_first, count_of};

use gd_base::MOST_BACKS;
use gd_events::Op;
use std::alloc::{AllocError, Global};
use std::collections::VecDeque;
use std::marker::Model;

/// What takes gestures back, the newest first, at most 1,024, each in the memory that it needs. Contracts see it, and
/// beside it for how many more there is room.
#[derive(Drop)]
pub(crate) struct BackList {
    /// The newest last, and of each gesture what takes its last event back last.
    gestures: VecDeque<Vec<Op>>,
}

impl Model for BackList {
    ghost use Rattle.std.specs.Prelude.{◌≤◌, ◌-◌, length, map, reverse};
    ghost use Rattle.std.specs.VecDeque.{deque_len, deque_capacity};
    ghost use Rattle.gd_base.specs.declared.ranges.TheConstants.{MOST_BACKS};
    ghost use Rattle.gd_takeback.specs.Lists.{BackListValue};
    ghost use Rattle.gd_takeback.specs.Seen.{newest_first};

    ghost Value = { BackListValue };

    ghost view = { λ l. record {
      gestures = reverse (map newest_first l.gestures.items);
      spare = deque_capacity l.gestures - deque_len l.gestures;
    } };

    ghost invariant = { λ l. length l.gestures.items ≤ MOST_BACKS };
}

impl BackList {
    /// Nothing. It takes no memory.
    pub(crate) fn new(alloc: Global) -> BackList
        ensures { result.gestures ≡ [] }
    {
        BackList {
            gestures: VecDeque::new(alloc),
        }
    }

    /// Makes room for one more. `AllocError` where memory ran out. What is there stays in any case.
    pub(crate) fn reserve(&mut self) -> Result<(), AllocError>
        ensures gestures { self.new.gestures ≡ self.old.gestures }
        ensures room { OnOk result (1 ≤ self.new.spare) }
    {
        self.gestures.reserve(1)
    }

    /// Keeps one more, where there is room for it, as there is after a `reserve`. Where there are 1,024 the oldest
    /// goes. It takes no memory.
    pub(crate) fn keep(&mut self, back: Vec<Op>)
        requires { 1 ≤ self.old.spare }
        ensures { self.new.gestures ≡ kept (newest_first back) self.old.gestures }
    {
        if self.gestures.len() == MOST_BACKS {
            drop_oldest(&mut self.gestures);
        }
        self.gestures.push_back_reserved(back);
    }

    /// Of how many operations the newest is, where there is one.
    pub(crate) fn newest_count(&self) -> Option<usize>
        ensures { result ≡ count_of self.now.gestures }
    {
        Some(self.gestures.back()?.len())
    }

    /// Takes the newest out, where there is one.
    pub(crate) fn take_newest(&mut self) -> Option<Vec<Op>>
        ensures { MatchOption result (self.old.gestures ≡ [])
            (λ back. self.old.gestures ≡ newest_first back ∷ self.new.gestures) }
    {
        self.gestures.pop_back()
    }

    /// Drops them all.
    pub(crate) fn clear(&mut self)
        ensures { self.new.gestures ≡ [] }
    {
        self.gestures.clear();
    }
}

/// Drops the oldest, where there is one.
fn drop_oldest(gestures: &mut VecDeque<Vec<Op>>)
    ensures items { gestures.new.items ≡ drop 1 gestures.old.items }
    ensures len { deque_len gestures.new ≡ deque_len gestures.old - 1 }
    ensures capacity { deque_capacity gestures.new ≡ deque_capacity gestures.old }
{
    gestures.pop_front();
}
