ghost use Rattle.std.specs.Prelude.{◌≡◌, ◌+◌, ◌<◌, ◌^◌};
ghost use Rattle.gd_arrivals.specs.Tally.{no_tally};
ghost use Rattle.gd_reference.specs.Tally.{tally_reply};
ghost use Rattle.gd_arriving.specs.Arriving.{counted, undone_in};
ghost use Rattle.gd_base.specs.declared.ranges.TheConstants.{SESSION_EVENTS};

use gd_history::Arrival;
use gd_words::Reply;
use std::marker::Model;

/// What came of events that arrived: how many of them were applied, dropped and reworked, and how many later events
/// were undone and redone for those that were reworked.
#[derive(Drop)]
pub struct Tally {
    applied: u32,
    dropped: u32,
    reworked: u32,
    undone: u64,
}

impl Model for Tally {
    ghost use Rattle.gd_arrivals.specs.Tally.{Tally};

    ghost Value = { Tally };

    ghost view = { λ t. record {
      applied = t.applied;
      dropped = t.dropped;
      reworked = t.reworked;
      undone = t.undone;
    } };
}

impl Tally {
    pub fn new() -> Tally
        ensures { result ≡ no_tally }
    {
        Tally {
            applied: 0,
            dropped: 0,
            reworked: 0,
            undone: 0,
        }
    }

    /// Counts one more event, and what was undone for it.
    pub fn count(&mut self, arrival: &Arrival)
        requires few { self.old.applied + self.old.dropped + self.old.reworked < SESSION_EVENTS }
        requires room { self.old.undone + undone_in arrival.now < 2 ^ 64 }
        ensures { self.new ≡ counted self.old arrival.now }
    {
        match arrival {
            Arrival::Applied => self.applied += 1,
            Arrival::Dropped { by: _ } => self.dropped += 1,
            Arrival::Reworked { undone } => {
                self.reworked += 1;
                self.undone += undone.len() as u64;
            }
        }
    }

    /// What is printed of it.
    pub fn reply(&self) -> Reply
        ensures { result ≡ tally_reply self.now }
    {
        Reply::Arrivals {
            applied: self.applied,
            dropped: self.dropped,
            reworked: self.reworked,
            undone: self.undone,
        }
    }
}
