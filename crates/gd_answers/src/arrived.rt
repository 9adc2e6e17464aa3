//! What came of the events of a frame.

ghost use Rattle.std.specs.Prelude.{◌≡◌, option_map, IfOk};
ghost use Rattle.gd_answers.specs.Arriving.{IsShort, arrived_of, arrived_reply, is_taken};

use gd_base::{FrameFault, Stamp};
use gd_events::{Event, Operation};
use gd_history::Arrival;
use gd_site::Taken;
use gd_words::Reply;
use std::alloc::{AllocError, Global};

/// What came of an event of another site.
#[derive(Clone, Copy, Debug, Default, PartialEq, Eq)]
pub enum Arrived {
    /// It was a repeat, or behind a gap: nothing.
    #[default]
    Passed,
    Applied,
    /// It is held without effect, since the event with this stamp covers it.
    Dropped { by: Stamp },
    /// So many later events were undone for it, and redone.
    Reworked { count: u32 },
    /// It wasn't taken, since its clock isn't above the sure clock of its site.
    Backdated { clock: u64, sure: u64 },
}

/// What came of the events of one frame, in their order.
pub type Heard = Vec<Arrived>;

/// What came of a frame.
#[derive(Drop)]
pub enum Came {
    /// It isn't for the site, or says what can't be: nothing.
    Refused { fault: FrameFault },
    /// The site has parted from its sender: they hold different events of the sender, of which each has so many.
    Parted { count: u16 },
    /// Nothing, since they have parted before.
    Passed,
    /// It was taken.
    Taken { heard: Heard },
}

impl Arrived {
    /// Whether the event is held since then.
    pub fn is_taken(self) -> bool
        ensures { result ≡ is_taken self }
    {
        match self {
            Arrived::Applied | Arrived::Dropped { .. } | Arrived::Reworked { .. } => true,
            Arrived::Passed | Arrived::Backdated { .. } => false,
        }
    }

    /// What is said of it, if anything is. `AllocError` where memory ran out.
    pub fn reply(self, alloc: Global, event: &Event) -> Result<Option<Reply>, AllocError>
        ensures { IfOk result (λ reply. reply ≡ arrived_reply event.now self) }
    {
        let id = event.stamp();
        Ok(match self {
            Arrived::Passed => None,
            Arrived::Applied => {
                let op = event.op().copy(alloc)?;
                Some(Reply::Applied { id, op })
            }
            Arrived::Dropped { by } => {
                let op = event.op().copy(alloc)?;
                Some(Reply::Dropped { id, by, op })
            }
            Arrived::Reworked { count } => {
                let op = event.op().copy(alloc)?;
                Some(Reply::Reworked { id, count, op })
            }
            Arrived::Backdated { clock, sure } => Some(Reply::Backdated { id, clock, sure }),
        })
    }

    /// The same of what a site, or a viewer, says of an event that it was given.
    pub fn of(taken: &Taken) -> Arrived
        requires { IsShort taken.now }
        ensures { result ≡ arrived_of taken.now }
    {
        match taken {
            Taken::Arrival(Arrival::Applied) => Arrived::Applied,
            Taken::Arrival(Arrival::Dropped { by }) => Arrived::Dropped { by: *by },
            Taken::Arrival(Arrival::Reworked { undone }) => Arrived::Reworked {
                count: undone.len() as u32,
            },
            Taken::Repeat | Taken::Gap => Arrived::Passed,
            Taken::Backdated { clock, sure } => Arrived::Backdated {
                clock: *clock,
                sure: *sure,
            },
        }
    }
}
