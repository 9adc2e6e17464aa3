//! The lines of a gesture that wait for its end.

ghost use Rattle.std.specs.Prelude.{◌≡◌, ◌++◌, [], Err, OnOk, length, replicate, take};
ghost use Rattle.gd_base.specs.declared.refusal.Refusal.TheVariants.{GestureFull};
ghost use Rattle.gd_reference.specs.NodeRun.{with_asked};

use gd_base::{Edit, Refusal};
use std::alloc::{AllocError, Global};
use std::marker::Model;

/// What a line of a gesture asks for: an edit, or something that is refused.
pub(crate) type Asked = Result<Edit, Refusal>;

/// At most so many lines wait.
pub(crate) const MOST_WAITING: usize = 512;

/// The lines of a gesture, of which contracts see what each asks for.
#[derive(Drop)]
pub(crate) struct Waiting {
    asked: Vec<Asked>,
    /// How many lines more there were, which are refused.
    over: u32,
}

impl Model for Waiting {
    ghost use Rattle.std.specs.Prelude.{◌≤◌, ◌++◌, ◌<◌, ◌≡◌, Err, List, length, replicate};
    ghost use Rattle.gd_base.specs.declared.refusal.Refusal.TheVariants.{GestureFull};
    ghost use Rattle.gd_node.specs.declared.waiting.TheConstants.{MOST_WAITING};
    ghost use Rattle.gd_reference.specs.TakeBack.{Asked as AskedValue};

    ghost Value = { List AskedValue };

    ghost view = { λ w. w.asked.items ++ replicate w.over (Err GestureFull) };

    ghost invariant = { λ w. (length w.asked.items ≤ MOST_WAITING)
        × (length w.asked.items < MOST_WAITING → w.over ≡ 0) };
}

impl Waiting {
    /// No line. It takes no memory.
    pub(crate) fn new(alloc: Global) -> Waiting
        ensures { result ≡ [] }
    {
        Waiting {
            asked: Vec::new(alloc),
            over: 0,
        }
    }

    /// Puts a line last, of which it is said that the gesture is full where 512 wait. `AllocError` where memory ran
    /// out, or there are too many lines to count them.
    pub(crate) fn add(&mut self, asked: Asked) -> Result<(), AllocError>
        ensures { OnOk result (self.new ≡ with_asked self.old asked) }
    {
        if self.asked.len() < MOST_WAITING {
            self.asked.push(asked)?;
            return Ok(());
        }
        let Some(over) = self.over.checked_add(1) else {
            return Err(AllocError {});
        };
        self.over = over;
        Ok(())
    }

    /// The first 512 of them.
    pub(crate) fn first(&self) -> &[Asked]
        ensures { result.now ≡ take MOST_WAITING self.now }
    {
        self.asked.as_slice()
    }

    /// How many more there are, each of which is refused.
    pub(crate) fn over(&self) -> u32
        ensures { self.now ≡ take MOST_WAITING self.now ++ replicate result (Err GestureFull) }
    {
        self.over
    }

    /// How many there are.
    pub(crate) fn count(&self) -> u64
        ensures { result ≡ length self.now }
    {
        self.asked.len() as u64 + u64::from(self.over)
    }
}
