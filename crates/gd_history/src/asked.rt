//! The keys that a search has asked for so far.

ghost use Rattle.std.specs.Prelude.{◌≡◌, ◌≢◌, ◌<◌, ℕ, [], IsTrue, IfOk, OnOk};
ghost use Rattle.std.specs.Bool.{OnFalse};
ghost use Rattle.gd_history.specs.Waits.{is_asked};

use std::alloc::{AllocError, Global};
use std::collections::HashSet;
use std::marker::Model;

/// How many of the keys are at hand: a prime, so that like parts of many objects have different places.
const NEAR: usize = 251;

/// Keys, found by their hashes: each is asked for many times, and in no order. Those that were asked for last are
/// mostly found at a glance.
#[derive(Drop)]
pub(crate) struct Asked {
    keys: HashSet<u64>,
    /// Keys but 0, each in the place that it has; 0 stands for none.
    near: [u64; NEAR],
}

impl Model for Asked {
    ghost use Rattle.std.specs.Prelude.{ℕ, List};
    ghost use Rattle.gd_history.specs.Waits.{AreAsked};

    ghost Value = { List ℕ };

    ghost view = { λ a. a.keys.keys };

    ghost invariant = { λ a. AreAsked a.keys.keys a.near };
}

impl Asked {
    /// No keys. It takes no memory.
    pub(crate) fn new(alloc: Global) -> Asked
        ensures { result ≡ [] }
    {
        Asked {
            keys: HashSet::new(alloc),
            near: [0; NEAR],
        }
    }

    /// Puts the key among them, and returns whether it is new.
    pub(crate) fn put(&mut self, key: u64) -> Result<bool, AllocError>
        ensures put { OnOk result (IsTrue (is_asked self.new key)) }
        ensures kept { OnOk result ((k : ℕ)
            → IsTrue (is_asked self.old k) → IsTrue (is_asked self.new k)) }
        ensures others { OnOk result ((k : ℕ)
            → k ≢ key → IsTrue (is_asked self.new k) → IsTrue (is_asked self.old k)) }
        ensures known { IfOk result (λ is_new. OnFalse is_new (IsTrue (is_asked self.old key))) }
        ensures unchanged { IfOk result (λ is_new. OnFalse is_new (self.new ≡ self.old)) }
    {
        let place = place_of(key);
        if key != 0 && self.near[place] == key {
            return Ok(false);
        }
        let is_new = self.keys.insert(key)?;
        self.near[place] = key;
        Ok(is_new)
    }
}

/// The place of a key among those at hand.
fn place_of(key: u64) -> usize
    ensures { result < NEAR }
{
    (key % NEAR as u64) as usize
}
