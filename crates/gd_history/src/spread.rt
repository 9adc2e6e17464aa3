//! Pairs of a key and a stamp in many small sets, so that a look-up goes down a shallow tree.

ghost use Rattle.std.specs.Prelude.{◌≡◌, ◌≢◌, ◌<◌, ◌≤◌, ℕ, min, [], length, replicate, IsTrue, IfSome, IfOk, OnOk};
ghost use Rattle.gd_base.specs.Stamps.{Stamp as StampValue, is_before};
ghost use Rattle.gd_chunks.specs.Rows.{joined};
ghost use Rattle.gd_history.specs.Indexes.{Has, IsNext, IsClear};
ghost use Rattle.gd_history.specs.Spreading.{set_of, block_end, IsSpread};

use crate::sorted::Sorted;
use gd_base::Stamp;
use std::alloc::{AllocError, Global};
use std::marker::Model;

/// How many sets there are: a prime, so that blocks that rise by any step but a multiple of it come to all of
/// them.
pub(crate) const SETS: usize = 251;

/// How many keys in a row have their pairs in one set: a document gives the parts of one object keys of one block.
pub(crate) const BLOCK: u64 = 32;

/// Pairs of a key and the stamp of an event that has it, each in the set of its key. The sets are made with the first
/// pair.
#[derive(Drop)]
pub(crate) struct Spread {
    alloc: Global,
    sets: Vec<Sorted>,
}

impl Model for Spread {
    ghost use Rattle.std.specs.Prelude.{◌≡◌, ◌<◌, ℕ, List, length};
    ghost use Rattle.gd_base.specs.Stamps.{Stamp as StampValue};
    ghost use Rattle.gd_chunks.specs.Rows.{joined};
    ghost use Rattle.gd_history.specs.Spreading.{IsSpread};
    ghost use Rattle.gd_history.specs.declared.spread.TheConstants.{SETS};

    ghost Value = { List (ℕ × StampValue) };

    ghost view = { λ i. joined i.sets.items };

    ghost invariant = { λ i. IsSpread i.sets.items
        × (0 < length i.sets.items → length i.sets.items ≡ SETS) };
}

impl Spread {
    /// No pairs. It takes no memory.
    pub(crate) fn new(alloc: Global) -> Spread
        ensures { result ≡ [] }
    {
        Spread {
            alloc,
            sets: Vec::new(alloc),
        }
    }

    /// Puts the stamp under the key. What stands there stays in any case.
    pub(crate) fn put(&mut self, key: u64, stamp: Stamp) -> Result<(), AllocError>
        ensures put { OnOk result (Has self.new key stamp) }
        ensures kept { (k : ℕ) (s : StampValue) → Has self.old k s → Has self.new k s }
    {
        open(&mut self.sets, self.alloc)?;
        self.sets[set_of(key)].put(key, stamp)
    }

    /// Takes the pairs away whose clocks are at most the line. The others stay. Returns how many are left.
    pub(crate) fn shed(&mut self, line: u64) -> usize
        ensures { (k : ℕ) (s : StampValue) → line < s.clock → Has self.old k s → Has self.new k s }
    {
        let mut left: usize = 0;
        for at in 0..self.sets.len() {
            left = left.saturating_add(shed_set(&mut self.sets, at, line));
        }
        left
    }

    /// The first stamp behind the floor that stands under the key, and a bound: none behind the floor stands under a
    /// key between this one and the bound, which is none behind the key's block.
    pub(crate) fn probe(&self, key: u64, floor: Stamp) -> (Option<Stamp>, u64)
        ensures behind { IfSome result.0 (λ t. IsTrue (is_before floor t)) }
        ensures first { IsNext self.now floor result.0 key }
        ensures clear { IsClear self.now floor key result.1 }
    {
        if self.sets.is_empty() {
            return (None, u64::MAX);
        }
        let (found, bound) = self.sets[set_of(key)].probe(key, floor);
        (found, bound.min(block_end(key)))
    }
}

/// The number of the set that the pairs of the key stand in.
#[tactic(auto, unfolding(crate::specs::Spreading::set_of))]
fn set_of(key: u64) -> usize
    ensures value { result ≡ set_of key }
    ensures below { result < SETS }
{
    (key / BLOCK % SETS as u64) as usize
}

/// The last key of the key's block.
#[tactic(auto, unfolding(crate::specs::Spreading::block_end))]
fn block_end(key: u64) -> u64
    ensures { result ≡ block_end key }
{
    key / BLOCK * BLOCK + (BLOCK - 1)
}

/// Takes the pairs of a set away whose clocks are at most the line. Returns how many are left of it.
fn shed_set(sets: &mut Vec<Sorted>, at: usize, line: u64) -> usize
    requires { at < length sets.old.items }
    ensures kept { (k : ℕ) (s : StampValue) → line < s.clock
        → Has (joined sets.old.items) k s → Has (joined sets.new.items) k s }
    ensures len { length sets.new.items ≡ length sets.old.items }
    ensures spread { IsSpread sets.old.items → IsSpread sets.new.items }
{
    sets[at].shed(line);
    sets[at].len()
}

/// Makes the sets where there are none yet. `AllocError` where memory ran out, and there are none.
fn open(sets: &mut Vec<Sorted>, alloc: Global) -> Result<(), AllocError>
    requires { 0 < length sets.old.items → length sets.old.items ≡ SETS }
    ensures made { OnOk result (length sets.new.items ≡ SETS) }
    ensures whole { 0 < length sets.new.items → length sets.new.items ≡ SETS }
    ensures same { joined sets.new.items ≡ joined sets.old.items }
    ensures spread { IsSpread sets.old.items → IsSpread sets.new.items }
{
    if sets.is_empty() {
        *sets = no_pairs(alloc)?;
    }
    Ok(())
}

/// The sets without pairs.
fn no_pairs(alloc: Global) -> Result<Vec<Sorted>, AllocError>
    ensures { IfOk result (λ sets. sets.items ≡ replicate SETS []) }
{
    let mut sets = Vec::with_capacity(alloc, SETS)?;
    for _at in 0..SETS {
        sets.push(Sorted::new(alloc))?;
    }
    Ok(sets)
}
