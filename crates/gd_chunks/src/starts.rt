//! How many elements stand in front of each row. One more in front of each later row touches few of these numbers.

ghost use Rattle.std.specs.Prelude.{◌≡◌, ℕ, ◌+◌, ◌^◌, ◌<◌, ◌≤◌, [], ◌∷◌, ◌++◌, length, take, slice_index, OnOk};
ghost use Rattle.gd_chunks.specs.Rows.{raised};
ghost use Rattle.gd_chunks.specs.Summed.{AreRaised};

use std::alloc::{AllocError, Global};
use std::marker::Model;

/// How many numbers stand in a block.
pub(crate) const BLOCK: usize = 64;

/// Numbers that don't fall, each the sum of what its block of `BLOCK` counts and of an offset of its own. So those from
/// a place on are raised by as many additions as a block has numbers, and one for each later block.
#[derive(Drop)]
pub(crate) struct Starts {
    blocks: Vec<usize>,
    offsets: Vec<usize>,
}

impl Model for Starts {
    ghost use Rattle.std.specs.Prelude.{◌*◌, ◌-◌, min, vec_len, vec_capacity};
    ghost use Rattle.gd_chunks.specs.Summed.{StartsValue, AreSummed, summed};
    ghost use Rattle.gd_chunks.specs.declared.starts.TheConstants.{BLOCK};

    ghost Value = { StartsValue };

    ghost view = { λ s. record {
      items = summed s.blocks.items s.offsets.items;
      room = min (vec_capacity s.offsets) (BLOCK * vec_capacity s.blocks) - vec_len s.offsets;
    } };

    ghost invariant = { λ s. AreSummed s.blocks.items s.offsets.items };
}

impl Starts {
    /// No numbers. It takes no memory.
    pub(crate) fn new(alloc: Global) -> Starts
        ensures { result.items ≡ [] }
    {
        Starts {
            blocks: Vec::new(alloc),
            offsets: Vec::new(alloc),
        }
    }

    /// How many numbers there are.
    pub(crate) fn len(&self) -> usize
        ensures { result ≡ length self.now.items }
    {
        self.offsets.len()
    }

    /// The number at the index.
    pub(crate) fn get(&self, index: usize) -> usize
        requires { index < length self.now.items }
        ensures { result ≡ slice_index self.now.items index }
    {
        self.blocks[index / BLOCK] + self.offsets[index]
    }

    /// Makes room for one more. `AllocError` where memory ran out; the numbers stay in any case.
    pub(crate) fn reserve(&mut self) -> Result<(), AllocError>
        ensures items { self.new.items ≡ self.old.items }
        ensures ok { OnOk result (0 < self.new.room) }
    {
        self.offsets.reserve(1)?;
        self.blocks.reserve(1)?;
        Ok(())
    }

    /// Puts a number at the end, where there is room. It may not be below any of the others.
    pub(crate) fn push_reserved(&mut self, number: usize)
        requires room { 0 < self.old.room }
        requires rising { (k : ℕ)
            → k < length self.old.items → slice_index self.old.items k ≤ number }
        ensures items { self.new.items ≡ self.old.items ++ number ∷ [] }
        ensures room { self.new.room + 1 ≡ self.old.room }
    {
        let block = self.offsets.len() / BLOCK;
        if block == self.blocks.len() {
            self.blocks.push_reserved(number);
            self.offsets.push_reserved(0);
            return;
        }
        let offset = number - self.blocks[block];
        self.offsets.push_reserved(offset);
    }

    /// Raises the numbers from the index on by one.
    pub(crate) fn raise(&mut self, from: usize)
        requires from { from ≤ length self.old.items }
        requires room { (k : ℕ)
            → k < length self.old.items → slice_index self.old.items k + 1 < 2 ^ 64 }
        ensures { self.new.items ≡ raised from self.old.items }
    {
        let next = from / BLOCK + 1;
        let end = self.offsets.len().min(next * BLOCK);
        let last = self.blocks.len();
        raise_between(&mut self.offsets, from, end);
        raise_between(&mut self.blocks, next, last);
    }

    /// Keeps the first `count` numbers; the memory stays.
    pub(crate) fn truncate(&mut self, count: usize)
        requires { count ≤ length self.old.items }
        ensures items { self.new.items ≡ take count self.old.items }
        ensures room { self.new.room + count ≡ length self.old.items + self.old.room }
    {
        self.blocks.truncate(count.div_ceil(BLOCK));
        self.offsets.truncate(count);
    }
}

/// Raises the numbers from place `from` up to place `to` by one.
fn raise_between(numbers: &mut Vec<usize>, from: usize, to: usize)
    requires to { to ≤ length numbers.old.items }
    requires fits { (k : ℕ) → from ≤ k → k < to → slice_index numbers.old.items k + 1 < 2 ^ 64 }
    ensures { AreRaised numbers.old.items numbers.new.items from to }
{
    raise_all(numbers.as_mut_slice(), from, to);
}

/// The same of numbers that lie in one place, so that a machine may raise several at a time.
fn raise_all(numbers: &mut [usize], from: usize, to: usize)
    requires to { to ≤ length numbers.old }
    requires fits { (k : ℕ) → from ≤ k → k < to → slice_index numbers.old k + 1 < 2 ^ 64 }
    ensures { AreRaised numbers.old numbers.new from to }
{
    for at in from..to {
        numbers[at] += 1;
    }
}
