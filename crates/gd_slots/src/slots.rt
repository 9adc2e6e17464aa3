ghost use Rattle.std.specs.Prelude.{◌≡◌, [], length, option_and_then, option_copied, option_map, not, slice_get, Some};
ghost use Rattle.std.specs.Prelude.{IsTrue, IfOk, OnOk, OnErr, if◌then◌else◌};
ghost use Rattle.std.specs.FinMap as map_of;
ghost use Rattle.std.specs.List.{IsDistinct};
ghost use Rattle.gd_base.specs.Stamps.{is_same};
ghost use Rattle.gd_slots.specs.Slots.{board_of, change_at, has_slot, ids, pushed, value_at, with_id};

use crate::changes::Change;
use crate::slot::{change_slot, fill_slot};
use gd_base::Stamp;
use indexmap::IndexMap;
use std::alloc::{AllocError, Global};
use std::marker::Model;

/// A slot for each id that was reserved, empty while nothing has that id. A slot is never moved or removed. No memory
/// is taken but for slots, and no value is copied or moved but into its slot and out of it.
#[derive(Drop)]
pub struct Slots<V> {
    entries: IndexMap<Stamp, Option<V>>,
}

impl<V> Model for Slots<V> {
    ghost use Rattle.gd_slots.specs.Slots.{Slots};

    ghost Value = { Slots V };

    ghost view = { λ s. s.entries.entries };
}

impl<V: Drop> Slots<V> {
    /// No slots. `AllocError` where memory ran out.
    #[tactic(auto, unfolding(crate::specs::Slots::board_of))]
    pub fn new(alloc: Global) -> Result<Self, AllocError>
        ensures slots { IfOk result (λ s. s ≡ []) }
        ensures board { IfOk result (λ s. board_of s ≡ map_of.empty) }
    {
        Ok(Slots {
            entries: IndexMap::new(alloc),
        })
    }

    /// No slots, with room for that many. `AllocError` where memory ran out.
    pub fn with_capacity(alloc: Global, count: usize) -> Result<Self, AllocError>
        ensures { IfOk result (λ s. s ≡ []) }
    {
        let entries = IndexMap::with_capacity(alloc, count)?;
        Ok(Slots { entries })
    }

    /// How many slots there are.
    pub fn count(&self) -> usize
        ensures count { result ≡ length self.now }
        ensures distinct { IsDistinct is_same (ids self.now) }
    {
        self.entries.len()
    }

    /// What has that id. None exactly where nothing has.
    #[tactic(auto, using(crate::proofs::SlotLemmas::slot_reads))]
    pub fn get(&self, id: Stamp) -> Option<&V>
        ensures { option_copied result ≡ map_of.get (board_of self.now) id }
    {
        match self.entries.get(&id) {
            Some(slot) => slot.as_ref(),
            None => None,
        }
    }

    /// What the slot at that index holds, with its id. None where the slot is empty, or there are no more than `k`
    /// slots.
    pub fn at(&self, k: usize) -> Option<(Stamp, &V)>
        ensures { option_map (λ p. (p.0, p.1.now)) result ≡ value_at self.now k }
    {
        match self.entries.get_index(k) {
            Some((id, Some(value))) => Some((*id, value)),
            _ => None,
        }
    }

    /// The slot at that index, with its id. None where there are no more than `k` slots.
    pub fn slot(&self, k: usize) -> Option<(Stamp, &Option<V>)>
        ensures { option_map (λ p. (p.0, p.1.now)) result ≡ slice_get self.now k }
    {
        let (id, slot) = self.entries.get_index(k)?;
        Some((*id, slot))
    }

    /// Puts a slot behind the others; where its id has one, it is put there. `AllocError` where memory ran out.
    pub fn push(&mut self, slot: (Stamp, Option<V>)) -> Result<(), AllocError>
        ensures { OnOk result (self.new ≡ pushed (Some slot) self.old) }
    {
        self.entries.insert(slot.0, slot.1)?;
        Ok(())
    }

    /// Makes a slot for the id, where there is none. `AllocError` where there is no memory for it: nothing changes
    /// then.
    pub fn reserve(&mut self, id: Stamp) -> Result<(), AllocError>
        ensures board { board_of self.new ≡ board_of self.old }
        ensures slots { OnOk result (ids self.new ≡ with_id id (ids self.old)) }
        ensures err { OnErr result (self.new ≡ self.old) }
    {
        let _slot = self.entries.entry(id)?.or_insert(None);
        Ok(())
    }

    /// Puts a value into the slot of its id, and says whether it did. Where one is there, that one stays.
    pub fn fill(&mut self, id: Stamp, new: V) -> bool
        requires { IsTrue (has_slot id self.old) }
        ensures board { board_of self.new
            ≡ (if map_of.contains_key (board_of self.old) id
            then board_of self.old
            else map_of.insert (board_of self.old) id new) }
        ensures filled { result ≡ not (map_of.contains_key (board_of self.old) id) }
        ensures slots { ids self.new ≡ ids self.old }
    {
        match self.entries.get_mut(&id) {
            Some(slot) => fill_slot(slot, new),
            None => false,
        }
    }

    /// Takes a value out of its slot.
    pub fn take(&mut self, id: Stamp) -> Option<V>
        ensures board { board_of self.new ≡ map_of.remove (board_of self.old) id }
        ensures value { result ≡ map_of.get (board_of self.old) id }
        ensures slots { ids self.new ≡ ids self.old }
    {
        match self.entries.get_mut(&id) {
            Some(slot) => slot.take(),
            None => None,
        }
    }

    /// Changes the value of that id where it stands, if there is one, and returns what was replaced.
    pub fn change<C: Change<V>>(&mut self, id: Stamp, change: C) -> Option<C::Old>
        ensures board { board_of self.new
            ≡ change_at (board_of self.old) id (C.changed change) }
        ensures old { result
            ≡ option_and_then (C.replaced change) (map_of.get (board_of self.old) id) }
        ensures slots { ids self.new ≡ ids self.old }
    {
        match self.entries.get_mut(&id) {
            Some(slot) => change_slot(slot, change),
            None => None,
        }
    }
}
