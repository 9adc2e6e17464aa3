//! New looks, with room for the old ones.
ghost use Rattle.std.specs.Prelude.{◌≡◌, ◌<◌, false, length, IfOk};
ghost use Rattle.gd_base.specs.Looks.{has_mark};
ghost use Rattle.gd_model.specs.Objects.{look_parts, or_whole};
ghost use Rattle.gd_canvas.specs.Swaps.{new_looks, old_looks, put_looks};

use crate::contents::{LookParts, look_parts};
use gd_base::Looks;
use gd_events::PackedLooks;
use std::alloc::{AllocError, Global};

/// New looks and old ones of the same parts.
#[derive(Drop)]
pub struct LooksPair {
    pub new: Looks,
    pub old: Looks,
}

/// New looks, and room for the old ones of the same parts. A lone stroke, fill or width, as most are, takes no memory
/// of its own.
#[derive(Drop)]
pub enum LooksSwap {
    Width { new: u8, old: u8 },
    Stroke { new: u32, old: u32 },
    Fill { new: Option<u32>, old: Option<u32> },
    Many(Box<LooksPair>),
}

impl LooksSwap {
    /// The looks, with room for those that they will find. `AllocError` where memory ran out.
    pub fn new(alloc: Global, packed: &PackedLooks) -> Result<LooksSwap, AllocError>
        ensures { IfOk result (λ swap. new_looks swap ≡ packed.now) }
    {
        let looks = packed.looks();
        if looks.has_mark() {
            return LooksSwap::many(alloc, looks);
        }
        LooksSwap::of_lines(alloc, looks)
    }

    /// The same of looks that set no more than a stroke, a fill and a width.
    #[tactic(auto, using(crate::proofs::SwapLemmas::lone))]
    fn of_lines(alloc: Global, looks: Looks) -> Result<LooksSwap, AllocError>
        requires { has_mark looks ≡ false }
        ensures { IfOk result (λ swap. new_looks swap ≡ looks) }
    {
        match (looks.stroke, looks.fill, looks.width) {
            (Some(new), None, None) => Ok(LooksSwap::Stroke { new, old: new }),
            (None, Some(new), None) => Ok(LooksSwap::Fill { new, old: new }),
            (None, None, Some(new)) => Ok(LooksSwap::Width { new, old: new }),
            _ => LooksSwap::many(alloc, looks),
        }
    }

    fn many(alloc: Global, looks: Looks) -> Result<LooksSwap, AllocError>
        ensures { IfOk result (λ swap. new_looks swap ≡ looks) }
    {
        let pair = LooksPair {
            new: looks,
            old: looks,
        };
        Ok(LooksSwap::Many(Box::new(alloc, pair)?))
    }

    /// A copy in memory of its own. `AllocError` where that ran out.
    pub fn copied(&self, alloc: Global) -> Result<LooksSwap, AllocError>
        ensures { IfOk result (λ swap. (new_looks swap ≡ new_looks self.now)
            × (old_looks swap ≡ old_looks self.now)) }
    {
        Ok(match self {
            LooksSwap::Width { new, old } => LooksSwap::Width {
                new: *new,
                old: *old,
            },
            LooksSwap::Stroke { new, old } => LooksSwap::Stroke {
                new: *new,
                old: *old,
            },
            LooksSwap::Fill { new, old } => LooksSwap::Fill {
                new: *new,
                old: *old,
            },
            LooksSwap::Many(pair) => {
                let pair = LooksPair {
                    new: pair.new,
                    old: pair.old,
                };
                LooksSwap::Many(Box::new(alloc, pair)?)
            }
        })
    }

    pub fn new_looks(&self) -> Looks
        ensures { result ≡ new_looks self.now }
    {
        match self {
            LooksSwap::Width { new, .. } => Looks::only_width(*new),
            LooksSwap::Stroke { new, .. } => Looks::only_stroke(*new),
            LooksSwap::Fill { new, .. } => Looks::only_fill(*new),
            LooksSwap::Many(pair) => pair.new,
        }
    }

    /// What was found of the parts that it sets.
    pub fn old_looks(&self) -> Looks
        ensures { result ≡ old_looks self.now }
    {
        match self {
            LooksSwap::Width { old, .. } => Looks::only_width(*old),
            LooksSwap::Stroke { old, .. } => Looks::only_stroke(*old),
            LooksSwap::Fill { old, .. } => Looks::only_fill(*old),
            LooksSwap::Many(pair) => pair.old.laid(&pair.new),
        }
    }

    /// The parts that it sets, and the whole where it sets none.
    pub fn parts(&self) -> LookParts
        ensures parts { result.items ≡ or_whole (look_parts (new_looks self.now)) }
        ensures some { 0 < length result.items }
    {
        look_parts(&self.new_looks())
    }

    /// Keeps old looks, of the parts that it sets.
    pub fn put(&mut self, looks: &Looks)
        ensures new { new_looks self.new ≡ new_looks self.old }
        ensures old { old_looks self.new ≡ put_looks self.old looks.now }
    {
        match self {
            LooksSwap::Width { old, .. } => *old = looks.width.unwrap_or(*old),
            LooksSwap::Stroke { old, .. } => *old = looks.stroke.unwrap_or(*old),
            LooksSwap::Fill { old, .. } => *old = looks.fill.unwrap_or(*old),
            LooksSwap::Many(pair) => pair.old = *looks,
        }
    }
}
