//! The content that an operation sets, with room for the old one beside it.
ghost use Rattle.std.specs.Prelude.{◌≡◌, ◌<◌, ◌≤◌, ◌∷◌, [], IfOk, IsTrue, length, slice_get};
ghost use Rattle.gd_base.specs.Stamps.{Stamp as StampValue};
ghost use Rattle.gd_model.specs.Forms.{rank_at};
ghost use Rattle.gd_model.specs.Objects.{have_parts, laid_over, part_within, parts_of};
ghost use Rattle.gd_base.specs.declared.look.TheConstants.{LOOKS};
ghost use Rattle.gd_canvas.specs.Swaps.{first_part, found_in, of_swap, old_of, sets, stored, stored_one, text_in};

use crate::contents::{FLAG, LABEL, LookParts, PLACE, RANK, SIZE, one_part, part, passed};
use crate::looks_swap::LooksSwap;
use crate::pair::Pair;
use gd_base::{Content, Height, Rank, Side, Stamp, Text, map_content};
use gd_events::PackedLooks;
use gd_model::Held;
use std::alloc::{AllocError, Global};
use std::mem::{self, size_of};

/// A new label, and an old one.
#[derive(Drop)]
pub struct Texts {
    pub new: Text,
    pub old: Text,
}

/// A place, or a size.
#[derive(Clone, Copy, Debug)]
pub struct Two {
    pub x: i32,
    pub y: i32,
}

/// What an operation sets, with room for what it finds there. It has 32 bytes at most, and what is greater lies in a
/// box.
#[derive(Drop)]
pub enum Swap {
    ToFlag { new: bool, old: bool },
    ToPlace { new: Two, old: Two },
    ToSize { new: Two, old: Two },
    ToRank { new: Height, old: Rank },
    ToLooks(LooksSwap),
    ToText(Box<Texts>),
    /// Any other content.
    Other(Box<Pair>),
}

const _: () = prove!(size_of::<Swap>() <= 32);

impl Default for Swap {
    /// Some content that takes no memory.
    fn default() -> Self {
        Swap::ToFlag {
            new: true,
            old: true,
        }
    }
}

impl Swap {
    /// The content with room for what it will find. What lies in memory of its own is moved, or made. `AllocError`
    /// where that ran out.
    pub fn new(
        alloc: Global,
        content: Content<Text, PackedLooks, Height>,
    ) -> Result<Swap, AllocError>
        ensures { IfOk result (λ swap. of_swap swap ≡ content) }
    {
        Ok(match content {
            Content::ToPlace { x, y } => Swap::ToPlace {
                new: Two { x, y },
                old: Two { x, y },
            },
            Content::ToSize { w, h } => Swap::ToSize {
                new: Two { x: w, y: h },
                old: Two { x: w, y: h },
            },
            Content::ToText(label) => {
                let texts = Texts {
                    new: label,
                    old: Text::default(),
                };
                Swap::ToText(Box::new(alloc, texts)?)
            }
            Content::ToFlag(flag) => Swap::ToFlag {
                new: flag,
                old: flag,
            },
            Content::ToRank(height) => Swap::ToRank {
                new: height,
                old: Rank::Low(Stamp::default()),
            },
            content => Swap::other(alloc, &content)?,
        })
    }

    /// The same of looks, or of a content that has no room of its own.
    fn other(
        alloc: Global,
        content: &Content<Text, PackedLooks, Height>,
    ) -> Result<Swap, AllocError>
        ensures { IfOk result (λ swap. of_swap swap ≡ content.now) }
    {
        let new = map_content!(content,
            label => label.share()?,
            looks => return Ok(Swap::ToLooks(LooksSwap::new(alloc, looks)?)),
            height => *height);
        let old = Content::ToFlag(false);
        Ok(Swap::Other(Box::new(alloc, Pair { new, old })?))
    }

    /// A copy in memory of its own. `AllocError` where that ran out.
    pub fn copied(&self, alloc: Global) -> Result<Swap, AllocError>
        ensures op { IfOk result (λ swap. of_swap swap ≡ of_swap self.now) }
        ensures old { IfOk result (λ swap. old_of swap ≡ old_of self.now) }
    {
        Ok(match self {
            Swap::ToPlace { new, old } => Swap::ToPlace {
                new: *new,
                old: *old,
            },
            Swap::ToSize { new, old } => Swap::ToSize {
                new: *new,
                old: *old,
            },
            Swap::ToLooks(looks) => Swap::ToLooks(looks.copied(alloc)?),
            Swap::ToText(texts) => {
                let new = texts.new.share()?;
                let old = texts.old.share()?;
                Swap::ToText(Box::new(alloc, Texts { new, old })?)
            }
            Swap::ToFlag { new, old } => Swap::ToFlag {
                new: *new,
                old: *old,
            },
            Swap::ToRank { new, old } => Swap::ToRank {
                new: *new,
                old: *old,
            },
            Swap::Other(pair) => Swap::Other(Box::new(alloc, pair.copied()?)?),
        })
    }

    /// What the operation says. `AllocError` where memory ran out.
    pub fn said(&self, alloc: Global) -> Result<Content<Text, PackedLooks, Height>, AllocError>
        ensures { IfOk result (λ content. content ≡ of_swap self.now) }
    {
        Ok(match self {
            Swap::ToPlace { new, .. } => Content::ToPlace { x: new.x, y: new.y },
            Swap::ToSize { new, .. } => Content::ToSize { w: new.x, h: new.y },
            Swap::ToLooks(looks) => {
                Content::ToLooks(PackedLooks::new(alloc, &looks.new_looks())?)
            }
            Swap::ToText(texts) => Content::ToText(texts.new.share()?),
            Swap::ToFlag { new, .. } => Content::ToFlag(*new),
            Swap::ToRank { new, .. } => Content::ToRank(*new),
            Swap::Other(pair) => pair.said()?,
        })
    }

    /// A handle to the label that it sets, where it sets one.
    pub fn spare(&self) -> Result<Text, AllocError>
        ensures { IfOk result (λ spare. spare ≡ text_in (of_swap self.now)) }
    {
        match self {
            Swap::ToText(texts) => texts.new.share(),
            Swap::Other(pair) => pair.spare(),
            _ => Ok(Text::default()),
        }
    }

    /// What the operation sets at that stamp, with that handle to its label.
    pub fn stored(&self, stamp: Stamp, spare: Text) -> Held
        requires { spare ≡ text_in (of_swap self.now) }
        ensures { result ≡ sets stamp self.now }
    {
        match self {
            Swap::ToPlace { new, .. } => Content::ToPlace { x: new.x, y: new.y },
            Swap::ToSize { new, .. } => Content::ToSize { w: new.x, h: new.y },
            Swap::ToLooks(looks) => Content::ToLooks(looks.new_looks()),
            Swap::ToText(_) => Content::ToText(spare),
            Swap::ToFlag { new, .. } => Content::ToFlag(*new),
            Swap::ToRank { new, .. } => Content::ToRank(rank_at(stamp, *new)),
            Swap::Other(pair) => pair.stored(stamp, spare),
        }
    }

    /// A copy of what it found. It takes no memory; `AllocError` where its label has as many handles as can be counted.
    pub fn old(&self) -> Result<Held, AllocError>
        ensures { IfOk result (λ content. content ≡ old_of self.now) }
    {
        Ok(match self {
            Swap::ToPlace { old, .. } => Content::ToPlace { x: old.x, y: old.y },
            Swap::ToSize { old, .. } => Content::ToSize { w: old.x, h: old.y },
            Swap::ToLooks(looks) => Content::ToLooks(looks.old_looks()),
            Swap::ToText(texts) => Content::ToText(texts.old.share()?),
            Swap::ToFlag { old, .. } => Content::ToFlag(*old),
            Swap::ToRank { old, .. } => Content::ToRank(*old),
            Swap::Other(pair) => pair.old()?,
        })
    }

    /// What it found, which is moved out where it lies in memory of its own.
    pub fn take_old(&mut self) -> Held
        ensures old { result ≡ old_of self.old }
        ensures op { of_swap self.new ≡ of_swap self.old }
    {
        match self {
            Swap::ToPlace { old, .. } => Content::ToPlace { x: old.x, y: old.y },
            Swap::ToSize { old, .. } => Content::ToSize { w: old.x, h: old.y },
            Swap::ToLooks(looks) => Content::ToLooks(looks.old_looks()),
            Swap::ToText(texts) => {
                Content::ToText(mem::replace(&mut texts.old, Text::default()))
            }
            Swap::ToFlag { old, .. } => Content::ToFlag(*old),
            Swap::ToRank { old, .. } => Content::ToRank(*old),
            Swap::Other(pair) => pair.take_old(),
        }
    }

    /// The same, where it found something.
    pub fn take_found(&mut self, is_found: bool) -> Option<Held>
        ensures found { result ≡ found_in is_found self.old }
        ensures op { of_swap self.new ≡ of_swap self.old }
    {
        if is_found {
            Some(self.take_old())
        } else {
            None
        }
    }

    /// Keeps what was found, and says whether anything was that is of its parts.
    pub fn keep(&mut self, found: Option<Held>) -> bool
        ensures found { found_in result self.new ≡ stored self.old found }
        ensures op { of_swap self.new ≡ of_swap self.old }
    {
        match found {
            Some(found) => self.keep_one(found),
            None => false,
        }
    }

    fn keep_one(&mut self, found: Held) -> bool
        ensures found { found_in result self.new ≡ stored_one self.old found }
        ensures op { of_swap self.new ≡ of_swap self.old }
    {
        match self {
            Swap::ToPlace { old, .. } => match found {
                Content::ToPlace { x, y } => {
                    *old = Two { x, y };
                    true
                }
                _ => false,
            },
            Swap::ToSize { old, .. } => match found {
                Content::ToSize { w, h } => {
                    *old = Two { x: w, y: h };
                    true
                }
                _ => false,
            },
            Swap::ToLooks(kept) => match found {
                Content::ToLooks(looks) => {
                    kept.put(&looks);
                    true
                }
                _ => false,
            },
            Swap::ToText(texts) => match found {
                Content::ToText(label) => {
                    texts.old = label;
                    true
                }
                _ => false,
            },
            Swap::ToFlag { old, .. } => match found {
                Content::ToFlag(flag) => {
                    *old = flag;
                    true
                }
                _ => false,
            },
            Swap::ToRank { old, .. } => match &found {
                Content::ToRank(rank) => {
                    *old = *rank;
                    true
                }
                _ => false,
            },
            Swap::Other(pair) => pair.keep(found),
        }
    }

    /// The parts that it sets.
    pub fn parts(&self) -> LookParts
        ensures parts { (stamp : StampValue) → result.items ≡ parts_of (sets stamp self.now) }
        ensures some { 0 < length result.items }
    {
        match self {
            Swap::ToLooks(looks) => looks.parts(),
            _ => one_part(self.first_part()),
        }
    }

    /// How many parts it sets.
    pub fn part_count(&self) -> usize
        ensures count { (stamp : StampValue) → result ≡ length (parts_of (sets stamp self.now)) }
        ensures some { 0 < result }
        ensures few { result ≤ LOOKS }
    {
        match self {
            Swap::ToLooks(looks) => looks.parts().len(),
            _ => 1,
        }
    }

    /// The part at that place of those that it sets. None past the last one.
    pub fn part_at(&self, place: usize) -> Option<u8>
        ensures { (stamp : StampValue)
            → result ≡ slice_get (parts_of (sets stamp self.now)) place }
    {
        match self {
            Swap::ToLooks(looks) => looks.parts().get(place).copied(),
            _ => first_alone(self.first_part(), place),
        }
    }

    /// The first part that it sets. Only a look has more.
    pub fn first_part(&self) -> u8
        ensures { (stamp : StampValue) → result ≡ first_part (parts_of (sets stamp self.now)) }
    {
        match self {
            Swap::ToPlace { .. } => PLACE,
            Swap::ToSize { .. } => SIZE,
            Swap::ToLooks(looks) => looks.parts()[0],
            Swap::ToText(_) => LABEL,
            Swap::ToFlag { .. } => FLAG,
            Swap::ToRank { .. } => RANK,
            Swap::Other(pair) => part(&pair.new),
        }
    }
}

/// What stands at that place of a list of this part alone.
pub(crate) fn first_alone(part: u8, place: usize) -> Option<u8>
    ensures { result ≡ slice_get (part ∷ []) place }
{
    if place == 0 { Some(part) } else { None }
}

/// The rank that an event at that stamp gives.
pub fn rank_at(stamp: Stamp, height: Height) -> Rank
    ensures { result ≡ rank_at stamp height }
{
    match height {
        Height::To(Side::Bottom) => Rank::Low(stamp),
        Height::To(Side::Top) => Rank::High(stamp),
        Height::At(rank) => rank,
    }
}

/// What the earlier event finds now is what the later one found of its parts, and the later one finds what the earlier
/// one, with its handle, leaves. It has the parts of the earlier one.
pub fn pass_on(s: Stamp, earlier: &mut Swap, spare: Text, later: &mut Swap)
    requires spare { spare ≡ text_in (of_swap earlier.old) }
    requires parts { IsTrue
        (have_parts (parts_of (of_swap later.old)) (parts_of (of_swap earlier.old))) }
    ensures first { old_of earlier.new ≡ part_within (sets s earlier.old) (old_of later.old) }
    ensures second { old_of later.new ≡ laid_over (sets s earlier.old) (old_of later.old) }
    ensures first_op { of_swap earlier.new ≡ of_swap earlier.old }
    ensures second_op { of_swap later.new ≡ of_swap later.old }
{
    let found = later.take_old();
    let new = earlier.stored(s, spare);
    let both = passed(new, found);
    earlier.keep_one(both.0);
    later.keep_one(both.1);
}
