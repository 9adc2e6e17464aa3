//! What operations set.
ghost use Rattle.std.specs.Prelude.{◌≡◌, IfOk};
ghost use Rattle.gd_base.specs.Results.{Gives};
ghost use Rattle.gd_base.specs.declared.content.Content.TheVariants.{ToLooks};
ghost use Rattle.gd_grammar.specs.EventBytes.{colour_at, fill_at, width_at};
ghost use Rattle.gd_grammar.specs.OpBytes.{ends_at, level_at, lone_at, reconnect_at};
ghost use Rattle.gd_wire.specs.Packed.{GivesPacked};

use crate::bytes::Bytes;
use crate::pack_error::PackError;
use gd_base::{
    COLOUR_LIMIT, Content, Ends, FieldFault, FieldWhy, Height, Looks, Stamp, Text, WIDTH_LIMIT,
};
use gd_events::PackedLooks;
use std::alloc::{AllocError, Global};

/// What an operation sets.
pub(crate) type Done = Content<Text, PackedLooks, Height>;

/// These looks, as an operation sets them. `AllocError` where memory ran out.
pub(crate) fn looks_of(alloc: Global, looks: &Looks) -> Result<Done, AllocError>
    ensures { IfOk result (λ content. content ≡ ToLooks looks.now) }
{
    Ok(Content::ToLooks(PackedLooks::new(alloc, looks)?))
}

/// The word that stands for no fill.
pub(crate) const NO_FILL: u32 = 0xFFFF_FFFF;

impl<'a> Bytes<'a> {
    /// A rank that an object had.
    #[tactic(auto, unfolding(gd_grammar::specs::Readers::steps))]
    pub(crate) fn level(&mut self, stamp: Stamp) -> Result<Done, FieldFault>
        ensures { Gives (λ c. (c, self.new)) result (level_at stamp self.old) }
    {
        let rank = self.rank(Some(stamp))?;
        Ok(Content::ToRank(Height::At(rank)))
    }

    /// A lone stroke, fill or width: which one, and its value.
    #[tactic(auto, unfolding(gd_grammar::specs::OpBytes::lone_at, gd_grammar::specs::Readers::steps))]
    pub(crate) fn lone(&mut self, alloc: Global) -> Result<Done, PackError>
        ensures { GivesPacked (λ c. (c, self.new)) result (lone_at self.old) }
    {
        let fault = self.fault(FieldWhy::Field);
        match self.byte()? {
            1 => {
                let colour = self.colour()?;
                let content = looks_of(alloc, &Looks::only_stroke(colour))?;
                Ok(content)
            }
            2 => {
                let fill = self.fill()?;
                let content = looks_of(alloc, &Looks::only_fill(fill))?;
                Ok(content)
            }
            3 => {
                let width = self.width()?;
                let content = looks_of(alloc, &Looks::only_width(width))?;
                Ok(content)
            }
            _ => Err(PackError::Field(fault)),
        }
    }

    /// The ends of a connector.
    #[tactic(auto, unfolding(gd_grammar::specs::OpBytes::ends_at, gd_grammar::specs::Readers::steps))]
    pub(crate) fn ends(&mut self, stamp: Stamp) -> Result<Ends, FieldFault>
        ensures { Gives (λ ends. (ends, self.new)) result (ends_at stamp self.old) }
    {
        let from = self.id(stamp)?;
        let to = self.id(stamp)?;
        Ok(Ends { from, to })
    }

    /// Other ends of a connector.
    #[tactic(auto, unfolding(gd_grammar::specs::Readers::steps))]
    pub(crate) fn reconnect(&mut self, stamp: Stamp) -> Result<Done, FieldFault>
        ensures { Gives (λ c. (c, self.new)) result (reconnect_at stamp self.old) }
    {
        let ends = self.ends(stamp)?;
        Ok(Content::ToEnds(Some(ends)))
    }

    /// Reads a colour, in four bytes. `Short` where it isn't whole, and `Field` at its first byte where it is above
    /// `COLOUR_LIMIT`.
    #[tactic(auto, unfolding(gd_grammar::specs::EventBytes::colour_at))]
    pub fn colour(&mut self) -> Result<u32, FieldFault>
        ensures { Gives (λ x. (x, self.new)) result (colour_at self.old) }
    {
        let fault = self.fault(FieldWhy::Field);
        let colour = self.word()?;
        if colour > COLOUR_LIMIT {
            return Err(fault);
        }
        Ok(colour)
    }

    /// Reads a colour, or FFFFFFFF for none. `Short` where it isn't whole, and `Field` at its first byte where it is
    /// neither.
    #[tactic(auto, unfolding(gd_grammar::specs::EventBytes::fill_at))]
    pub fn fill(&mut self) -> Result<Option<u32>, FieldFault>
        ensures { Gives (λ x. (x, self.new)) result (fill_at self.old) }
    {
        let fault = self.fault(FieldWhy::Field);
        let word = self.word()?;
        if word == NO_FILL {
            return Ok(None);
        }
        if word > COLOUR_LIMIT {
            return Err(fault);
        }
        Ok(Some(word))
    }

    /// A width, in four bytes.
    #[tactic(auto, unfolding(gd_grammar::specs::EventBytes::width_at))]
    fn width(&mut self) -> Result<u8, FieldFault>
        ensures { Gives (λ x. (x, self.new)) result (width_at self.old) }
    {
        let fault = self.fault(FieldWhy::Field);
        let width = self.word()?;
        if width < 1 || width > WIDTH_LIMIT as u32 {
            return Err(fault);
        }
        Ok(width as u8)
    }
}
