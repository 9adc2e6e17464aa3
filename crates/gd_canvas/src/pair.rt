//! A content that has no room of its own in a swap, with what it found.
ghost use Rattle.std.specs.Prelude.{◌≡◌, IfOk, None, Some, if◌then◌else◌};
ghost use Rattle.gd_base.specs.Contents.{content_map};
ghost use Rattle.gd_model.specs.Forms.{rank_at};
ghost use Rattle.gd_model.specs.Objects.{is_same_part};
ghost use Rattle.gd_canvas.specs.Swaps.{blank, pair_new, pair_old, pair_stored, part, text_in};

use crate::contents::part;
use crate::swap::rank_at;
use gd_base::{Content, Height, Nothing, Rank, Stamp, Text, map_content};
use gd_events::PackedLooks;
use gd_model::Held;
use std::alloc::AllocError;
use std::mem;

/// A content that sets no looks, and what it found.
#[derive(Drop)]
pub struct Pair {
    pub new: Content<Text, Nothing, Height>,
    pub old: Held,
}

impl Pair {
    /// A copy. `AllocError` where its labels have as many handles as can be counted.
    pub fn copied(&self) -> Result<Pair, AllocError>
        ensures { IfOk result (λ pair. pair ≡ self.now) }
    {
        let new = map_content!(&self.new,
            label => label.share()?,
            looks => *looks,
            height => *height);
        let old = share(&self.old)?;
        Ok(Pair { new, old })
    }

    /// What the operation says.
    pub fn said(&self) -> Result<Content<Text, PackedLooks, Height>, AllocError>
        ensures { IfOk result (λ content. content ≡ pair_new self.now) }
    {
        Ok(map_content!(&self.new,
            label => label.share()?,
            looks => match *looks {},
            height => *height))
    }

    /// A handle to the label that it sets, where it sets one.
    pub fn spare(&self) -> Result<Text, AllocError>
        ensures { IfOk result (λ spare. spare ≡ text_in (pair_new self.now)) }
    {
        match &self.new {
            Content::ToText(label) => label.share(),
            _ => Ok(Text::default()),
        }
    }

    /// What the operation sets at that stamp, with that handle to its label.
    pub fn stored(&self, stamp: Stamp, spare: Text) -> Held
        requires { spare ≡ text_in (pair_new self.now) }
        ensures { result
            ≡ content_map (λ label. label) (λ looks. looks) (rank_at stamp) (pair_new self.now) }
    {
        map_content!(&self.new,
            _label => spare,
            looks => match *looks {},
            height => rank_at(stamp, *height))
    }

    /// Whether what it found is of the same part.
    fn is_found(&self) -> bool
        ensures { result ≡ is_same_part (part self.now.old) (part self.now.new) }
    {
        part(&self.old) == part(&self.new)
    }

    /// Some content of the same part.
    fn blank(&self) -> Held
        ensures { result ≡ blank self.now }
    {
        map_content!(&self.new,
            _label => Text::default(),
            looks => match *looks {},
            _height => Rank::Low(Stamp::default()))
    }

    /// A copy of what it found. `AllocError` where its label has as many handles as can be counted.
    pub fn old(&self) -> Result<Held, AllocError>
        ensures { IfOk result (λ old. old ≡ pair_old self.now) }
    {
        if self.is_found() {
            share(&self.old)
        } else {
            Ok(self.blank())
        }
    }

    /// What it found, which is moved out.
    pub fn take_old(&mut self) -> Held
        ensures old { result ≡ pair_old self.entry.now }
        ensures new { pair_new self.exit.now ≡ pair_new self.entry.now }
    {
        if self.is_found() {
            mem::replace(&mut self.old, Content::ToFlag(false))
        } else {
            self.blank()
        }
    }

    /// Keeps what was found, where it is of the same part, and says whether it is.
    pub fn keep(&mut self, found: Held) -> bool
        ensures found { (if result then Some (pair_old self.exit.now) else None)
            ≡ pair_stored self.entry.now found }
        ensures new { pair_new self.exit.now ≡ pair_new self.entry.now }
    {
        if part(&found) == part(&self.new) {
            self.old = found;
            true
        } else {
            false
        }
    }
}

/// A copy. `AllocError` where its label has as many handles as can be counted.
fn share(content: &Held) -> Result<Held, AllocError>
    ensures { IfOk result (λ copy. copy ≡ content.now) }
{
    Ok(map_content!(content, label => label.share()?, looks => *looks, rank => *rank))
}
