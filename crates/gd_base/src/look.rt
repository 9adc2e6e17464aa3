//! How objects look.
ghost use Rattle.std.specs.Prelude.{◌≡◌, ◌&&◌};
ghost use Rattle.gd_base.specs.Ranges.{is_fill, is_letters, is_round, is_width};
ghost use Rattle.gd_base.specs.Looks.{are_looks, are_marks, are_numbers, given, has_late_mark, has_look, has_mark};
ghost use Rattle.gd_base.specs.Looks.{instead, is_look, kept, laid};
ghost use Rattle.gd_base.specs.Looks.{new_look, no_looks, only_fill, only_stroke, only_width, put_over, taken, within};

use crate::ranges::{COLOUR_LIMIT, LETTERS_LIMIT, OPACITY_LIMIT, ROUND_LIMIT, WIDTH_LIMIT};

/// How a stroke is broken.
#[derive(Clone, Copy, Debug, PartialEq, Eq)]
pub enum Dash {
    Solid,
    Dashed,
    Dotted,
}

/// At which ends a line or a connector has a head.
#[derive(Clone, Copy, Debug, PartialEq, Eq)]
pub enum Heads {
    Bare,
    AtEnd,
    AtStart,
    AtBoth,
}

/// To which side a label goes.
#[derive(Clone, Copy, Debug, PartialEq, Eq)]
pub enum Align {
    Start,
    Middle,
    End,
}

/// How an object looks. In a sound event colours are from 0 to `COLOUR_LIMIT`, widths from 1 to `WIDTH_LIMIT`,
/// opacities from 1 to `OPACITY_LIMIT`; how round its corners are, how large its letters are and to which side its
/// label goes may be left to its kind, which is None, else they are from 0 to `ROUND_LIMIT` and from 1 to
/// `LETTERS_LIMIT`.
#[derive(Clone, Copy, Debug, PartialEq, Eq)]
pub struct Look {
    pub stroke: u32,
    pub fill: Option<u32>,
    pub width: u8,
    pub dash: Dash,
    pub heads: Heads,
    pub round: Option<u32>,
    pub opacity: u8,
    pub letters: Option<u16>,
    pub align: Option<Align>,
}

/// New values for some parts of a look: None where a part stays.
#[derive(Clone, Copy, Debug, PartialEq, Eq)]
pub struct Looks {
    pub stroke: Option<u32>,
    pub fill: Option<Option<u32>>,
    pub width: Option<u8>,
    pub dash: Option<Dash>,
    pub heads: Option<Heads>,
    pub round: Option<Option<u32>>,
    pub opacity: Option<u8>,
    pub letters: Option<Option<u16>>,
    pub align: Option<Option<Align>>,
}

/// How many parts a look has.
pub const LOOKS: usize = 9;

impl Look {
    /// That of a new object: black, not filled, of width 1, and with these heads.
    pub fn new(heads: Heads) -> Self
        ensures { result ≡ new_look heads }
    {
        Look {
            stroke: 0x00_0000,
            fill: None,
            width: 1,
            dash: Dash::Solid,
            heads,
            round: None,
            opacity: OPACITY_LIMIT,
            letters: None,
            align: None,
        }
    }

    /// Whether its numbers are in their ranges.
    pub fn is_in_range(&self) -> bool
        ensures { result ≡ is_look self.now }
    {
        self.stroke <= COLOUR_LIMIT
            && is_fill_in_range(self.fill)
            && is_width_in_range(self.width)
            && are_marks_in_range(self.round, self.opacity, self.letters)
    }

    /// The look with these parts set.
    pub fn given(&self, looks: &Looks) -> Look
        ensures { result ≡ given looks.now self.now }
    {
        Look {
            stroke: looks.stroke.unwrap_or(self.stroke),
            fill: looks.fill.unwrap_or(self.fill),
            width: looks.width.unwrap_or(self.width),
            dash: looks.dash.unwrap_or(self.dash),
            heads: looks.heads.unwrap_or(self.heads),
            round: looks.round.unwrap_or(self.round),
            opacity: looks.opacity.unwrap_or(self.opacity),
            letters: looks.letters.unwrap_or(self.letters),
            align: looks.align.unwrap_or(self.align),
        }
    }

    /// What it has of the parts that are set there.
    pub fn taken(&self, looks: &Looks) -> Looks
        ensures { result ≡ taken looks.now self.now }
    {
        Looks {
            stroke: instead(looks.stroke, self.stroke),
            fill: instead(looks.fill, self.fill),
            width: instead(looks.width, self.width),
            dash: instead(looks.dash, self.dash),
            heads: instead(looks.heads, self.heads),
            round: instead(looks.round, self.round),
            opacity: instead(looks.opacity, self.opacity),
            letters: instead(looks.letters, self.letters),
            align: instead(looks.align, self.align),
        }
    }
}

impl Looks {
    /// None of them.
    pub fn none() -> Self
        ensures { result ≡ no_looks }
    {
        Looks {
            stroke: None,
            fill: None,
            width: None,
            dash: None,
            heads: None,
            round: None,
            opacity: None,
            letters: None,
            align: None,
        }
    }

    pub fn only_stroke(stroke: u32) -> Self
        ensures { result ≡ only_stroke stroke }
    {
        Looks {
            stroke: Some(stroke),
            ..Looks::none()
        }
    }

    pub fn only_fill(fill: Option<u32>) -> Self
        ensures { result ≡ only_fill fill }
    {
        Looks {
            fill: Some(fill),
            ..Looks::none()
        }
    }

    pub fn only_width(width: u8) -> Self
        ensures { result ≡ only_width width }
    {
        Looks {
            width: Some(width),
            ..Looks::none()
        }
    }

    /// Whether there is one, and all are in their ranges.
    pub fn is_in_range(&self) -> bool
        ensures { result ≡ are_looks self.now }
    {
        self.has_look() && self.are_numbers()
    }

    /// Whether a part is set.
    pub fn has_look(&self) -> bool
        ensures { result ≡ has_look self.now }
    {
        self.stroke.is_some() || self.fill.is_some() || self.width.is_some() || self.has_mark()
    }

    /// Whether a part is set that is none of stroke, fill and width.
    pub fn has_mark(&self) -> bool
        ensures { result ≡ has_mark self.now }
    {
        self.dash.is_some() || self.heads.is_some() || self.round.is_some() || self.has_late_mark()
    }

    fn has_late_mark(&self) -> bool
        ensures { result ≡ has_late_mark self.now }
    {
        self.opacity.is_some() || self.letters.is_some() || self.align.is_some()
    }

    fn are_numbers(&self) -> bool
        ensures { result ≡ are_numbers self.now }
    {
        self.stroke.unwrap_or(0) <= COLOUR_LIMIT
            && is_fill_in_range(self.fill.unwrap_or(None))
            && is_width_in_range(self.width.unwrap_or(1))
            && are_marks_in_range(
                self.round.unwrap_or(None),
                self.opacity.unwrap_or(1),
                self.letters.unwrap_or(None),
            )
    }

    /// Those of other looks that are set here too.
    pub fn within(&self, others: &Looks) -> Looks
        ensures { result ≡ within self.now others.now }
    {
        Looks {
            stroke: kept(self.stroke, others.stroke),
            fill: kept(self.fill, others.fill),
            width: kept(self.width, others.width),
            dash: kept(self.dash, others.dash),
            heads: kept(self.heads, others.heads),
            round: kept(self.round, others.round),
            opacity: kept(self.opacity, others.opacity),
            letters: kept(self.letters, others.letters),
            align: kept(self.align, others.align),
        }
    }

    /// Those of other looks that are set there, with what is set here in the place of theirs.
    pub fn laid(&self, others: &Looks) -> Looks
        ensures { result ≡ laid self.now others.now }
    {
        Looks {
            stroke: put_over(self.stroke, others.stroke),
            fill: put_over(self.fill, others.fill),
            width: put_over(self.width, others.width),
            dash: put_over(self.dash, others.dash),
            heads: put_over(self.heads, others.heads),
            round: put_over(self.round, others.round),
            opacity: put_over(self.opacity, others.opacity),
            letters: put_over(self.letters, others.letters),
            align: put_over(self.align, others.align),
        }
    }
}

fn is_fill_in_range(fill: Option<u32>) -> bool
    ensures { result ≡ is_fill fill }
{
    match fill {
        Some(colour) => colour <= COLOUR_LIMIT,
        None => true,
    }
}

fn is_width_in_range(width: u8) -> bool
    ensures { result ≡ is_width width }
{
    1 <= width && width <= WIDTH_LIMIT
}

fn are_marks_in_range(round: Option<u32>, opacity: u8, letters: Option<u16>) -> bool
    ensures { result ≡ are_marks round opacity letters }
{
    is_round_in_range(round)
        && 1 <= opacity
        && opacity <= OPACITY_LIMIT
        && are_letters_in_range(letters)
}

fn is_round_in_range(round: Option<u32>) -> bool
    ensures { result ≡ is_round round }
{
    match round {
        Some(round) => round <= ROUND_LIMIT,
        None => true,
    }
}

fn are_letters_in_range(letters: Option<u16>) -> bool
    ensures { result ≡ is_letters letters }
{
    match letters {
        Some(letters) => 1 <= letters && letters <= LETTERS_LIMIT,
        None => true,
    }
}

/// The one value where the other is set.
fn instead<T: Copy>(set: Option<T>, value: T) -> Option<T>
    ensures { result ≡ instead set value }
{
    match set {
        Some(_) => Some(value),
        None => None,
    }
}

/// The second where the first is set.
fn kept<T: Copy>(set: Option<T>, other: Option<T>) -> Option<T>
    ensures { result ≡ kept set other }
{
    match set {
        Some(_) => other,
        None => None,
    }
}

/// The first in the place of the second, where both are set.
fn put_over<T: Copy>(set: Option<T>, other: Option<T>) -> Option<T>
    ensures { result ≡ put_over set other }
{
    match other {
        Some(value) => Some(set.unwrap_or(value)),
        None => None,
    }
}
