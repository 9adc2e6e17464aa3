//! Looks, as they are read and written.
ghost use Rattle.std.specs.Prelude.{◌≡◌, ◌≤◌, ◌+◌, ◌++◌, length, option_map};
ghost use Rattle.gd_base.specs.Results.{Gives};
ghost use Rattle.gd_grammar.specs.EventBytes.{colour_at, fill_at};
ghost use Rattle.gd_grammar.specs.FieldBytes.{word_bytes};
ghost use Rattle.gd_grammar.specs.LookBytes.{align_at, align_byte, all_looks_at, dash_at, dash_byte, fill_bytes};
ghost use Rattle.gd_grammar.specs.LookBytes.{heads_at, heads_byte, if_set};
ghost use Rattle.gd_grammar.specs.LookBytes.{is_style, letters_at, letters_bytes, lone, lone_by, look_at, look_bytes};
ghost use Rattle.gd_grammar.specs.LookBytes.{looks_bytes};
ghost use Rattle.gd_grammar.specs.LookBytes.{opacity_at, round_at, round_bytes, set_bytes, single, thin_at};
ghost use Rattle.gd_grammar.specs.OpBytes.{style_at};
ghost use Rattle.gd_grammar.specs.Spelling.{lone_or, looks_tag};
ghost use Rattle.gd_grammar.specs.declared.sizes.TheConstants.{EVENT_BYTES};
ghost use Rattle.gd_wire.specs.Lone.{lone_bytes};
ghost use Rattle.gd_wire.specs.Packed.{GivesPacked};

use crate::buffer::EventBytes;
use crate::bytes::Bytes;
use crate::content::{Done, NO_FILL, looks_of};
use crate::pack_error::PackError;
use gd_base::{
    Align, Dash, FieldFault, FieldWhy, Heads, LETTERS_LIMIT, Look, Looks, OPACITY_LIMIT,
    ROUND_LIMIT, WIDTH_LIMIT,
};
use std::alloc::Global;

/// A part behind a 1, or nothing behind a 0.
macro_rules! if_set {
    ($bytes:expr, $read:ident) => {{
        let fault = $bytes.fault(FieldWhy::Field);
        match $bytes.byte()? {
            0 => Ok(None),
            1 => {
                let part = $bytes.$read()?;
                Ok(Some(part))
            }
            _ => Err(fault),
        }
    }};
}

/// Whether the part is set, and its bytes.
macro_rules! put_set {
    ($out:expr, $part:expr, $value:ident => $put:expr) => {
        match $part {
            Some($value) => {
                $out.put_byte(1);
                $put;
            }
            None => $out.put_byte(0),
        }
    };
}

impl<'a> Bytes<'a> {
    /// All parts of a look.
    #[tactic(auto, unfolding(gd_grammar::specs::LookBytes::look_at, gd_grammar::specs::Readers::steps))]
    pub(crate) fn whole_look(&mut self) -> Result<Look, FieldFault>
        ensures { Gives (λ look. (look, self.new)) result (look_at self.old) }
    {
        let stroke = self.colour()?;
        let fill = self.fill()?;
        let width = self.thin()?;
        let dash = self.dash()?;
        let heads = self.heads()?;
        let round = self.round()?;
        let opacity = self.opacity()?;
        let letters = self.letters()?;
        let align = self.align()?;
        Ok(Look {
            stroke,
            fill,
            width,
            dash,
            heads,
            round,
            opacity,
            letters,
            align,
        })
    }

    /// What is set of a look, where it has bytes of no lone part.
    #[tactic(auto, unfolding(gd_grammar::specs::OpBytes::style_at, gd_grammar::specs::Readers::steps))]
    pub(crate) fn style(&mut self, alloc: Global) -> Result<Done, PackError>
        ensures { GivesPacked (λ c. (c, self.new)) result (style_at self.old) }
    {
        let fault = self.fault(FieldWhy::Field);
        let looks = self.all_looks()?;
        if !is_style(&looks) {
            return Err(PackError::Field(fault));
        }
        let content = looks_of(alloc, &looks)?;
        Ok(content)
    }

    #[tactic(auto, unfolding(gd_grammar::specs::LookBytes::all_looks_at, gd_grammar::specs::Readers::steps))]
    fn all_looks(&mut self) -> Result<Looks, FieldFault>
        ensures { Gives (λ looks. (looks, self.new)) result (all_looks_at self.old) }
    {
        let stroke = self.set_colour()?;
        let fill = self.set_fill()?;
        let width = self.set_thin()?;
        let dash = self.set_dash()?;
        let heads = self.set_heads()?;
        let round = self.set_round()?;
        let opacity = self.set_opacity()?;
        let letters = self.set_letters()?;
        let align = self.set_align()?;
        Ok(Looks {
            stroke,
            fill,
            width,
            dash,
            heads,
            round,
            opacity,
            letters,
            align,
        })
    }

    #[tactic(auto, unfolding(gd_grammar::specs::LookBytes::if_set, gd_grammar::specs::Readers::steps))]
    fn set_colour(&mut self) -> Result<Option<u32>, FieldFault>
        ensures { Gives (λ part. (part, self.new)) result (if_set colour_at self.old) }
    {
        if_set!(self, colour)
    }

    #[tactic(auto, unfolding(gd_grammar::specs::LookBytes::if_set, gd_grammar::specs::Readers::steps))]
    fn set_fill(&mut self) -> Result<Option<Option<u32>>, FieldFault>
        ensures { Gives (λ part. (part, self.new)) result (if_set fill_at self.old) }
    {
        if_set!(self, fill)
    }

    #[tactic(auto, unfolding(gd_grammar::specs::LookBytes::if_set, gd_grammar::specs::Readers::steps))]
    fn set_thin(&mut self) -> Result<Option<u8>, FieldFault>
        ensures { Gives (λ part. (part, self.new)) result (if_set thin_at self.old) }
    {
        if_set!(self, thin)
    }

    #[tactic(auto, unfolding(gd_grammar::specs::LookBytes::if_set, gd_grammar::specs::Readers::steps))]
    fn set_dash(&mut self) -> Result<Option<Dash>, FieldFault>
        ensures { Gives (λ part. (part, self.new)) result (if_set dash_at self.old) }
    {
        if_set!(self, dash)
    }

    #[tactic(auto, unfolding(gd_grammar::specs::LookBytes::if_set, gd_grammar::specs::Readers::steps))]
    fn set_heads(&mut self) -> Result<Option<Heads>, FieldFault>
        ensures { Gives (λ part. (part, self.new)) result (if_set heads_at self.old) }
    {
        if_set!(self, heads)
    }

    #[tactic(auto, unfolding(gd_grammar::specs::LookBytes::if_set, gd_grammar::specs::Readers::steps))]
    fn set_round(&mut self) -> Result<Option<Option<u32>>, FieldFault>
        ensures { Gives (λ part. (part, self.new)) result (if_set round_at self.old) }
    {
        if_set!(self, round)
    }

    #[tactic(auto, unfolding(gd_grammar::specs::LookBytes::if_set, gd_grammar::specs::Readers::steps))]
    fn set_opacity(&mut self) -> Result<Option<u8>, FieldFault>
        ensures { Gives (λ part. (part, self.new)) result (if_set opacity_at self.old) }
    {
        if_set!(self, opacity)
    }

    #[tactic(auto, unfolding(gd_grammar::specs::LookBytes::if_set, gd_grammar::specs::Readers::steps))]
    fn set_letters(&mut self) -> Result<Option<Option<u16>>, FieldFault>
        ensures { Gives (λ part. (part, self.new)) result (if_set letters_at self.old) }
    {
        if_set!(self, letters)
    }

    #[tactic(auto, unfolding(gd_grammar::specs::LookBytes::if_set, gd_grammar::specs::Readers::steps))]
    fn set_align(&mut self) -> Result<Option<Option<Align>>, FieldFault>
        ensures { Gives (λ part. (part, self.new)) result (if_set align_at self.old) }
    {
        if_set!(self, align)
    }

    /// A width, in one byte.
    #[tactic(auto, unfolding(gd_grammar::specs::LookBytes::thin_at, gd_grammar::specs::Readers::steps))]
    fn thin(&mut self) -> Result<u8, FieldFault>
        ensures { Gives (λ width. (width, self.new)) result (thin_at self.old) }
    {
        let fault = self.fault(FieldWhy::Field);
        let width = self.byte()?;
        if width < 1 || width > WIDTH_LIMIT {
            return Err(fault);
        }
        Ok(width)
    }

    #[tactic(auto, unfolding(gd_grammar::specs::LookBytes::dash_at, gd_grammar::specs::Readers::steps))]
    fn dash(&mut self) -> Result<Dash, FieldFault>
        ensures { Gives (λ dash. (dash, self.new)) result (dash_at self.old) }
    {
        let fault = self.fault(FieldWhy::Field);
        match self.byte()? {
            0 => Ok(Dash::Solid),
            1 => Ok(Dash::Dashed),
            2 => Ok(Dash::Dotted),
            _ => Err(fault),
        }
    }

    #[tactic(auto, unfolding(gd_grammar::specs::LookBytes::heads_at, gd_grammar::specs::Readers::steps))]
    fn heads(&mut self) -> Result<Heads, FieldFault>
        ensures { Gives (λ heads. (heads, self.new)) result (heads_at self.old) }
    {
        let fault = self.fault(FieldWhy::Field);
        match self.byte()? {
            0 => Ok(Heads::Bare),
            1 => Ok(Heads::AtEnd),
            2 => Ok(Heads::AtStart),
            3 => Ok(Heads::AtBoth),
            _ => Err(fault),
        }
    }

    /// A number of four bytes, or FFFFFFFF for none.
    #[tactic(auto, unfolding(gd_grammar::specs::LookBytes::round_at, gd_grammar::specs::Readers::steps))]
    fn round(&mut self) -> Result<Option<u32>, FieldFault>
        ensures { Gives (λ round. (round, self.new)) result (round_at self.old) }
    {
        let fault = self.fault(FieldWhy::Field);
        let word = self.word()?;
        if word == NO_FILL {
            return Ok(None);
        }
        if word > ROUND_LIMIT {
            return Err(fault);
        }
        Ok(Some(word))
    }

    #[tactic(auto, unfolding(gd_grammar::specs::LookBytes::opacity_at, gd_grammar::specs::Readers::steps))]
    fn opacity(&mut self) -> Result<u8, FieldFault>
        ensures { Gives (λ opacity. (opacity, self.new)) result (opacity_at self.old) }
    {
        let fault = self.fault(FieldWhy::Field);
        let opacity = self.byte()?;
        if opacity < 1 || opacity > OPACITY_LIMIT {
            return Err(fault);
        }
        Ok(opacity)
    }

    /// A number of two bytes, or 0 for none.
    #[tactic(auto, unfolding(gd_grammar::specs::LookBytes::letters_at, gd_grammar::specs::Readers::steps))]
    fn letters(&mut self) -> Result<Option<u16>, FieldFault>
        ensures { Gives (λ letters. (letters, self.new)) result (letters_at self.old) }
    {
        let fault = self.fault(FieldWhy::Field);
        let half = self.half()?;
        if half == 0 {
            return Ok(None);
        }
        if half > LETTERS_LIMIT {
            return Err(fault);
        }
        Ok(Some(half))
    }

    #[tactic(auto, unfolding(gd_grammar::specs::LookBytes::align_at, gd_grammar::specs::Readers::steps))]
    fn align(&mut self) -> Result<Option<Align>, FieldFault>
        ensures { Gives (λ align. (align, self.new)) result (align_at self.old) }
    {
        let fault = self.fault(FieldWhy::Field);
        match self.byte()? {
            0 => Ok(None),
            1 => Ok(Some(Align::Start)),
            2 => Ok(Some(Align::Middle)),
            3 => Ok(Some(Align::End)),
            _ => Err(fault),
        }
    }
}

/// Whether something is set, and not as a lone stroke, fill or width.
fn is_style(looks: &Looks) -> bool
    ensures { result ≡ is_style looks.now }
{
    looks.has_look() && lone_part(looks).is_none()
}

/// A stroke, a fill or a width that is set alone.
#[derive(Clone, Copy)]
enum Lone {
    Stroke(u32),
    Fill(Option<u32>),
    Width(u8),
}

/// The part that is set alone, if one is.
fn lone_part(looks: &Looks) -> Option<Lone>
    ensures { option_map lone_bytes result ≡ lone looks.now }
{
    if looks.has_mark() {
        return None;
    }
    lone_by(looks.stroke, looks.fill, looks.width)
}

fn lone_by(stroke: Option<u32>, fill: Option<Option<u32>>, width: Option<u8>) -> Option<Lone>
    ensures { option_map lone_bytes result ≡ lone_by stroke fill width }
{
    match stroke {
        Some(stroke) => match fill {
            Some(_) => None,
            None => match width {
                Some(_) => None,
                None => Some(Lone::Stroke(stroke)),
            },
        },
        None => match fill {
            Some(fill) => match width {
                Some(_) => None,
                None => Some(Lone::Fill(fill)),
            },
            None => match width {
                Some(width) => Some(Lone::Width(width)),
                None => None,
            },
        },
    }
}

/// The tag of an operation that sets these looks.
pub(crate) fn looks_tag(looks: &Looks) -> u8
    ensures { result ≡ looks_tag (lone looks.now) }
{
    match lone_part(looks) {
        Some(_) => 5,
        None => 15,
    }
}

impl EventBytes {
    /// All parts of a look.
    pub(crate) fn put_look(&mut self, look: &Look)
        requires { length self.old + 19 ≤ EVENT_BYTES }
        ensures bytes { self.new ≡ self.old ++ look_bytes look.now }
        ensures grown { length self.new ≡ length self.old + 19 }
    {
        self.put_word(look.stroke);
        self.put_fill(look.fill);
        self.put_byte(look.width);
        self.put_byte(dash_byte(look.dash));
        self.put_byte(heads_byte(look.heads));
        self.put_round(look.round);
        self.put_byte(look.opacity);
        self.put_letters(look.letters);
        self.put_byte(align_byte(look.align));
    }

    /// What is set of a look: a lone part by its number and its value, else each part behind whether it is set.
    pub(crate) fn put_looks(&mut self, looks: &Looks)
        requires { length self.old + 28 ≤ EVENT_BYTES }
        ensures { self.new ≡ self.old ++ lone_or (lone looks.now) (looks_bytes looks.now) }
    {
        match lone_part(looks) {
            Some(part) => self.put_lone(part),
            None => self.put_all_looks(looks),
        }
    }

    fn put_lone(&mut self, part: Lone)
        requires { length self.old + 5 ≤ EVENT_BYTES }
        ensures { self.new ≡ self.old ++ lone_bytes part }
    {
        match part {
            Lone::Stroke(stroke) => {
                self.put_byte(1);
                self.put_word(stroke);
            }
            Lone::Fill(fill) => {
                self.put_byte(2);
                self.put_fill(fill);
            }
            Lone::Width(width) => {
                self.put_byte(3);
                self.put_word(width as u32);
            }
        }
    }

    fn put_all_looks(&mut self, looks: &Looks)
        requires { length self.old + 28 ≤ EVENT_BYTES }
        ensures { self.new ≡ self.old ++ looks_bytes looks.now }
    {
        self.put_set_word(looks.stroke);
        self.put_set_fill(looks.fill);
        self.put_set_byte(looks.width);
        self.put_set_dash(looks.dash);
        self.put_set_heads(looks.heads);
        self.put_set_round(looks.round);
        self.put_set_byte(looks.opacity);
        self.put_set_letters(looks.letters);
        self.put_set_align(looks.align);
    }

    fn put_set_word(&mut self, word: Option<u32>)
        requires { length self.old + 5 ≤ EVENT_BYTES }
        ensures bytes { self.new ≡ self.old ++ set_bytes word_bytes word }
        ensures grown { length self.new ≤ length self.old + 5 }
    {
        put_set!(self, word, value => self.put_word(value))
    }

    fn put_set_fill(&mut self, fill: Option<Option<u32>>)
        requires { length self.old + 5 ≤ EVENT_BYTES }
        ensures bytes { self.new ≡ self.old ++ set_bytes fill_bytes fill }
        ensures grown { length self.new ≤ length self.old + 5 }
    {
        put_set!(self, fill, value => self.put_fill(value))
    }

    fn put_set_byte(&mut self, byte: Option<u8>)
        requires { length self.old + 2 ≤ EVENT_BYTES }
        ensures bytes { self.new ≡ self.old ++ set_bytes (single (λ n. n)) byte }
        ensures grown { length self.new ≤ length self.old + 2 }
    {
        put_set!(self, byte, value => self.put_byte(value))
    }

    fn put_set_dash(&mut self, dash: Option<Dash>)
        requires { length self.old + 2 ≤ EVENT_BYTES }
        ensures bytes { self.new ≡ self.old ++ set_bytes (single dash_byte) dash }
        ensures grown { length self.new ≤ length self.old + 2 }
    {
        put_set!(self, dash, value => self.put_byte(dash_byte(value)))
    }

    fn put_set_heads(&mut self, heads: Option<Heads>)
        requires { length self.old + 2 ≤ EVENT_BYTES }
        ensures bytes { self.new ≡ self.old ++ set_bytes (single heads_byte) heads }
        ensures grown { length self.new ≤ length self.old + 2 }
    {
        put_set!(self, heads, value => self.put_byte(heads_byte(value)))
    }

    fn put_set_round(&mut self, round: Option<Option<u32>>)
        requires { length self.old + 5 ≤ EVENT_BYTES }
        ensures bytes { self.new ≡ self.old ++ set_bytes round_bytes round }
        ensures grown { length self.new ≤ length self.old + 5 }
    {
        put_set!(self, round, value => self.put_round(value))
    }

    fn put_set_letters(&mut self, letters: Option<Option<u16>>)
        requires { length self.old + 3 ≤ EVENT_BYTES }
        ensures bytes { self.new ≡ self.old ++ set_bytes letters_bytes letters }
        ensures grown { length self.new ≤ length self.old + 3 }
    {
        put_set!(self, letters, value => self.put_letters(value))
    }

    fn put_set_align(&mut self, align: Option<Option<Align>>)
        requires { length self.old + 2 ≤ EVENT_BYTES }
        ensures bytes { self.new ≡ self.old ++ set_bytes (single align_byte) align }
        ensures grown { length self.new ≤ length self.old + 2 }
    {
        put_set!(self, align, value => self.put_byte(align_byte(value)))
    }

    fn put_round(&mut self, round: Option<u32>)
        requires { length self.old + 4 ≤ EVENT_BYTES }
        ensures bytes { self.new ≡ self.old ++ round_bytes round }
        ensures grown { length self.new ≡ length self.old + 4 }
    {
        match round {
            Some(round) => self.put_word(round),
            None => self.put_word(NO_FILL),
        }
    }

    fn put_letters(&mut self, letters: Option<u16>)
        requires { length self.old + 2 ≤ EVENT_BYTES }
        ensures bytes { self.new ≡ self.old ++ letters_bytes letters }
        ensures grown { length self.new ≡ length self.old + 2 }
    {
        match letters {
            Some(letters) => self.put_number(letters),
            None => self.put_number(0),
        }
    }
}

fn dash_byte(dash: Dash) -> u8
    ensures { result ≡ dash_byte dash }
{
    match dash {
        Dash::Solid => 0,
        Dash::Dashed => 1,
        Dash::Dotted => 2,
    }
}

fn heads_byte(heads: Heads) -> u8
    ensures { result ≡ heads_byte heads }
{
    match heads {
        Heads::Bare => 0,
        Heads::AtEnd => 1,
        Heads::AtStart => 2,
        Heads::AtBoth => 3,
    }
}

fn align_byte(align: Option<Align>) -> u8
    ensures { result ≡ align_byte align }
{
    match align {
        None => 0,
        Some(Align::Start) => 1,
        Some(Align::Middle) => 2,
        Some(Align::End) => 3,
    }
}
