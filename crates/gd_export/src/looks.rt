//! The fields of looks. Of how something looks these are a stroke, a fill and a width, and what else
//! isn't as it is made; of what is set these are the parts that are.

ghost use Rattle.std.specs.Prelude.{◌≡◌, OnOk, codes, decimal, true};
ghost use Rattle.gd_export.specs.Texts.{is_quiet};
ghost use Rattle.gd_json.specs.EventsJson.{looks_fields, part_field};
ghost use Rattle.gd_json.specs.Parts.{align_field, align_or_null, colour_json, colour_or_null, dash_field, dash_json};
ghost use Rattle.gd_json.specs.Parts.{heads_field, heads_json};
ghost use Rattle.gd_json.specs.Parts.{letters_field, number_or_null, opacity_field, round_field, style_fields};
ghost use Rattle.gd_json.specs.Values.{put_all, put_field};

use crate::values::{Fields, Json};
use gd_base::{Align, Dash, Heads, Look, Looks, OPACITY_LIMIT};
use std::alloc::AllocError;

impl Fields {
    /// How something looks.
    pub fn look(&mut self, look: &Look) -> Result<(), AllocError>
        ensures { OnOk result (self.new ≡ put_all self.old (style_fields look.now)) }
    {
        self.colour("stroke", look.stroke)?;
        self.fill("fill", look.fill)?;
        self.byte("width", look.width)?;
        self.own_dash(look.dash)?;
        self.own_heads(look.heads)?;
        self.own_round(look.round)?;
        self.own_opacity(look.opacity)?;
        self.own_letters(look.letters)?;
        self.own_align(look.align)?;
        Ok(())
    }

    fn byte(&mut self, key: &str, n: u8) -> Result<(), AllocError>
        requires { is_quiet key.now ≡ true }
        ensures { OnOk result (self.new ≡ put_field self.old (key.now, decimal n)) }
    {
        self.count(key, u64::from(n))
    }

    fn own_dash(&mut self, dash: Dash) -> Result<(), AllocError>
        ensures { OnOk result (self.new ≡ put_all self.old (dash_field dash)) }
    {
        match dash {
            Dash::Solid => Ok(()),
            Dash::Dashed => self.dash(Dash::Dashed),
            Dash::Dotted => self.dash(Dash::Dotted),
        }
    }

    fn own_heads(&mut self, heads: Heads) -> Result<(), AllocError>
        ensures { OnOk result (self.new ≡ put_all self.old (heads_field heads)) }
    {
        match heads {
            Heads::Bare => Ok(()),
            Heads::AtEnd => self.heads(Heads::AtEnd),
            Heads::AtStart => self.heads(Heads::AtStart),
            Heads::AtBoth => self.heads(Heads::AtBoth),
        }
    }

    fn own_round(&mut self, round: Option<u32>) -> Result<(), AllocError>
        ensures { OnOk result (self.new ≡ put_all self.old (round_field round)) }
    {
        match round {
            Some(n) => self.count("round", u64::from(n)),
            None => Ok(()),
        }
    }

    fn own_opacity(&mut self, opacity: u8) -> Result<(), AllocError>
        ensures { OnOk result (self.new ≡ put_all self.old (opacity_field opacity)) }
    {
        if opacity == OPACITY_LIMIT {
            Ok(())
        } else {
            self.byte("opacity", opacity)
        }
    }

    fn own_letters(&mut self, letters: Option<u16>) -> Result<(), AllocError>
        ensures { OnOk result (self.new ≡ put_all self.old (letters_field letters)) }
    {
        match letters {
            Some(n) => self.count("letters", u64::from(n)),
            None => Ok(()),
        }
    }

    fn own_align(&mut self, align: Option<Align>) -> Result<(), AllocError>
        ensures { OnOk result (self.new ≡ put_all self.old (align_field align)) }
    {
        match align {
            Some(align) => self.align(align),
            None => Ok(()),
        }
    }

    /// The parts of a look that are set.
    pub fn looks(&mut self, looks: &Looks) -> Result<(), AllocError>
        ensures { OnOk result (self.new ≡ put_all self.old (looks_fields looks.now)) }
    {
        self.set_stroke(looks.stroke)?;
        self.set_fill(looks.fill)?;
        self.set_byte("width", looks.width)?;
        self.set_dash(looks.dash)?;
        self.set_heads(looks.heads)?;
        self.set_round(looks.round)?;
        self.set_byte("opacity", looks.opacity)?;
        self.set_letters(looks.letters)?;
        self.set_align(looks.align)?;
        Ok(())
    }

    fn set_stroke(&mut self, stroke: Option<u32>) -> Result<(), AllocError>
        ensures { OnOk result (self.new
            ≡ put_all self.old (part_field (codes "stroke") colour_json stroke)) }
    {
        match stroke {
            Some(stroke) => self.colour("stroke", stroke),
            None => Ok(()),
        }
    }

    fn set_fill(&mut self, fill: Option<Option<u32>>) -> Result<(), AllocError>
        ensures { OnOk result (self.new
            ≡ put_all self.old (part_field (codes "fill") colour_or_null fill)) }
    {
        match fill {
            Some(fill) => self.fill("fill", fill),
            None => Ok(()),
        }
    }

    fn set_byte(&mut self, key: &str, n: Option<u8>) -> Result<(), AllocError>
        requires { is_quiet key.now ≡ true }
        ensures { OnOk result (self.new ≡ put_all self.old (part_field key.now decimal n)) }
    {
        match n {
            Some(n) => self.byte(key, n),
            None => Ok(()),
        }
    }

    fn set_dash(&mut self, dash: Option<Dash>) -> Result<(), AllocError>
        ensures { OnOk result (self.new
            ≡ put_all self.old (part_field (codes "dash") dash_json dash)) }
    {
        match dash {
            Some(dash) => self.dash(dash),
            None => Ok(()),
        }
    }

    fn set_heads(&mut self, heads: Option<Heads>) -> Result<(), AllocError>
        ensures { OnOk result (self.new
            ≡ put_all self.old (part_field (codes "heads") heads_json heads)) }
    {
        match heads {
            Some(heads) => self.heads(heads),
            None => Ok(()),
        }
    }

    fn set_round(&mut self, round: Option<Option<u32>>) -> Result<(), AllocError>
        ensures { OnOk result (self.new
            ≡ put_all self.old (part_field (codes "round") number_or_null round)) }
    {
        match round {
            Some(Some(n)) => self.count("round", u64::from(n)),
            Some(None) => self.put("round", Json::null()),
            None => Ok(()),
        }
    }

    fn set_letters(&mut self, letters: Option<Option<u16>>) -> Result<(), AllocError>
        ensures { OnOk result (self.new
            ≡ put_all self.old (part_field (codes "letters") number_or_null letters)) }
    {
        match letters {
            Some(Some(n)) => self.count("letters", u64::from(n)),
            Some(None) => self.put("letters", Json::null()),
            None => Ok(()),
        }
    }

    fn set_align(&mut self, align: Option<Option<Align>>) -> Result<(), AllocError>
        ensures { OnOk result (self.new
            ≡ put_all self.old (part_field (codes "align") align_or_null align)) }
    {
        match align {
            Some(Some(align)) => self.align(align),
            Some(None) => self.put("align", Json::null()),
            None => Ok(()),
        }
    }
}
