//! The fields that drawings and events have in common. An id, a kind and a colour are strings, as in the printed lines;
//! no parent and no fill are null.

ghost use Rattle.std.specs.Prelude.{◌≡◌, OnOk, codes, decimal, true};
ghost use Rattle.std.specs.Fmt.{signed_decimal};
ghost use Rattle.gd_export.specs.Texts.{is_quiet};
ghost use Rattle.gd_json.specs.Parts.{colour_json, colour_or_null, dash_json, heads_json, id_json, id_or_null};
ghost use Rattle.gd_json.specs.Parts.{kind_json, two};
ghost use Rattle.gd_base.specs.Labels.{IsLabel};
ghost use Rattle.gd_json.specs.EventsJson.{both_fields};
ghost use Rattle.gd_lines.specs.Text.{align_word};
ghost use Rattle.gd_json.specs.Values.{flag, plain, put_all, put_field, quoted};

use crate::texts::{colour_of, id_of, kind_of};
use crate::values::{Fields, Items, Json};
use gd_base::{Align, Dash, Ends, Heads, Shape, Stamp};
use std::alloc::AllocError;

impl Fields {
    pub fn integer(&mut self, key: &str, n: i32) -> Result<(), AllocError>
        requires { is_quiet key.now ≡ true }
        ensures { OnOk result (self.new ≡ put_field self.old (key.now, signed_decimal n)) }
    {
        self.put(key, Json::integer(i64::from(n)))
    }

    pub fn count(&mut self, key: &str, n: u64) -> Result<(), AllocError>
        requires { is_quiet key.now ≡ true }
        ensures { OnOk result (self.new ≡ put_field self.old (key.now, decimal n)) }
    {
        self.put(key, Json::count(n))
    }

    pub fn flag(&mut self, key: &str, is_set: bool) -> Result<(), AllocError>
        requires { is_quiet key.now ≡ true }
        ensures { OnOk result (self.new ≡ put_field self.old (key.now, flag is_set)) }
    {
        self.put(key, Json::flag(is_set))
    }

    /// A word that needs no marks.
    #[tactic(auto, using(crate::proofs::Marks::quiet_text))]
    pub fn word(&mut self, key: &str, word: &str) -> Result<(), AllocError>
        requires key { is_quiet key.now ≡ true }
        requires word { is_quiet word.now ≡ true }
        ensures { OnOk result (self.new ≡ put_field self.old (key.now, plain word.now)) }
    {
        let text = String::from_str(self.alloc(), word)?;
        self.put(key, Json::plain(text))
    }

    pub fn label(&mut self, key: &str, label: &str) -> Result<(), AllocError>
        requires key { is_quiet key.now ≡ true }
        requires label { IsLabel label.now }
        ensures { OnOk result (self.new ≡ put_field self.old (key.now, quoted label.now)) }
    {
        let label = Json::label(self.alloc(), label)?;
        self.put(key, label)
    }

    #[tactic(auto, using(crate::proofs::Marks::quiet_kind))]
    pub fn kind(&mut self, key: &str, kind: Shape) -> Result<(), AllocError>
        requires { is_quiet key.now ≡ true }
        ensures { OnOk result (self.new ≡ put_field self.old (key.now, kind_json kind)) }
    {
        let text = String::from_str(self.alloc(), kind_of(kind))?;
        self.put(key, Json::plain(text))
    }

    #[tactic(auto, using(crate::proofs::Marks::quiet_id))]
    pub fn id(&mut self, key: &str, id: Stamp) -> Result<(), AllocError>
        requires { is_quiet key.now ≡ true }
        ensures { OnOk result (self.new ≡ put_field self.old (key.now, id_json id)) }
    {
        let text = id_of(self.alloc(), id)?;
        self.put(key, Json::plain(text))
    }

    pub fn parent(&mut self, key: &str, parent: Option<Stamp>) -> Result<(), AllocError>
        requires { is_quiet key.now ≡ true }
        ensures { OnOk result (self.new ≡ put_field self.old (key.now, id_or_null parent)) }
    {
        match parent {
            None => self.put(key, Json::null()),
            Some(id) => self.id(key, id),
        }
    }

    #[tactic(auto, using(crate::proofs::Marks::quiet_colour))]
    pub fn colour(&mut self, key: &str, colour: u32) -> Result<(), AllocError>
        requires { is_quiet key.now ≡ true }
        ensures { OnOk result (self.new ≡ put_field self.old (key.now, colour_json colour)) }
    {
        let text = colour_of(self.alloc(), colour)?;
        self.put(key, Json::plain(text))
    }

    pub fn fill(&mut self, key: &str, fill: Option<u32>) -> Result<(), AllocError>
        requires { is_quiet key.now ≡ true }
        ensures { OnOk result (self.new ≡ put_field self.old (key.now, colour_or_null fill)) }
    {
        match fill {
            None => self.put(key, Json::null()),
            Some(colour) => self.colour(key, colour),
        }
    }

    /// An array of two numbers.
    pub fn two(&mut self, key: &str, x: i64, y: i64) -> Result<(), AllocError>
        requires { is_quiet key.now ≡ true }
        ensures { OnOk result (self.new ≡ put_field self.old (key.now, two x y)) }
    {
        let mut items = Items::new(self.alloc());
        items.push(Json::integer(x))?;
        items.push(Json::integer(y))?;
        self.put(key, items.close())
    }

    /// The same of smaller numbers.
    pub fn pair(&mut self, key: &str, x: i32, y: i32) -> Result<(), AllocError>
        requires { is_quiet key.now ≡ true }
        ensures { OnOk result (self.new ≡ put_field self.old (key.now, two x y)) }
    {
        self.two(key, i64::from(x), i64::from(y))
    }

    pub fn dash(&mut self, dash: Dash) -> Result<(), AllocError>
        ensures { OnOk result (self.new ≡ put_field self.old (codes "dash", dash_json dash)) }
    {
        match dash {
            Dash::Solid => self.word("dash", "solid"),
            Dash::Dashed => self.word("dash", "dashed"),
            Dash::Dotted => self.word("dash", "dotted"),
        }
    }

    pub fn heads(&mut self, heads: Heads) -> Result<(), AllocError>
        ensures { OnOk result (self.new ≡ put_field self.old (codes "heads", heads_json heads)) }
    {
        match heads {
            Heads::Bare => self.word("heads", "none"),
            Heads::AtEnd => self.word("heads", "end"),
            Heads::AtStart => self.word("heads", "start"),
            Heads::AtBoth => self.word("heads", "both"),
        }
    }

    pub fn align(&mut self, align: Align) -> Result<(), AllocError>
        ensures { OnOk result (self.new
            ≡ put_field self.old (codes "align", plain (align_word align))) }
    {
        match align {
            Align::Start => self.word("align", "start"),
            Align::Middle => self.word("align", "middle"),
            Align::End => self.word("align", "end"),
        }
    }

    /// The ends of a connector.
    pub fn both(&mut self, ends: Ends) -> Result<(), AllocError>
        ensures { OnOk result (self.new ≡ put_all self.old (both_fields ends)) }
    {
        self.id("from", ends.from)?;
        self.id("to", ends.to)
    }
}
