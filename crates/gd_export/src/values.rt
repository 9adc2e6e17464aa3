//! JSON as values whose text is known.

ghost use Rattle.std.specs.Prelude.{◌≡◌, ◌++◌, ◌∷◌, [], IfOk, OnOk, decimal, string_bytes, true};
ghost use Rattle.std.specs.Fmt.{signed_decimal};
ghost use Rattle.gd_export.specs.Texts.{is_quiet};
ghost use Rattle.gd_json.specs.Values.{array, flag, null, object, plain, put_field, quoted};
ghost use Rattle.json.specs.Print.{escape};
ghost use Rattle.gd_base.specs.Labels.{IsLabel};

use serde_json::{Map, Value, push, put};
use std::alloc::{AllocError, Global};
use std::marker::Model;

/// A value without a float, which contracts see as its text.
#[derive(Drop)]
pub struct Json {
    value: Value,
}

impl Model for Json {
    ghost use Rattle.std.specs.Prelude.{◌≡◌, ℕ, List, false};
    ghost use Rattle.serde_json.specs.View as seen;
    ghost use Rattle.serde_json.specs.Written.{compact_text, has_float};

    ghost Value = { List ℕ };

    ghost view = { λ j. compact_text (seen.view j.value) };

    ghost invariant = { λ j. has_float (seen.view j.value) ≡ false };
}

impl Json {
    pub fn null() -> Self
        ensures { result ≡ null }
    {
        Json { value: Value::Null }
    }

    pub fn flag(is_set: bool) -> Self
        ensures { result ≡ flag is_set }
    {
        Json {
            value: Value::Bool(is_set),
        }
    }

    #[tactic(auto, using(crate::proofs::Spelled::integers))]
    pub fn integer(n: i64) -> Self
        ensures { result ≡ signed_decimal n }
    {
        Json {
            value: Value::from(n),
        }
    }

    pub fn count(n: u64) -> Self
        ensures { result ≡ decimal n }
    {
        Json {
            value: Value::from(n),
        }
    }

    /// A string of a text that needs no marks.
    pub fn plain(text: String) -> Self
        requires { escape (string_bytes text) ≡ string_bytes text }
        ensures { result ≡ plain (string_bytes text) }
    {
        Json {
            value: Value::from(text),
        }
    }

    #[tactic(auto, using(crate::proofs::Marks::label_marks))]
    pub fn label(alloc: Global, label: &str) -> Result<Self, AllocError>
        requires { IsLabel label.now }
        ensures { IfOk result (λ json. json ≡ quoted label.now) }
    {
        Ok(Json {
            value: Value::try_from_str(alloc, label)?,
        })
    }

    pub fn to_text(&self, alloc: Global) -> Result<String, AllocError>
        ensures { IfOk result (λ text. string_bytes text ≡ self.now) }
    {
        self.value.to_string(alloc)
    }
}

/// The items of an array, which contracts see as their texts.
#[derive(Drop)]
pub struct Items {
    values: Vec<Value>,
}

impl Model for Items {
    ghost use Rattle.std.specs.Prelude.{◌≡◌, ℕ, List, false};
    ghost use Rattle.serde_json.specs.View.{items_view};
    ghost use Rattle.serde_json.specs.Written.{items_have_float};
    ghost use Rattle.gd_export.specs.Texts.{texts_of};

    ghost Value = { List (List ℕ) };

    ghost view = { λ l. texts_of (items_view l.values.items) };

    ghost invariant = { λ l. items_have_float (items_view l.values.items) ≡ false };
}

impl Items {
    #[tactic(auto, unfolding(crate::specs::Texts::texts_of))]
    pub fn new(alloc: Global) -> Self
        ensures { result ≡ [] }
    {
        Items {
            values: Vec::new(alloc),
        }
    }

    /// Puts an item last.
    #[tactic(auto, using(crate::proofs::Spelled::items))]
    pub fn push(&mut self, item: Json) -> Result<(), AllocError>
        ensures { OnOk result (self.new ≡ self.old ++ item ∷ []) }
    {
        let Json { value } = item;
        push(&mut self.values, value)?;
        Ok(())
    }

    #[tactic(auto, using(crate::proofs::Spelled::arrays))]
    pub fn close(self) -> Json
        ensures { result ≡ array self }
    {
        Json {
            value: Value::Array(self.values),
        }
    }
}

/// The fields of an object, which contracts see as their keys and texts.
#[derive(Drop)]
pub struct Fields {
    alloc: Global,
    values: Map<String, Value>,
}

impl Model for Fields {
    ghost use Rattle.std.specs.Prelude.{◌≡◌, List, true};
    ghost use Rattle.serde_json.specs.View.{members_view};
    ghost use Rattle.gd_json.specs.Values.{Field};
    ghost use Rattle.gd_export.specs.Texts.{fields_of, is_written};

    ghost Value = { List Field };

    ghost view = { λ o. fields_of (members_view o.values.entries) };

    ghost invariant = { λ o. is_written (members_view o.values.entries) ≡ true };
}

impl Fields {
    #[tactic(auto, unfolding(crate::specs::Texts::fields_of, crate::specs::Texts::is_written))]
    pub fn new(alloc: Global) -> Self
        ensures { result ≡ [] }
    {
        Fields {
            alloc,
            values: Map::new(alloc),
        }
    }

    pub fn alloc(&self) -> Global {
        self.alloc
    }

    /// Puts a field in its place in the order of the keys. The key needs no marks.
    #[tactic(auto, using(crate::proofs::Spelled::fields))]
    pub fn put(&mut self, key: &str, json: Json) -> Result<(), AllocError>
        requires { is_quiet key.now ≡ true }
        ensures { OnOk result (self.new ≡ put_field self.old (key.now, json)) }
    {
        let Json { value } = json;
        put(&mut self.values, self.alloc, key, value)?;
        Ok(())
    }

    #[tactic(auto, using(crate::proofs::Spelled::objects))]
    pub fn close(self) -> Json
        ensures { result ≡ object self }
    {
        Json {
            value: Value::Object(self.values),
        }
    }
}
