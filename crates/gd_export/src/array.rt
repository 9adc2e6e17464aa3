//! An array of JSON that is written item by item, so that of all that takes memory its text alone grows with it.

ghost use Rattle.std.specs.Prelude.{◌≡◌, ◌++◌, ◌∷◌, [], codes, IfOk, OnOk, List, ℕ, false, string_bytes};
ghost use Rattle.gd_json.specs.Values.{array};
ghost use Rattle.gd_export.specs.Begun.{IsBegun, separator};

use crate::values::Json;
use std::alloc::{AllocError, Global};
use std::marker::Model;

/// A line of JSON with its LF, which contracts see as its bytes.
#[derive(Drop)]
pub struct JsonText {
    text: String,
}

impl Model for JsonText {
    ghost use Rattle.std.specs.Prelude.{ℕ, List, string_bytes};

    ghost Value = { List ℕ };

    ghost view = { λ t. string_bytes t.text };
}

impl JsonText {
    pub fn as_str(&self) -> &str
        ensures { result.now ≡ self.now }
    {
        self.text.as_str()
    }
}

/// An array that isn't closed yet.
#[derive(Drop)]
pub struct ArrayText {
    text: String,
    is_empty: bool,
}

impl ArrayText {
    /// The array of no items.
    pub fn new(alloc: Global) -> Result<Self, AllocError>
        ensures { IfOk result (λ a. IsBegun a []) }
    {
        let mut text = String::new(alloc);
        text.push('[')?;
        Ok(ArrayText {
            text,
            is_empty: true,
        })
    }

    /// Puts a value last. After an `AllocError` the array is of no use.
    pub fn put(&mut self, alloc: Global, value: &Json) -> Result<(), AllocError>
        ensures { (texts : List (List ℕ)) → IsBegun self.old texts
            → OnOk result (IsBegun self.new (texts ++ value.now ∷ [])) }
    {
        let text = value.to_text(alloc)?;
        self.separate()?;
        self.text.push_str(text.as_str())
    }

    /// Writes what stands in front of the next item.
    fn separate(&mut self) -> Result<(), AllocError>
        ensures text { OnOk result (string_bytes self.new.text
            ≡ string_bytes self.old.text ++ separator self.old.is_empty) }
        ensures next { OnOk result (self.new.is_empty ≡ false) }
    {
        if self.is_empty {
            self.is_empty = false;
            return Ok(());
        }
        self.text.push(',')
    }

    /// The closed array, and LF.
    pub fn into_line(self) -> Result<JsonText, AllocError>
        ensures { (texts : List (List ℕ)) → IsBegun self texts
            → IfOk result (λ line. line ≡ array texts ++ codes "\n") }
    {
        let mut text = self.text;
        text.push_str("]\n")?;
        Ok(JsonText { text })
    }
}
