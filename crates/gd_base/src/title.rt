ghost use Rattle.std.specs.Prelude.{◌≡◌, [], IsSome, IfSome, ◌↔◌};
ghost use Rattle.gd_base.specs.Labels.{IsTitle};

use crate::label;
use arrayvec::ArrayString;
use std::marker::Model;

/// A text of at most 200 bytes without control characters, which contracts see as its bytes.
#[derive(Drop)]
pub struct Title {
    text: ArrayString<200>,
}

impl Model for Title {
    ghost use Rattle.std.specs.Prelude.{ℕ, List};

    ghost Value = { List ℕ };

    ghost use Rattle.gd_base.specs.Labels.{IsTitle};

    ghost view = { λ l. l.text.bytes };

    ghost invariant = { λ l. IsTitle l.text.bytes };
}

impl Default for Title {
    ghost is_default = { λ title. title ≡ [] };

    /// The title of no bytes.
    fn default() -> Self {
        Title {
            text: ArrayString::new(),
        }
    }
}

impl Title {
    /// None exactly above 200 bytes, or where a control character stands.
    pub fn new(text: &str) -> Option<Self>
        ensures value { IfSome result (λ title. title ≡ text.now) }
        ensures title { IsSome result ↔ IsTitle text.now }
    {
        let Ok(kept) = ArrayString::from(text) else {
            return None;
        };
        if label::contains_control(text) {
            return None;
        }
        Some(Title { text: kept })
    }

    pub fn as_str(&self) -> &str
        ensures text { result.now ≡ self.now }
        ensures title { IsTitle self.now }
    {
        self.text.as_str()
    }

    pub fn copy(&self) -> Self
        ensures { result ≡ self.now }
    {
        Title { text: self.text }
    }
}
