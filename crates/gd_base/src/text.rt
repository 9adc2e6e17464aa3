ghost use Rattle.std.specs.Prelude.{◌≡◌, [], IfOk};
ghost use Rattle.gd_base.specs.Labels.{IsLabel, is_title};

use crate::label::{Label, contains_control};
use arrayvec::ArrayString;
use std::alloc::{AllocError, Global};
use std::marker::Model;
use std::rc::RcStr;

/// A label as it is kept: a handle to one piece of memory of its length, which all that have the label share. That of
/// no bytes has none. Contracts see it as its bytes.
#[derive(Drop)]
pub struct Text {
    shared: Option<RcStr>,
}

impl Model for Text {
    ghost use Rattle.std.specs.Prelude.{ℕ, List, [], option_map, unwrap_or};
    ghost use Rattle.std.specs.Rc.{rc_str_bytes};

    ghost Value = { List ℕ };

    ghost use Rattle.gd_base.specs.Labels.{IsLabel};

    ghost view = { λ t. unwrap_or (option_map rc_str_bytes t.shared) [] };

    ghost invariant = { λ t. IsLabel (unwrap_or (option_map rc_str_bytes t.shared) []) };
}

impl Default for Text {
    ghost is_default = { λ text. text ≡ [] };

    /// That of no bytes. It takes no memory.
    fn default() -> Self {
        Text { shared: None }
    }
}

impl Text {
    /// A label in memory of its own. `AllocError` where memory ran out.
    pub fn new(alloc: Global, label: &Label) -> Result<Self, AllocError>
        ensures { IfOk result (λ text. text ≡ label.now) }
    {
        Text::from_str(alloc, label.as_str())
    }

    /// The same of a text that is a label.
    pub fn from_str(alloc: Global, text: &str) -> Result<Self, AllocError>
        requires { IsLabel text.now }
        ensures { IfOk result (λ t. t ≡ text.now) }
    {
        if text.is_empty() {
            return Ok(Text { shared: None });
        }
        let shared = RcStr::from_str(alloc, text)?;
        Ok(Text {
            shared: Some(shared),
        })
    }

    /// One more handle. It takes no memory; `AllocError` where there are as many as can be counted.
    pub fn share(&self) -> Result<Self, AllocError>
        ensures { IfOk result (λ text. text ≡ self.now) }
    {
        match &self.shared {
            Some(shared) => {
                let shared = shared.clone()?;
                Ok(Text {
                    shared: Some(shared),
                })
            }
            None => Ok(Text { shared: None }),
        }
    }

    pub fn as_str(&self) -> &str
        ensures text { result.now ≡ self.now }
        ensures label { IsLabel self.now }
    {
        match &self.shared {
            Some(shared) => shared.as_str(),
            None => "",
        }
    }
}

/// Whether it has at most 200 bytes and no line feed.
pub(crate) fn is_title(label: &Text) -> bool
    ensures { result ≡ is_title label.now }
{
    let text = label.as_str();
    text.len() <= 200 && !contains_control(text)
}
