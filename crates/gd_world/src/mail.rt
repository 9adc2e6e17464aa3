//! All frames that were ever sent.

ghost use Rattle.std.specs.Prelude.{◌≡◌, ◌++◌, ◌∷◌, [], ◌-◌, None, OnErr, OnOk, length, option_copied, slice_get};
ghost use Rattle.std.specs.Prelude.{nat_eq, if◌then◌else◌};

use gd_wire::Frame;
use std::alloc::{AllocError, Global};
use std::marker::Model;

/// Frames, which are numbered from 1. Contracts see the list of them.
#[derive(Drop)]
pub(crate) struct Mail {
    frames: Vec<Frame>,
}

impl Model for Mail {
    ghost use Rattle.std.specs.Prelude.{List};
    ghost use Rattle.gd_grammar.specs.FrameBytes.{Frame as FrameValue};

    ghost Value = { List FrameValue };

    ghost view = { λ m. m.frames.items };
}

impl Mail {
    /// No mail. It takes no memory.
    pub(crate) fn new(alloc: Global) -> Self
        ensures { result ≡ [] }
    {
        Mail {
            frames: Vec::new(alloc),
        }
    }

    /// Puts the frame last. `AllocError` where memory ran out, and then the mail is as it was.
    pub(crate) fn push(&mut self, frame: Frame) -> Result<(), AllocError>
        ensures ok { OnOk result (self.new ≡ self.old ++ frame ∷ []) }
        ensures err { OnErr result (self.new ≡ self.old) }
    {
        self.frames.push(frame)?;
        Ok(())
    }

    /// How many there are.
    pub(crate) fn len(&self) -> usize
        ensures { result ≡ length self.now }
    {
        self.frames.len()
    }

    /// The mail of that number, where there is one.
    pub(crate) fn get(&self, number: u32) -> Option<&Frame>
        ensures { option_copied result
            ≡ (if nat_eq number 0 then None else slice_get self.now (number - 1)) }
    {
        let place = number.checked_sub(1)?;
        self.frames.get(place as usize)
    }
}
