//! Looks in the memory that they need.
ghost use Rattle.std.specs.Prelude.{◌≡◌, IfOk, IfSome};

use gd_base::Looks;
use std::alloc::{AllocError, Global};
use std::marker::Model;

/// What is set of a look, which contracts see as the looks. A lone stroke, fill or width, as most are, takes no memory
/// of its own.
#[derive(Drop)]
pub struct PackedLooks {
    kept: Packing,
}

#[derive(Drop)]
enum Packing {
    Width(u8),
    Stroke(u32),
    Fill(Option<u32>),
    Many(Box<Looks>),
}

impl Model for PackedLooks {
    ghost use Rattle.gd_base.specs.declared.look.Looks.{Looks};
    ghost use Rattle.gd_events.specs.PackedLooks.{packed_looks};

    ghost Value = { Looks };

    ghost view = { λ p. packed_looks p.kept };
}

impl PackedLooks {
    /// The looks packed. `AllocError` where memory ran out.
    pub fn new(alloc: Global, looks: &Looks) -> Result<PackedLooks, AllocError>
        ensures { IfOk result (λ packed. packed ≡ looks.now) }
    {
        if let Some(kept) = Packing::lone(looks) {
            return Ok(PackedLooks { kept });
        }
        let kept = Packing::Many(Box::new(alloc, *looks)?);
        Ok(PackedLooks { kept })
    }

    /// A copy of the packed looks. `AllocError` where memory ran out.
    pub fn copy(&self, alloc: Global) -> Result<PackedLooks, AllocError>
        ensures { IfOk result (λ packed. packed ≡ self.now) }
    {
        PackedLooks::new(alloc, &self.looks())
    }

    /// The looks, inline. It takes no memory.
    pub fn looks(&self) -> Looks
        ensures { result ≡ self.now }
    {
        match &self.kept {
            Packing::Width(width) => Looks::only_width(*width),
            Packing::Stroke(stroke) => Looks::only_stroke(*stroke),
            Packing::Fill(fill) => Looks::only_fill(*fill),
            Packing::Many(looks) => **looks,
        }
    }
}

impl Packing {
    ghost use Rattle.gd_events.specs.PackedLooks.{packed_looks};

    /// Looks of which a stroke, a fill or a width alone is set. None where that isn't so.
    fn lone(looks: &Looks) -> Option<Packing>
        ensures { IfSome result (λ kept. packed_looks kept ≡ looks.now) }
    {
        if looks.has_mark() {
            return None;
        }
        match (looks.stroke, looks.fill, looks.width) {
            (Some(stroke), None, None) => Some(Packing::Stroke(stroke)),
            (None, Some(fill), None) => Some(Packing::Fill(fill)),
            (None, None, Some(width)) => Some(Packing::Width(width)),
            _ => None,
        }
    }
}
