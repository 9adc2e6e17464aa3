ghost use Rattle.std.specs.Prelude.{◌≡◌, IfOk, OnOk};
ghost use Rattle.gd_outside.specs.Records.{first_shot, is_byte_over, landed, shot_kind, with_landed};

use crate::memory::mark::Kind;
use crate::memory::piece::put_over;
use std::alloc::{AllocError, Global};
use std::marker::Model;

/// The contents after some calls, and one image of a crash then: the first writes since the last sync that succeeded
/// stand as written, and the ranges of the others hold one byte, but for a byte that goes alone over another one, which
/// stays.
#[derive(Drop)]
pub(crate) struct Shot {
    whole: u32,
    fill: u8,
    contents: Vec<u8>,
    image: Vec<u8>,
    count: u64,
}

impl Model for Shot {
    ghost use Rattle.gd_outside.specs.Records.{Shot as ShotValue};

    ghost Value = { ShotValue };

    ghost view = { λ s. record {
      whole = s.whole;
      fill = s.fill;
      contents = s.contents.items;
      image = s.image.items;
      count = s.count;
    } };
}

impl Shot {
    /// Before any call. It takes no memory.
    pub(crate) fn new(alloc: Global, whole: u32, fill: u8) -> Self
        ensures { result ≡ first_shot whole fill }
    {
        Shot {
            whole,
            fill,
            contents: Vec::new(alloc),
            image: Vec::new(alloc),
            count: 0,
        }
    }

    /// Goes on by one call.
    pub(crate) fn take(
        &mut self,
        alloc: Global,
        kind: Kind,
        pos: u64,
        piece: &[u8],
    ) -> Result<(), AllocError>
        ensures { OnOk result (self.new ≡ shot_kind kind self.old pos piece.now) }
    {
        match kind {
            Kind::Created => {
                self.contents.clear();
                self.image.clear();
            }
            Kind::NotCreated => {}
            Kind::Put => {
                self.land(alloc, pos, piece)?;
                put_over(&mut self.contents, pos, piece)?;
            }
            Kind::NotPut => self.land(alloc, pos, piece)?,
            Kind::Synced => {
                self.image.clear();
                self.image.extend_from_slice(&self.contents)?;
                self.count = 0;
            }
        }
        Ok(())
    }

    /// Counts a write, and has it in the image.
    fn land(&mut self, alloc: Global, pos: u64, piece: &[u8]) -> Result<(), AllocError>
        ensures { OnOk result (self.new ≡ with_landed self.old pos piece.now) }
    {
        self.put(alloc, pos, piece)?;
        self.count = self.count.saturating_add(1);
        Ok(())
    }

    /// Puts into the image what stands there of the next write.
    fn put(&mut self, alloc: Global, pos: u64, piece: &[u8]) -> Result<(), AllocError>
        ensures { OnOk result (self.new ≡ record self.old {
          image = landed self.old pos piece.now;
        }) }
    {
        if self.count < u64::from(self.whole) {
            return put_over(&mut self.image, pos, piece);
        }
        if is_byte_over(&self.image, pos, piece) {
            return Ok(());
        }
        let filled = vec![in alloc; self.fill; piece.len()]?;
        put_over(&mut self.image, pos, &filled)
    }

    pub(crate) fn into_image(self) -> Vec<u8>
        ensures { result.items ≡ self.image }
    {
        self.image
    }
}

/// Whether the piece is one byte, and goes over one that is there.
fn is_byte_over(image: &[u8], pos: u64, piece: &[u8]) -> bool
    ensures { result ≡ is_byte_over image.now pos piece.now }
{
    piece.len() == 1 && pos < image.len() as u64
}
