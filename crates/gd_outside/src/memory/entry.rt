ghost use Rattle.std.specs.Prelude.{◌≡◌, ◌∷◌, List, IfOk};
ghost use Rattle.gd_outside.specs.Links.{FitsBuffer, Took};
ghost use Rattle.gd_outside.specs.Seen.{Entry, Packet, Pause, Failure};

use crate::link::Received;
use std::alloc::{AllocError, Global};
use std::marker::Model;

#[derive(Drop)]
enum Held {
    Packet(Vec<u8>),
    Pause,
    Failure,
}

/// One entry of a link: a datagram, a pause or a failure.
#[derive(Drop)]
pub(crate) struct KeptEntry {
    held: Held,
}

impl Model for KeptEntry {
    ghost use Rattle.gd_outside.specs.Seen.{Entry};

    ghost Value = { Entry };

    ghost use Rattle.gd_outside.specs.LinkParts.{entry_of};

    ghost view = { λ e. entry_of e.held };
}

impl KeptEntry {
    pub(crate) fn datagram(alloc: Global, bytes: &[u8]) -> Result<Self, AllocError>
        ensures { IfOk result (λ entry. entry ≡ Packet bytes.now) }
    {
        let held = Held::Packet(bytes.to_vec(alloc)?);
        Ok(KeptEntry { held })
    }

    pub(crate) fn pause() -> Self
        ensures { result ≡ Pause }
    {
        KeptEntry { held: Held::Pause }
    }

    pub(crate) fn failure() -> Self
        ensures { result ≡ Failure }
    {
        KeptEntry {
            held: Held::Failure,
        }
    }

    /// What the receive that takes the entry comes to. A datagram that fits is put into the front of the buffer.
    pub(crate) fn hand_out(&self, buf: &mut [u8]) -> Received
        ensures size { FitsBuffer result buf.new }
        ensures took { (rest : List Entry) → Took (self.now ∷ rest) result buf.new rest }
    {
        match &self.held {
            Held::Packet(bytes) => copy_whole(bytes, buf),
            Held::Pause => Received::Nothing,
            Held::Failure => Received::Failed,
        }
    }
}

/// Copies the datagram into the front of the buffer, if it fits.
fn copy_whole(datagram: &[u8], buf: &mut [u8]) -> Received
    ensures size { FitsBuffer result buf.new }
    ensures took { (rest : List Entry) → Took (Packet datagram.now ∷ rest) result buf.new rest }
{
    if datagram.len() > buf.len() {
        return Received::TooLong;
    }
    buf[..datagram.len()].copy_from_slice(datagram);
    Received::Datagram(datagram.len())
}
