ghost use Rattle.std.specs.Prelude.{◌≡◌, IsErr, OnOk};
ghost use Rattle.gd_outside.specs.Links.{FitsBuffer, IsOpen, LinkCalled, StaysOpen, Takes, one_try};
ghost use Rattle.gd_outside.specs.Seen.{SeenLink};
ghost use Rattle.gd_outside.specs.Told.{Grows, Stays};

use crate::fail::Failed;
use crate::words::WordList;

/// What a receive came to.
#[derive(Clone, Copy, Debug, PartialEq, Eq)]
pub enum Received {
    /// A datagram of so many bytes, which stand at the front of the buffer.
    Datagram(usize),
    /// Nothing is there.
    Nothing,
    /// A datagram that is longer than the buffer. It is lost.
    TooLong,
    /// The receive failed.
    Failed,
}

/// What became of a frame here: it went out, or it was lost.
#[derive(Clone, Copy, Debug, PartialEq, Eq)]
pub enum Sent {
    Out,
    Lost,
}

/// What a member of a session sends frames by, and receives datagrams from: entries that come one after another, each a
/// datagram, a pause or a failure.
pub trait Link {
    ghost seen: { Self → SeenLink };

    /// Opens it as site `me`. The k-th address is that of site k. The entries and the frames tried stay.
    ///
    /// Fails only where the count of faults rises. A failed open may leave any addresses and any own number.
    fn open(&mut self, addresses: &WordList, me: u8) -> Result<(), Failed>
        ensures entries { Stays (seen self.old).entries (seen self.new).entries }
        ensures tried { Stays (seen self.old).tried (seen self.new).tried }
        ensures opened { OnOk result (IsOpen addresses.now me (seen self.new)) }
        ensures called { LinkCalled (seen self.old) (seen self.new) (IsErr result) };

    /// Takes the next entry. At the end of the entries it takes none, and nothing is there. A datagram that fits is put
    /// into the front of the buffer. The frames tried, the addresses and the own number stay.
    ///
    /// Fails only where the count of faults rises.
    fn receive(&mut self, buf: &mut [u8]) -> Received
        ensures size { FitsBuffer result buf.new }
        ensures taken { Takes (seen self.old).entries result buf.new (seen self.new).entries }
        ensures tried { Stays (seen self.old).tried (seen self.new).tried }
        ensures open { StaysOpen (seen self.old) (seen self.new) }
        ensures called { LinkCalled (seen self.old) (seen self.new) (result ≡ Received.Failed) };

    /// Tries a frame for site `to`. The entries, the addresses and the own number stay.
    ///
    /// The frame is lost only where the count of faults rises, and was tried then too.
    fn send(&mut self, to: u8, frame: &[u8]) -> Sent
        ensures entries { Stays (seen self.old).entries (seen self.new).entries }
        ensures tried { Grows (seen self.old).tried (one_try to frame.now) (seen self.new).tried }
        ensures open { StaysOpen (seen self.old) (seen self.new) }
        ensures called { LinkCalled (seen self.old) (seen self.new) (result ≡ Sent.Lost) };
}
