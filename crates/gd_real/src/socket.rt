ghost use Rattle.std.specs.Prelude.{◌≡◌, ◌≤◌, ◌<◌, ◌↔◌, None, Ok, length, take, IfSome, IsErr, OnErr, OnOk};
ghost use Rattle.std.specs.IoError.{error_kind};
ghost use Rattle.gd_outside.specs.Causes.{Rose};
ghost use Rattle.gd_outside.specs.Links.{FitsBuffer, IsOpen, LinkCalled};
ghost use Rattle.gd_outside.specs.Told.{Stays};
ghost use Rattle.gd_real.specs.Addresses.{AreWritten, IsBoundFor, address_at};
ghost use Rattle.gd_real.specs.Untold.{seen_socket};
ghost use Rattle.std.specs.Net.Grammar.{IsSocketText};
ghost use Rattle.gd_real.specs.declared.socket.TheConstants.{SPACE};

use gd_outside::{Failed, Link, Received, Sent, Word, WordList};
use mio::net::UdpSocket;
use std::alloc::Global;
use std::io::{Error, ErrorKind, Result as IoResult};
use std::net::{Net, SocketAddr};

/// How many sites a session has at most.
const SITES: usize = 16;

/// One byte more than a datagram has at most, so that a longer one is seen.
const SPACE: usize = 8193;

/// So many datagrams that came from elsewhere are passed over in one receive.
const STRANGERS: u32 = 1024;

/// A socket that is bound to the own address, and the address of each site.
#[derive(Drop)]
struct Bound {
    socket: UdpSocket,
    addresses: Vec<SocketAddr>,
}

/// A UDP socket that never waits, with the number of the calls on it that failed. A datagram that came from none of the
/// addresses is passed over, as if it hadn't come.
#[derive(Drop)]
pub struct SocketLink<R: Net + AllocGlobal + Drop> {
    rt: R,
    bound: Option<Bound>,
    space: [u8; SPACE],
    faults: u64,
}

impl<R: Net + AllocGlobal + Drop> SocketLink<R> {
    /// No socket so far.
    pub fn new(rt: R) -> Self
        ensures { result.faults ≡ 0 }
    {
        SocketLink {
            rt,
            bound: None,
            space: [0; SPACE],
            faults: 0,
        }
    }

    fn count_fault(&mut self)
        ensures count { self.old.faults ≤ self.new.faults }
        ensures rose { Rose self.old.faults self.new.faults }
        ensures bound { self.new.bound ≡ self.old.bound }
    {
        self.faults = self.faults.saturating_add(1);
    }

    fn bind(&self, words: &[Word], me: u8) -> Option<Bound>
        ensures { IfSome result (λ bound. AreWritten words.now bound.addresses.items) }
    {
        let addresses = read_addresses(self.rt.alloc(), words)?;
        let own = address_of(addresses.as_slice(), me)?;
        if !are_alike(addresses.as_slice(), own) {
            return None;
        }
        let socket = UdpSocket::bind(&self.rt, own).ok()?;
        Some(Bound { socket, addresses })
    }

    /// Sends the frame whole.
    fn try_send(&self, to: u8, frame: &[u8]) -> Sent {
        let Some(bound) = &self.bound else {
            return Sent::Lost;
        };
        let Some(target) = address_of(bound.addresses.as_slice(), to) else {
            return Sent::Lost;
        };
        sent_of(bound.socket.send_to(frame, target), frame.len())
    }
}

impl<R: Net + AllocGlobal + Drop> Link for SocketLink<R> {
    ghost seen = { λ s. seen_socket s.faults };

    fn open(&mut self, addresses: &WordList, me: u8) -> Result<(), Failed>
        ensures entries { Stays (seen_socket self.old.faults).entries
            (seen_socket self.new.faults).entries }
        ensures tried { Stays (seen_socket self.old.faults).tried
            (seen_socket self.new.faults).tried }
        ensures opened { OnOk result (IsOpen addresses.now me (seen_socket self.new.faults)) }
        ensures called { LinkCalled (seen_socket self.old.faults) (seen_socket self.new.faults)
            (IsErr result) }

        // What doesn't read as an IP address with a port is a fault, as are addresses of both kinds, more than 16, and
        // an own number to which none belongs. A socket that was open before is closed.
        ensures bound { OnOk result (IsBoundFor addresses.now self.new.bound) }
        ensures closed { OnErr result (self.new.bound ≡ None) }
    {
        self.bound = None;
        match self.bind(addresses.as_slice(), me) {
            Some(bound) => {
                self.bound = Some(bound);
                Ok(())
            }
            None => {
                self.count_fault();
                Err(Failed)
            }
        }
    }

    // A datagram of more than 8,192 bytes is too long for any buffer.
    fn receive(&mut self, buf: &mut [u8]) -> Received {
        let Some(bound) = &self.bound else {
            self.count_fault();
            return Received::Failed;
        };
        for _ in 0..STRANGERS {
            match bound.socket.recv_from(&mut self.space) {
                Ok((count, source)) => {
                    if bound.addresses.as_slice().contains(&source) {
                        return copy_whole(&self.space[..count], buf);
                    }
                }
                Err(error) => {
                    let received = without_datagram(&error);
                    if received == Received::Failed {
                        self.count_fault();
                    }
                    return received;
                }
            }
        }
        Received::Nothing
    }

    fn send(&mut self, to: u8, frame: &[u8]) -> Sent {
        let sent = self.try_send(to, frame);
        if sent == Sent::Lost {
            self.count_fault();
        }
        sent
    }
}

/// Copies the datagram into the front of the buffer, if it fits. One that takes all the space may have been cut.
fn copy_whole(datagram: &[u8], buf: &mut [u8]) -> Received
    ensures size { FitsBuffer result buf.new }
    ensures sure { ¬ result ≡ Received.Failed }
    ensures some { ¬ result ≡ Received.Nothing }
    ensures whole { length datagram.now ≤ length buf.old → length datagram.now < SPACE
        → result ≡ Received.Datagram (length datagram.now) }
    ensures bytes { length datagram.now ≤ length buf.old → length datagram.now < SPACE
        → take (length datagram.now) buf.new ≡ datagram.now }
{
    if datagram.len() > buf.len() || datagram.len() >= SPACE {
        return Received::TooLong;
    }
    buf[..datagram.len()].copy_from_slice(datagram);
    Received::Datagram(datagram.len())
}

/// What a receive came to that got no datagram: a pause, or a failure.
fn without_datagram(error: &Error) -> Received
    ensures pause { error_kind error.now ≡ ErrorKind.WouldBlock → result ≡ Received.Nothing }
    ensures failed { ¬ (error_kind error.now ≡ ErrorKind.WouldBlock) → result ≡ Received.Failed }
{
    match error.kind() {
        ErrorKind::WouldBlock => Received::Nothing,
        _ => Received::Failed,
    }
}

/// A frame of that size is out where all of it was taken.
fn sent_of(answer: IoResult<usize>, size: usize) -> Sent
    ensures { (result ≡ Sent.Out) ↔ (answer ≡ Ok size) }
{
    match answer {
        Ok(count) if count == size => Sent::Out,
        _ => Sent::Lost,
    }
}

/// The addresses that the words write, if there are no more than sites.
fn read_addresses(alloc: Global, words: &[Word]) -> Option<Vec<SocketAddr>>
    ensures { IfSome result (λ addresses. AreWritten words.now addresses.items) }
{
    if words.len() > SITES {
        return None;
    }
    let mut addresses = Vec::new(alloc);
    for word in words {
        addresses.push(read_address(word)?).ok()?;
    }
    Some(addresses)
}

fn read_address(word: &Word) -> Option<SocketAddr>
    ensures { IfSome result (IsSocketText word.now) }
{
    word.as_str().parse::<SocketAddr>().ok()
}

/// Whether all addresses are of the kind of this one, IPv4 or IPv6: a socket sends to its own kind alone.
fn are_alike(addresses: &[SocketAddr], own: SocketAddr) -> bool {
    addresses
        .iter()
        .all(|address| address.is_ipv4() == own.is_ipv4())
}

/// The address of the site with that number, counted from 1.
fn address_of(addresses: &[SocketAddr], site: u8) -> Option<SocketAddr>
    ensures { result ≡ address_at addresses.now site }
{
    if site == 0 {
        return None;
    }
    addresses.get(usize::from(site) - 1).copied()
}
