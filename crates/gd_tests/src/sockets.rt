//! A send that fails is no fault of a run, so nobody sees from outside that it was one.

use gd_outside::{Link, Received, Sent, Word, WordList};
use gd_real::SocketLink;
use std::fs::File;
use std::io::{Error, ErrorKind, Result as IoResult};
use std::net::{Net, SocketAddr, TcpListener, TcpStream, UdpSocket};
use std::os::fd::OwnedFd;
use std::rt::HostRuntime;
use std::test::Fail;

/// A network whose sockets are none, so that each call on them fails.
#[derive(Drop)]
struct NoSockets {
    rt: HostRuntime,
}

impl Net for NoSockets {
    type Stream = TcpStream;

    type Listener = TcpListener;

    fn bind(&self, _addr: SocketAddr) -> IoResult<TcpListener> {
        Err(Error::from(ErrorKind::Unsupported))
    }

    fn connect(&self, _addr: SocketAddr) -> IoResult<TcpStream> {
        Err(Error::from(ErrorKind::Unsupported))
    }

    fn bind_udp(&self, _addr: SocketAddr) -> IoResult<UdpSocket> {
        let file = File::open(&self.rt, "/dev/null")?;
        Ok(UdpSocket::from(OwnedFd::from(file)))
    }
}

#[test]
fn a_call_that_fails_is_a_fault(rt: HostRuntime) -> Result<(), Fail> {
    let mut link = SocketLink::new((NoSockets { rt }, rt.alloc()));
    let mut addresses = WordList::new(rt.alloc());
    addresses.push(Word::new(rt.alloc(), "127.0.0.1:1")?)?;
    assert!(rt; link.open(&addresses, 1).is_ok());
    assert_eq!(rt; link.receive(&mut [0; 4]), Received::Failed);
    assert_eq!(rt; link.send(1, b"GDOF"), Sent::Lost);
    Ok(())
}
