//! What stands for the journal and the link of a world, which has neither.

ghost use Rattle.std.specs.Prelude.{Some, None, []};
ghost use Rattle.gd_outside.specs.Disk.{untold};

use gd_outside::{Failed, Journal, Link, Received, Sent, WordList};

/// Takes all that it is given, keeps nothing and hands out nothing. No call on it fails.
#[derive(Drop)]
pub(crate) struct Nowhere {}

impl Journal for Nowhere {
    ghost seen = { λ n. record { contents = None; name = None; disk = untold; faults = 0 } };

    fn create(&mut self, _name: &str) -> Result<(), Failed> {
        Ok(())
    }

    fn open(&mut self, _name: &str) -> Result<(), Failed> {
        Ok(())
    }

    fn write_at(&mut self, _pos: u64, _piece: &[u8]) -> Result<(), Failed> {
        Ok(())
    }

    fn sync(&mut self) -> Result<(), Failed> {
        Ok(())
    }

    fn len(&mut self) -> Result<u64, Failed> {
        Ok(0)
    }

    fn read_at(&mut self, _pos: u64, _buf: &mut [u8]) -> Result<usize, Failed> {
        Ok(0)
    }
}

/// It has no entries.
impl Link for Nowhere {
    ghost seen = { λ n. record
        { entries = Some []; tried = None; addresses = None; me = None; faults = 0 } };

    fn open(&mut self, _addresses: &WordList, _me: u8) -> Result<(), Failed> {
        Ok(())
    }

    fn receive(&mut self, _buf: &mut [u8]) -> Received {
        Received::Nothing
    }

    fn send(&mut self, _to: u8, _frame: &[u8]) -> Sent {
        Sent::Out
    }
}
