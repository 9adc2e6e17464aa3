ghost use Rattle.std.specs.Prelude.{◌≡◌, ◌≤◌, Ok, None, IfOk, IsErr};
ghost use Rattle.gd_outside.specs.Causes.{Rose};
ghost use Rattle.gd_real.specs.Untold.{seen_file};

use crate::held::Held;
use gd_outside::{Failed, Journal};
use std::fs::{File, Files};
use std::io::{Error, ErrorKind, Result as IoResult};

/// A file, with the number of the calls on it that failed. It is the user's own, and no other process has it as a
/// journal at the same time.
#[derive(Drop)]
pub struct FileJournal<R: Files<File = File> + AllocGlobal + Drop> {
    rt: R,
    held: Option<Held>,
    faults: u64,
}

impl<R: Files<File = File> + AllocGlobal + Drop> FileJournal<R> {
    /// No file so far.
    pub fn new(rt: R) -> Self
        ensures { result.faults ≡ 0 }
    {
        FileJournal {
            rt,
            held: None,
            faults: 0,
        }
    }

    /// Goes on with this file.
    fn begin(&mut self, found: IoResult<Held>) -> Result<(), Failed>
        ensures count { self.old.faults ≤ self.new.faults }
        ensures cause { IsErr result → Rose self.old.faults self.new.faults }
        ensures closed { IsErr result → self.new.held ≡ None }
    {
        self.held = None;
        self.held = Some(self.or_fault(found)?);
        Ok(())
    }

    /// The value, or a fault that is counted.
    fn or_fault<T: Drop>(&mut self, answer: IoResult<T>) -> Result<T, Failed>
        ensures value { IfOk result (λ value. answer ≡ Ok value) }
        ensures count { self.old.faults ≤ self.new.faults }
        ensures cause { IsErr result → Rose self.old.faults self.new.faults }
        ensures held { self.new.held ≡ self.old.held }
    {
        match answer {
            Ok(value) => Ok(value),
            Err(_) => {
                self.faults = self.faults.saturating_add(1);
                Err(Failed)
            }
        }
    }

    /// The same of a change. A file that was made here and never synced goes with its first fault, so that none is left
    /// that nothing can go on from.
    fn changed(&mut self, answer: IoResult<()>) -> Result<(), Failed>
        ensures value { IfOk result (λ value. answer ≡ Ok value) }
        ensures count { self.old.faults ≤ self.new.faults }
        ensures cause { IsErr result → Rose self.old.faults self.new.faults }
    {
        if answer.is_err() {
            self.let_go();
        }
        self.or_fault(answer)
    }

    fn let_go(&mut self)
        ensures { self.new.faults ≡ self.old.faults }
    {
        if let Some(held) = self.held.take() {
            if held.is_unfinished() {
                held.remove(&self.rt);
            } else {
                self.held = Some(held);
            }
        }
    }
}

impl<R: Files<File = File> + AllocGlobal + Drop> Journal for FileJournal<R> {
    ghost seen = { λ s. seen_file s.faults };

    // A file of that name that is there already is left as it is: that is a fault.
    fn create(&mut self, name: &str) -> Result<(), Failed> {
        self.held = None;
        let made = Held::make(&self.rt, name);
        self.begin(made)
    }

    // No file of that name is a fault, as is a folder, a file of another user, and one that another process holds.
    fn open(&mut self, name: &str) -> Result<(), Failed> {
        self.held = None;
        let found = Held::find(&self.rt, name);
        self.begin(found)
    }

    // Where the name no longer leads to the file, that is a fault, and nothing is written.
    fn write_at(&mut self, pos: u64, piece: &[u8]) -> Result<(), Failed> {
        let written = match &self.held {
            Some(held) => held.write_at(&self.rt, pos, piece),
            None => Err(no_file()),
        };
        self.changed(written)
    }

    fn sync(&mut self) -> Result<(), Failed> {
        let synced = match &mut self.held {
            Some(held) => held.sync(),
            None => Err(no_file()),
        };
        self.changed(synced)
    }

    fn len(&mut self) -> Result<u64, Failed> {
        let found = match &self.held {
            Some(held) => held.len(),
            None => Err(no_file()),
        };
        self.or_fault(found)
    }

    fn read_at(&mut self, pos: u64, buf: &mut [u8]) -> Result<usize, Failed> {
        let read = match &self.held {
            Some(held) => held.read_at(pos, buf),
            None => Err(no_file()),
        };
        self.or_fault(read)
    }
}

fn no_file() -> Error {
    Error::from(ErrorKind::NotFound)
}
