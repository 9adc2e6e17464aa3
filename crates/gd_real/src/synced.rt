ghost use Rattle.std.specs.Prelude.{◌≡◌, None, IsErr, IsOk, IsTrue};

use std::fs::OpenFile;
use std::io::{Error, ErrorKind, Result as IoResult};

/// An open file, and what a sync of it has to see to.
#[derive(Drop)]
pub(crate) struct Synced<F: OpenFile + Drop> {
    file: F,
    /// The folder that holds the file's name, until a sync has succeeded.
    folder: Option<F>,
    is_lost: bool,
}

impl<F: OpenFile + Drop> Synced<F> {
    /// A file that wasn't synced so far, and the folder that holds its name.
    pub(crate) fn new(file: F, folder: F) -> Self {
        Synced {
            file,
            folder: Some(folder),
            is_lost: false,
        }
    }

    pub(crate) fn file(&self) -> &F {
        &self.file
    }

    /// Whether a sync has succeeded.
    pub(crate) fn is_kept(&self) -> bool {
        self.folder.is_none()
    }

    /// Syncs the file, and at first its folder too. The system says only once that it lost what was written: after a
    /// sync that failed, each later one fails.
    pub(crate) fn sync(&mut self) -> IoResult<()>
        ensures lost { IsTrue self.old.is_lost → IsErr result }
        ensures loses { IsErr result → IsTrue self.new.is_lost }
        ensures folder { IsOk result → self.new.folder ≡ None }
    {
        if self.is_lost {
            return Err(Error::from(ErrorKind::Other));
        }
        let synced = self.sync_both();
        self.is_lost = synced.is_err();
        synced
    }

    fn sync_both(&mut self) -> IoResult<()>
        ensures { IsOk result → self.new.folder ≡ None }
    {
        self.file.sync_all()?;
        if let Some(folder) = &self.folder {
            folder.sync_all()?;
        }
        self.folder = None;
        Ok(())
    }
}
