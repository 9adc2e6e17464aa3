ghost use Rattle.std.specs.Prelude.{◌≡◌, length};
ghost use Rattle.std.specs.Io.{ReadsAtMost};

use crate::synced::Synced;
use libc::geteuid;
use std::alloc::Global;
use std::fs;
use std::fs::{File, Files, Metadata, OpenOptions};
use std::io::{Error, ErrorKind, Result as IoResult};
use std::os::unix::fs::{FileExt, MetadataExt, OpenOptionsExt};
use std::path::Path;

/// The number of a file in its file system, and that of the file system.
#[derive(Clone, Copy, Debug, PartialEq, Eq)]
struct Place {
    device: u64,
    number: u64,
}

/// A file of one's own that is open under its name, and that no other process holds as long as it is open here.
#[derive(Drop)]
pub(crate) struct Held {
    name: String,
    place: Place,
    synced: Synced<File>,
    is_made: bool,
}

impl Held {
    /// Makes a file of that name that its owner alone may read and write, and leaves none behind where it fails.
    ///
    /// Fails where there is a file of that name, which stays as it is.
    pub(crate) fn make<R: Files<File = File> + AllocGlobal>(rt: &R, name: &str) -> IoResult<Self> {
        let own = String::from_str(rt.alloc(), name)?;
        let folder = File::open(rt, folder_of(name))?;
        let mut how = OpenOptions::new();
        how.read(true).write(true).create_new(true).mode(0o600);
        let file = how.open(rt, name)?;
        let held = Held::of(file, folder, own, true);
        if held.is_err() {
            let _left = fs::remove_file(rt, name);
        }
        held
    }

    /// Goes on with the file of that name.
    ///
    /// Fails where there is none, where it is a folder, where it belongs to another user, and where another process
    /// holds it. Where the name is a link, what a sync syncs is the link's folder, and not that of the file.
    pub(crate) fn find<R: Files<File = File> + AllocGlobal>(rt: &R, name: &str) -> IoResult<Self> {
        let own = String::from_str(rt.alloc(), name)?;
        let folder = File::open(rt, folder_of(name))?;
        let mut how = OpenOptions::new();
        how.read(true).write(true);
        let file = how.open(rt, name)?;
        if file.metadata()?.uid() != geteuid() {
            return Err(Error::from(ErrorKind::PermissionDenied));
        }
        Held::of(file, folder, own, false)
    }

    fn of(file: File, folder: File, name: String, is_made: bool) -> IoResult<Self> {
        file.try_lock()?;
        let place = place_of(&file.metadata()?);
        Ok(Held {
            name,
            place,
            synced: Synced::new(file, folder),
            is_made,
        })
    }

    /// Whether the name still leads to this file.
    fn is_there<R: Files>(&self, rt: &R) -> bool {
        match rt.metadata(self.name.as_str()) {
            Ok(found) => place_of(&found) == self.place,
            Err(_) => false,
        }
    }

    /// Writes the piece whole at `pos`. Fails, and writes nothing, where the name doesn't lead to this file any more.
    pub(crate) fn write_at<R: Files>(&self, rt: &R, pos: u64, piece: &[u8]) -> IoResult<()> {
        if !self.is_there(rt) {
            return Err(Error::from(ErrorKind::NotFound));
        }
        self.synced.file().write_all_at(piece, pos)
    }

    pub(crate) fn sync(&mut self) -> IoResult<()> {
        self.synced.sync()
    }

    pub(crate) fn len(&self) -> IoResult<u64> {
        Ok(self.synced.file().metadata()?.len())
    }

    pub(crate) fn read_at(&self, pos: u64, buf: &mut [u8]) -> IoResult<usize>
        ensures count { ReadsAtMost result buf.new }
        ensures size { length buf.new ≡ length buf.old }
    {
        self.synced.file().read_at(buf, pos)
    }

    /// Whether it was made here, and no sync of it has succeeded.
    pub(crate) fn is_unfinished(&self) -> bool {
        self.is_made && !self.synced.is_kept()
    }

    /// Takes the name away from this file, if it still leads here.
    pub(crate) fn remove<R: Files>(self, rt: &R) {
        if self.is_there(rt) {
            let _left = fs::remove_file(rt, self.name.as_str());
        }
    }
}

fn place_of(found: &Metadata) -> Place {
    Place {
        device: found.dev(),
        number: found.ino(),
    }
}

/// The folder in which that name stands.
fn folder_of(name: &str) -> &str {
    match Path::new(name).parent() {
        Some(folder) if !folder.as_str().is_empty() => folder.as_str(),
        _ => ".",
    }
}
