use libc::geteuid;
use std::fs;
use std::fs::{File, Files};
use std::os::unix::fs::MetadataExt;

/// What there is under a name.
#[derive(Clone, Copy, Debug, PartialEq, Eq)]
pub enum FileState {
    /// Nothing that can be found.
    Missing,
    Folder,
    /// The file of another user.
    Foreign,
    /// A file that another process holds as its journal.
    Held,
    /// A file without contents.
    Empty,
    /// Any other file.
    Other,
}

/// Looks what there is under that name, and changes nothing. What can't be opened is no file that another process
/// holds.
pub fn look_at<R: Files<File = File>>(rt: &R, name: &str) -> FileState {
    let Ok(found) = fs::metadata(rt, name) else {
        return FileState::Missing;
    };
    if found.is_dir() {
        return FileState::Folder;
    }
    if found.uid() != geteuid() {
        return FileState::Foreign;
    }
    if !found.is_file() {
        return FileState::Other;
    }
    if is_held(rt, name) {
        return FileState::Held;
    }
    if found.len() == 0 {
        return FileState::Empty;
    }
    FileState::Other
}

fn is_held<R: Files<File = File>>(rt: &R, name: &str) -> bool {
    match File::open(rt, name) {
        Ok(file) => file.try_lock_shared().is_err(),
        Err(_) => false,
    }
}
