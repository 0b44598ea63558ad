// The lock on the folder of a history, by which calls wait for one another.

ghost use Rattle.std.specs.IoError.{error_kind, raw_os_error};
ghost use Rattle.std.specs.Prelude.{◌≡◌, ◌↔◌, false, pos, true, IsTrue};
ghost use Rattle.inputs.specs.Errors.{tells_no_folder, tells_no_locks};

use crate::fault::{Fault, passed_over, unwritten};
use crate::input_files::InputFile;
use std::fs::{File, OpenFile};
use std::io::{self, ErrorKind};
use std::os::unix::fs::fchown;
use std::rt::Files;

// Linux's ENOLCK, for which std has no kind: a network file system without a service of locks.
const NO_LOCKS: i32 = 37;

/// What an open file can do beyond `std`'s `OpenFile`: it has an advisory lock, which is held until it is closed, and is given an
/// owner and a group, whatever stands at its name meanwhile.
pub trait LockFile {
    /// Waits until nothing else has the file locked.
    fn lock(&self) -> io::Result<()>;

    /// Waits until nothing else has the file locked for itself alone.
    fn lock_shared(&self) -> io::Result<()>;

    /// Gives it this user and this group, each where there is one.
    fn give(&self, user: Option<u32>, group: Option<u32>) -> io::Result<()>;
}

impl LockFile for File {
    fn lock(&self) -> io::Result<()> {
        File::lock(self)
    }

    fn lock_shared(&self) -> io::Result<()> {
        File::lock_shared(self)
    }

    fn give(&self, user: Option<u32>, group: Option<u32>) -> io::Result<()> {
        fchown(self, user, group)
    }
}

/// Locks the folder, so that no other call reads or writes in it until what this gives is dropped.
/// Where there is no folder, or no locks, it stays unlocked. Any other error refuses the save, since
/// another call could then save at the same time.
pub fn lock_to_save<R: Files + AllocGlobal>(rt: &R, dir: &str) -> Result<Option<R::File>, Fault>
where
    R::File: LockFile,
{
    let folder = match open_folder(rt, dir) {
        Ok(folder) => folder,
        Err(error) if is_without_folder(&error) => return Ok(None),
        Err(error) => return Err(unwritten(InputFile::Requirements, &error)),
    };
    match folder.lock() {
        Ok(()) => Ok(Some(folder)),
        Err(error) if is_without_locks(&error) => Ok(None),
        Err(error) => Err(unwritten(InputFile::Requirements, &error)),
    }
}

/// Locks the folder, so that no other call writes in it until what this gives is dropped. A folder
/// that can't be locked is read as it stands: files of two saves don't belong together, which the
/// journal tells.
pub fn lock_to_read<R: Files + AllocGlobal>(rt: &R, dir: &str) -> Result<Option<R::File>, Fault>
where
    R::File: LockFile,
{
    let folder = match open_folder(rt, dir) {
        Ok(folder) => folder,
        Err(error) => return passed_over(&error),
    };
    match folder.lock_shared() {
        Ok(()) => Ok(Some(folder)),
        Err(error) => passed_over(&error),
    }
}

/// Makes the names in the folder last, where the system can.
pub fn sync_folder<R: Files + AllocGlobal>(rt: &R, dir: &str) {
    if let Ok(folder) = open_folder(rt, dir) {
        let _ = folder.sync_all();
    }
}

fn open_folder<R: Files + AllocGlobal>(rt: &R, dir: &str) -> io::Result<R::File> {
    let path = format!(in rt.alloc(); "{dir}/")?;
    File::open(rt, path.as_str())
}

/// Whether no folder has this path. Then none of its files can be read, which is told of the first.
fn is_without_folder(error: &io::Error) -> bool
    ensures { result ≡ tells_no_folder (error_kind error.now) }
{
    match error.kind() {
        ErrorKind::NotFound
        | ErrorKind::NotADirectory
        | ErrorKind::InvalidFilename
        | ErrorKind::FilesystemLoop => true,
        _ => false,
    }
}

/// Whether the file system knows no locks.
fn is_without_locks(error: &io::Error) -> bool
    ensures told { tells_no_locks (error_kind error.now) ≡ true → result ≡ true }
    ensures number { tells_no_locks (error_kind error.now) ≡ false
        → (IsTrue result ↔ (raw_os_error error.now ≡ Some (pos 37))) }
{
    match error.kind() {
        ErrorKind::Unsupported | ErrorKind::InvalidInput => true,
        _ => error.raw_os_error() == Some(NO_LOCKS),
    }
}
