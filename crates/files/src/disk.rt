// The folder of a history on the disk, so that a save and its repair are done over it: each file is written whole beside its
// place, under its name and `.new`, and renamed to its path.

ghost use Rattle.std.specs.Prelude.{◌≡◌, IfOk, None, ⊤};
ghost use Rattle.inputs.specs.FileNames.{name_of};
ghost use Rattle.files.specs.Places.{IsUnsaved};

use crate::history_folder::HistoryFolder;
use crate::links::link_of;
use crate::lock_names::lock_names_in;
use crate::rewrite::name_of;
use crate::saved_files::SavedFiles;
use crate::still_folder::StillFolder;
use folder::{Folder, WriteFault};
use inputs::{
    Fault, InputFile, LinkOut, LockFile, lock_to_read, passed_over, path_of, read_as, read_bytes,
    sync_folder,
};
use lists::Text;
use std::alloc::{AllocError, Global};
use std::collections::BTreeSet;
use std::fs::{File, Metadata, OpenFile, OpenOptions};
use std::io::{ErrorKind, Write};
use std::os::unix::fs::MetadataExt;
use std::path::Path;
use std::rt::Files;
use std::{fs, io};

/// Where a file stands, and where it is written before it is renamed.
#[derive(Drop)]
pub struct FilePaths {
    path: String,
    beside: String,
}

/// A file that calls of the folder may name.
#[derive(Drop)]
struct Known {
    name: Text,
    file: InputFile,
    // its path in the folder; a link there goes itself
    path: String,
    // none before they are found
    paths: Option<FilePaths>,
}

/// The folder of a history on the disk. What it holds isn't known.
pub struct Disk<'a, R> {
    rt: &'a R,
    dir: &'a str,
    known: Vec<Known>,
    // the file that couldn't be written last
    unwritten: Option<InputFile>,
}

impl<'a, R> Drop for Disk<'a, R> {
    fn drop(self) {
        let Disk {
            rt: _,
            dir: _,
            known: _,
            unwritten: _,
        } = self;
    }
}

impl<'a, R: Files + AllocGlobal> Disk<'a, R> {
    /// A folder no file of which is known yet.
    pub fn new(rt: &'a R, dir: &'a str) -> Disk<'a, R> {
        Disk {
            rt,
            dir,
            known: Vec::new(rt.alloc()),
            unwritten: None,
        }
    }

    fn add_with(&mut self, file: InputFile, paths: Option<FilePaths>) -> Result<Text, AllocError>
        ensures { IfOk result (λ name. name ≡ name_of file) }
    {
        let alloc = self.rt.alloc();
        let name = name_of(alloc, &file)?;
        let path = path_of(alloc, self.dir, &file)?;
        let known = Known {
            name: name.clone()?,
            file,
            path,
            paths,
        };
        self.known.push(known)?;
        Ok(name)
    }

    /// That a file can't be written.
    fn last_unwritten(&mut self) -> Fault
        ensures { IsUnsaved result }
    {
        match self.unwritten.take() {
            Some(file) => Fault::Unwritten(file),
            None => Fault::OutOfMemory,
        }
    }
}

impl<'a, R: Files + AllocGlobal> HistoryFolder for Disk<'a, R>
where
    R::File: LockFile,
{
    ghost may_fail = { λ d. ⊤ };

    fn alloc(&self) -> Global {
        self.rt.alloc()
    }

    fn read(&self, file: InputFile, is_beside: bool) -> Result<Vec<u8>, Fault> {
        let path = path_of(self.rt.alloc(), self.dir, &file)?;
        if !is_beside {
            return read_bytes(self.rt, file, path.as_str());
        }
        match paths_of(self.rt, path.as_str()) {
            Ok(paths) => read_bytes(self.rt, file, paths.beside.as_str()),
            Err(error) => read_as(file, Text::from_string(path), Err(error)),
        }
    }

    fn stands(&self, file: &InputFile, is_beside: bool) -> Result<bool, Fault> {
        if is_beside {
            return match paths_in(self.rt, self.dir, file)? {
                Some(paths) => Ok(fs::symlink_metadata(self.rt, paths.beside.as_str()).is_ok()),
                None => Ok(false),
            };
        }
        let path = path_of(self.rt.alloc(), self.dir, file)?;
        match fs::symlink_metadata(self.rt, path.as_str()) {
            Ok(_) => Ok(true),
            Err(error) => {
                passed_over::<()>(&error)?;
                Ok(false)
            }
        }
    }

    fn link_out(&self, file: InputFile) -> Result<Option<LinkOut>, Fault> {
        link_of(self.rt, self.dir, file)
    }

    fn add(&mut self, files: Vec<InputFile>) -> Result<(), AllocError> {
        for file in files {
            self.add_with(file, None)?;
        }
        Ok(())
    }

    fn add_beside(&mut self, files: Vec<InputFile>) -> Result<Vec<Text>, Fault> {
        let mut names = Vec::new(self.rt.alloc());
        for file in files {
            if let Some(paths) = paths_in(self.rt, self.dir, &file)? {
                names.push(self.add_with(file, Some(paths))?)?;
            }
        }
        Ok(names)
    }

    fn unsaved(&mut self, fault: WriteFault) -> Fault {
        match fault {
            WriteFault::OutOfMemory => Fault::OutOfMemory,
            WriteFault::Unwritten => self.last_unwritten(),
        }
    }
}

impl<'a, R: Files + AllocGlobal + Clone + Drop> StillFolder for Disk<'a, R>
where
    R::File: LockFile,
{
    fn still_files(&self) -> Result<SavedFiles, Fault> {
        let _lock = lock_to_read(self.rt, self.dir)?;
        SavedFiles::read(self)
    }

    fn lock_names(&self) -> Result<BTreeSet<Text>, Fault> {
        lock_names_in(self.rt, self.dir)
    }
}

impl<'a, R: Files + AllocGlobal> Folder for Disk<'a, R>
where
    R::File: LockFile,
{
    ghost held = { λ d. None };

    ghost may_leave = { λ d c. ⊥ };

    ghost moment = { λ d. 0 };

    ghost left_since = { λ d t c. ⊥ };

    ghost faults = { λ d. 0 };

    ghost counts_now = { λ d t c le never. never };

    ghost only_now = { λ d c never. never };

    fn stage(&mut self, name: &str, bytes: &[u8]) -> Result<(), WriteFault> {
        let Some(known) = known_of(&mut self.known, name) else {
            return Err(WriteFault::Unwritten);
        };
        match stage(self.rt, known.path.as_str(), bytes) {
            Ok(paths) => {
                known.paths = Some(paths);
                Ok(())
            }
            Err(error) => Err(kept(&mut self.unwritten, &known.file, &error)),
        }
    }

    fn rename(&mut self, name: &str) -> Result<(), WriteFault> {
        let Some(known) = known_of(&mut self.known, name) else {
            return Err(WriteFault::Unwritten);
        };
        let Some(paths) = &known.paths else {
            return Err(WriteFault::Unwritten);
        };
        match rename_to_path(self.rt, paths) {
            Ok(()) => Ok(()),
            Err(error) => Err(kept(&mut self.unwritten, &known.file, &error)),
        }
    }

    fn remove(&mut self, name: &str) -> Result<(), WriteFault> {
        let Some(known) = known_of(&mut self.known, name) else {
            return Err(WriteFault::Unwritten);
        };
        match remove_path(self.rt, known.path.as_str()) {
            Ok(()) => Ok(()),
            Err(error) => Err(kept(&mut self.unwritten, &known.file, &error)),
        }
    }

    /// What wasn't written isn't touched.
    fn remove_beside(&mut self, name: &str) -> Result<(), WriteFault> {
        let Some(known) = known_of(&mut self.known, name) else {
            return Err(WriteFault::Unwritten);
        };
        let Some(paths) = &known.paths else {
            return Err(WriteFault::Unwritten);
        };
        match fs::remove_file(self.rt, paths.beside.as_str()) {
            Ok(()) => Ok(()),
            Err(error) if error.kind() == ErrorKind::NotFound => Ok(()),
            Err(_) => Err(WriteFault::Unwritten),
        }
    }
}

fn known_of<'k>(all: &'k mut Vec<Known>, name: &str) -> Option<&'k mut Known> {
    let place = all
        .as_slice()
        .iter()
        .position(|known| known.name.as_str() == name)?;
    all.get_mut(place)
}

/// Keeps which file can't be written.
fn kept(unwritten: &mut Option<InputFile>, file: &InputFile, error: &io::Error) -> WriteFault {
    let Ok(file) = file.clone() else {
        return WriteFault::OutOfMemory;
    };
    match error.kind() {
        ErrorKind::OutOfMemory => WriteFault::OutOfMemory,
        _ => {
            *unwritten = Some(file);
            WriteFault::Unwritten
        }
    }
}

/// Removes a file, and makes that last before another one is changed. One that isn't there is gone.
fn remove_path<R: Files + AllocGlobal>(rt: &R, path: &str) -> io::Result<()> {
    match fs::remove_file(rt, path) {
        Ok(()) => {
            sync_names(rt, path);
            Ok(())
        }
        Err(error) if error.kind() == ErrorKind::NotFound => Ok(()),
        Err(error) => Err(error),
    }
}

/// Renames what stands beside a file's place to it, and makes that last before another one is put into
/// its own.
fn rename_to_path<R: Files + AllocGlobal>(rt: &R, paths: &FilePaths) -> io::Result<()> {
    fs::rename(rt, paths.beside.as_str(), paths.path.as_str())?;
    sync_names(rt, paths.path.as_str());
    Ok(())
}

/// Makes the names last in the folder of a path, to which a link may have led.
fn sync_names<R: Files + AllocGlobal>(rt: &R, path: &str) {
    if let Some(folder) = Path::new(path).parent() {
        sync_folder(rt, folder.as_str());
    }
}

/// Writes a file beside its place.
fn stage<R: Files + AllocGlobal>(rt: &R, path: &str, bytes: &[u8]) -> io::Result<FilePaths>
where
    R::File: LockFile,
{
    let paths = paths_of(rt, path)?;
    let replaced = metadata_at(rt, paths.path.as_str())?;
    let mut file = create_anew(rt, paths.beside.as_str())?;
    match write_whole(&mut file, bytes, replaced.as_ref()) {
        Ok(()) => {
            sync_names(rt, paths.path.as_str());
            Ok(paths)
        }
        Err(error) => {
            let _ = fs::remove_file(rt, paths.beside.as_str());
            Err(error)
        }
    }
}

/// The paths of a file of the folder. Nothing where it can have none.
fn paths_in<R: Files + AllocGlobal>(
    rt: &R,
    dir: &str,
    file: &InputFile,
) -> Result<Option<FilePaths>, Fault> {
    let path = path_of(rt.alloc(), dir, file)?;
    match paths_of(rt, path.as_str()) {
        Ok(paths) => Ok(Some(paths)),
        Err(error) => passed_over(&error),
    }
}

/// The paths of a file that stands at this one, or is to stand there.
fn paths_of<R: Files + AllocGlobal>(rt: &R, path: &str) -> io::Result<FilePaths> {
    let path = end_of_links(rt, path)?;
    let beside = format!(in rt.alloc(); "{path}.new")?;
    Ok(FilePaths { path, beside })
}

/// Where a file stands: its path, or the end of all symbolic links where it is one. A link that leads
/// nowhere has no end.
fn end_of_links<R: Files + AllocGlobal>(rt: &R, path: &str) -> io::Result<String> {
    match fs::symlink_metadata(rt, path) {
        Ok(metadata) if metadata.is_symlink() => Ok(fs::canonicalize(rt, path)?.into_string()),
        Ok(_) => Ok(String::from_str(rt.alloc(), path)?),
        Err(error) if error.kind() == ErrorKind::NotFound => {
            Ok(String::from_str(rt.alloc(), path)?)
        }
        Err(error) => Err(error),
    }
}

/// What the system tells of the file at this path, or none where nothing stands there. A folder can't
/// be rewritten, nor a file that may not be written.
fn metadata_at<R: Files>(rt: &R, path: &str) -> io::Result<Option<Metadata>> {
    match fs::metadata(rt, path) {
        Ok(metadata) if metadata.is_file() => {
            let _file = OpenOptions::new().write(true).open(rt, path)?;
            Ok(Some(metadata))
        }
        Ok(_) => Err(io::Error::from(ErrorKind::IsADirectory)),
        Err(error) if error.kind() == ErrorKind::NotFound => Ok(None),
        Err(error) => Err(error),
    }
}

/// A new file at a path, in the place of one that a stopped call left there.
fn create_anew<R: Files>(rt: &R, path: &str) -> io::Result<R::File> {
    match fs::remove_file(rt, path) {
        Ok(()) => {}
        Err(error) if error.kind() == ErrorKind::NotFound => {}
        Err(error) => return Err(error),
    }
    File::create_new(rt, path)
}

/// Gives an open file the group and the owner of the one that it replaces, each where the system lets it. By its name they could
/// go to another file, which somebody puts there meanwhile.
fn keep_owner<F: LockFile>(file: &F, replaced: &Metadata) {
    let _ = file.give(None, Some(replaced.gid()));
    let _ = file.give(Some(replaced.uid()), None);
}

/// The mode comes behind the owner, whose change may take bits of it away.
fn write_whole<F: Write + OpenFile + LockFile>(
    file: &mut F,
    bytes: &[u8],
    replaced: Option<&Metadata>,
) -> io::Result<()> {
    if let Some(metadata) = replaced {
        keep_owner(&*file, metadata);
        file.set_permissions(metadata.permissions())?;
    }
    file.write_all(bytes)?;
    file.sync_all()
}
