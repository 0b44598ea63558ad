// A save of files in the place of others.

ghost use Rattle.std.specs.Prelude.{◌≡◌, IfErr, IfOk, OnOk, map};
ghost use Rattle.folder.specs.Calls.{IsDone, Ran};
ghost use Rattle.folder.specs.Saves.{IsUnderWay, saved};
ghost use Rattle.inputs.specs.FileNames.{name_of};
ghost use Rattle.files.specs.NamedRewrites.{AreNamedApart, new_file};
ghost use Rattle.files.specs.Places.{IsUnsaved};

use crate::history_folder::HistoryFolder;
use folder::{NewFile, save};
use inputs::{Fault, InputFile};
use lists::Text;
use std::alloc::{AllocError, Global};
use std::marker::Model;

/// A file that is to be rewritten, and the bytes that it is to hold.
pub struct Rewrite<'a> {
    pub file: InputFile,
    pub bytes: &'a [u8],
}

impl<'a> Drop for Rewrite<'a> {
    fn drop(self) {
        let Rewrite { file: _, bytes: _ } = self;
    }
}

impl<'a> Model for Rewrite<'a> {
    ghost use Rattle.files.specs.RewriteParts.{RewriteParts};

    ghost Value = { RewriteParts };

    ghost view = { λ r. record { file = r.file; bytes = r.bytes.now } };
}

/// The name of a file that is to be rewritten, and its bytes.
struct Named<'a> {
    name: Text,
    bytes: &'a [u8],
}

impl<'a> Drop for Named<'a> {
    fn drop(self) {
        let Named { name: _, bytes: _ } = self;
    }
}

impl<'a> Model for Named<'a> {
    ghost use Rattle.folder.specs.Saves.{NewFileParts};

    ghost Value = { NewFileParts };

    ghost view = { λ n. record { name = n.name; bytes = n.bytes.now } };
}

/// Removes files of a folder, and rewrites others in turn, as `folder::save` does. No two of these have one name.
pub fn rewrite_all<F: HistoryFolder>(
    folder: &mut F,
    rewrites: &[Rewrite<'_>],
    going: Vec<InputFile>,
) -> Result<(), Fault>
    requires { AreNamedApart rewrites.now }
    ensures done { OnOk result (Ran F.held F.may_leave F.moment F.left_since F.faults
        (IsDone (saved (map new_file rewrites.now) (map name_of going.items)))
        (IsUnderWay (map new_file rewrites.now) (map name_of going.items))
        folder.old folder.new) }
    ensures any { Ran F.held F.may_leave F.moment F.left_since F.faults
        (IsUnderWay (map new_file rewrites.now) (map name_of going.items))
        (IsUnderWay (map new_file rewrites.now) (map name_of going.items))
        folder.old folder.new }
    ensures fault { IfErr result IsUnsaved }
{
    let alloc = folder.alloc();
    let named = named_all(alloc, rewrites)?;
    let going_names = names_of_all(alloc, going.as_slice())?;
    let files = files_of(alloc, rewrites, going)?;
    folder.add(files)?;
    let files = new_files(alloc, named.as_slice())?;
    match save(&mut *folder, files.as_slice(), going_names.as_slice()) {
        Ok(()) => Ok(()),
        Err(fault) => Err(folder.unsaved(fault)),
    }
}

/// The files that are to be rewritten, with their names.
fn named_all<'a>(alloc: Global, rewrites: &[Rewrite<'a>]) -> Result<Vec<Named<'a>>, AllocError>
    ensures { IfOk result (λ named. named.items ≡ map new_file rewrites.now) }
{
    let mut named = Vec::with_capacity(alloc, rewrites.len())?;
    for rewrite in rewrites {
        let name = name_of(alloc, &rewrite.file)?;
        let bytes = rewrite.bytes;
        named.push(Named { name, bytes })?;
    }
    Ok(named)
}

/// The name of a file.
pub(crate) fn name_of(alloc: Global, file: &InputFile) -> Result<Text, AllocError>
    ensures { IfOk result (λ name. name ≡ name_of file.now) }
{
    Ok(Text::from_string(format!(in alloc; "{file}")?))
}

/// The names of files.
pub(crate) fn names_of_all(alloc: Global, files: &[InputFile]) -> Result<Vec<Text>, AllocError>
    ensures { IfOk result (λ names. names.items ≡ map name_of files.now) }
{
    let mut names = Vec::with_capacity(alloc, files.len())?;
    for file in files {
        names.push(name_of(alloc, file)?)?;
    }
    Ok(names)
}

/// Files that are to be rewritten, and others behind them.
fn files_of(
    alloc: Global,
    rewrites: &[Rewrite<'_>],
    others: Vec<InputFile>,
) -> Result<Vec<InputFile>, AllocError> {
    let mut files = Vec::with_capacity(alloc, rewrites.len())?;
    for rewrite in rewrites {
        files.push(rewrite.file.clone()?)?;
    }
    files.extend(others)?;
    Ok(files)
}

/// The same files, with their names lent.
fn new_files<'a>(alloc: Global, named: &'a [Named<'_>]) -> Result<Vec<NewFile<'a>>, AllocError>
    ensures { IfOk result (λ files. files.items ≡ named.now) }
{
    let mut files = Vec::with_capacity(alloc, named.len())?;
    for file in named {
        let name = file.name.as_str();
        let bytes = file.bytes;
        files.push(NewFile { name, bytes })?;
    }
    Ok(files)
}
