// The values of `--pins`: files of pins, and the targets that they are for.

ghost use Rattle.lists.specs.Answers.{Answers};
ghost use Rattle.std.specs.Prelude.{◌≡◌, ◌++◌, IfOk, OnOk, map};
ghost use Rattle.inputs.specs.Pins.{pins_in};
ghost use Rattle.inputs.specs.PinsFiles as spec;
ghost use Rattle.inputs.specs.Handed.{AreAt};
ghost use Rattle.inputs.specs.TargetFiles.{target_file_of};
ghost use Rattle.inputs.specs.declared.fault.Fault.TheVariants as faults;
ghost use Rattle.inputs.specs.declared.input_files.InputFault.TheVariants.{OutOfMemory};

use crate::fault::{Fault, in_file};
use crate::handed_files::HandedFiles;
use crate::input_files::{InputFault, InputFile};
use crate::named_file::{NamedBytes, NamedPath};
use crate::pin_fault::PinFault;
use crate::pin_file::PinFile;
use crate::target_files::parts_of;
use crate::unread::Unread;
use edits::{Environment, Name, TargetName, TargetPins};
use lists::{Seq, Text};
use pep440::Version;
use std::alloc::{AllocError, Global};

// How many dots any lock may have.
const MANY_DOTS: usize = 1000;

/// A file of pins as it was read, and the target that it is for, by a name which there may be none of. Without a name it
/// is for every target that no other file is for.
#[derive(Drop)]
pub struct PinsFile {
    pub target: Text,
    pub file: PinFile,
}

/// A target of a history, or of one that is to begin, lent.
#[derive(Clone, Copy)]
pub struct LentTarget<'a> {
    pub name: &'a TargetName,
    pub environment: &'a Environment,
}

/// The files that values of `--pins` name, in their order. No file has been read.
pub fn pins_paths(alloc: Global, values: &[Text]) -> Result<Vec<NamedPath<Text>>, AllocError>
    ensures { IfOk result (λ paths. paths.items ≡ map target_file_of values.now) }
{
    let mut paths = Vec::with_capacity(alloc, values.len())?;
    for value in values {
        paths.push(pins_path(alloc, value.as_str())?)?;
    }
    Ok(paths)
}

/// The target and the path of a value.
fn pins_path(alloc: Global, value: &str) -> Result<NamedPath<Text>, AllocError>
    ensures { IfOk result (λ path. path ≡ target_file_of value.now) }
{
    let (name, path) = parts_of(value);
    let name = Text::copy_of(alloc, name)?;
    let path = Text::copy_of(alloc, path)?;
    Ok(NamedPath { name, path })
}

/// The bytes of the files, read in the order of the command line.
pub fn read_pins<G: HandedFiles>(
    handed: &G,
    paths: Vec<NamedPath<Text>>,
) -> Result<Vec<NamedBytes<Text>>, Fault>
    ensures { IfOk result
        (λ read. AreAt (G.handed handed.now) InputFile.Pins paths.items read.items) }
{
    let mut read = Vec::with_capacity(handed.alloc(), paths.len())?;
    for NamedPath { name, path } in paths {
        let bytes = handed.read(InputFile::Pins(name.clone()?), path.as_str())?;
        read.push(NamedBytes { name, path, bytes })?;
    }
    Ok(read)
}

/// How many bytes are dots.
fn count_dots(bytes: &[u8]) -> usize
    ensures { result ≡ spec.count_dots bytes.now }
{
    bytes.iter().filter(|byte| **byte == b'.').count()
}

/// Whether a lock is mostly dotted keys. Each part of one is a table, which takes a thousand times the room of its text.
fn has_many_dots(bytes: &[u8]) -> bool
    ensures { result ≡ spec.has_many_dots bytes.now }
{
    let dots = count_dots(bytes);
    dots > MANY_DOTS && bytes.len() / 8 < dots
}

/// The file of pins that these bytes are: a lock or a requirements file. A lock that is mostly dotted keys isn't read.
pub fn read_pin_file(alloc: Global, is_lock: bool, bytes: &[u8]) -> Result<PinFile, InputFault>
    ensures { Answers OutOfMemory (spec.pin_file_in is_lock bytes.now) result }
{
    if is_lock && has_many_dots(bytes) {
        return Err(InputFault::Unreadable(Unread::ManyDots));
    }
    if is_lock {
        as_input(PinFile::read_lock(alloc, bytes))
    } else {
        as_input(PinFile::read_lines(alloc, bytes))
    }
}

/// A file of pins, or its fault as that of an input.
fn as_input(read: Result<PinFile, PinFault>) -> Result<PinFile, InputFault>
    ensures { result ≡ spec.as_pins read }
{
    match read {
        Ok(file) => Ok(file),
        Err(PinFault::Lock(fault)) => Err(InputFault::Lock(fault)),
        Err(PinFault::Lines(fault)) => Err(InputFault::Requirements(fault)),
        Err(PinFault::NoPin(line)) => Err(InputFault::NoPin(line)),
        Err(PinFault::OutOfMemory) => Err(InputFault::OutOfMemory),
    }
}

/// The files that the bytes are; faults are told in their order.
fn pins_files(alloc: Global, read: Vec<NamedBytes<Text>>) -> Result<Seq<PinsFile>, Fault>
    ensures { Answers faults.OutOfMemory (spec.pins_files_in read.items) result }
{
    let mut files = Vec::with_capacity(alloc, read.len())?;
    for named in read {
        files.push(pins_file(alloc, named)?)?;
    }
    Ok(Seq::from_vec(files))
}

/// The file that the bytes are: a lock where its path ends so, else a requirements file.
fn pins_file(alloc: Global, read: NamedBytes<Text>) -> Result<PinsFile, Fault>
    ensures { Answers faults.OutOfMemory (spec.named_pins read) result }
{
    let NamedBytes { name, path, bytes } = read;
    let is_lock = path.as_str().as_bytes().ends_with(b".toml");
    let file = InputFile::Pins(name.clone()?);
    let file = in_file(file, read_pin_file(alloc, is_lock, bytes.as_slice()))?;
    Ok(PinsFile { target: name, file })
}

/// What the files pin for each of the targets. The first file that is for none of them is told, behind the first that
/// is no file of pins.
pub fn pins_of(
    alloc: Global,
    read: Vec<NamedBytes<Text>>,
    targets: &[LentTarget<'_>],
) -> Result<Seq<TargetPins>, Fault>
    ensures { IfOk result (λ pins.
        spec.ArePinsOf read.items (map spec.given_by targets.now) pins) }
{
    let files = pins_files(alloc, read)?;
    for file in files.as_slice() {
        let name = file.target.as_str();
        if !name.is_empty() && !targets.iter().any(|target| target.name.as_str() == name) {
            return Err(Fault::NoTarget(file.target.clone()?));
        }
    }
    Ok(pins_for(alloc, files.as_slice(), targets)?)
}

/// Whether one of the files is for the target alone.
fn has_own(files: &[PinsFile], target: &TargetName) -> bool
    ensures { result ≡ spec.has_own files.now target.now }
{
    files
        .iter()
        .any(|file| file.target.as_str() == target.as_str())
}

/// Whether a file is for the target: it names it, or none does and it names no target.
fn is_for(file: &PinsFile, target: &TargetName, has_own: bool) -> bool
    ensures { result ≡ spec.is_for has_own target.now file.now }
{
    if has_own {
        file.target.as_str() == target.as_str()
    } else {
        file.target.as_str().is_empty()
    }
}

/// Puts what a file pins in an environment behind others.
fn add_versions(
    alloc: Global,
    all: &mut Vec<(Name, Version)>,
    file: &PinFile,
    environment: &Environment,
) -> Result<(), AllocError>
    ensures { OnOk result (all.new.items ≡ all.old.items ++ pins_in environment.now file.now) }
{
    for pin in file.versions(alloc, environment)?.into_vec() {
        all.push(pin)?;
    }
    Ok(())
}

/// What the files pin for the target.
fn versions_for(
    alloc: Global,
    files: &[PinsFile],
    target: LentTarget<'_>,
) -> Result<Seq<(Name, Version)>, AllocError>
    ensures { IfOk result (λ versions.
        versions ≡ spec.versions_for files.now target.entry.name.now target.entry.environment.now) }
{
    let has_own = has_own(files, target.name);
    let mut all = Vec::new(alloc);
    for file in files {
        if is_for(file, target.name, has_own) {
            add_versions(alloc, &mut all, &file.file, target.environment)?;
        }
    }
    Ok(Seq::from_vec(all))
}

/// What the files pin for each of the targets.
pub fn pins_for(
    alloc: Global,
    files: &[PinsFile],
    targets: &[LentTarget<'_>],
) -> Result<Seq<TargetPins>, AllocError>
    ensures { IfOk result (λ pins. pins ≡ spec.pins_for files.now targets.now) }
{
    let mut pins = Vec::with_capacity(alloc, targets.len())?;
    for given in targets {
        let versions = versions_for(alloc, files, *given)?;
        let target = given.name.clone()?;
        pins.push(TargetPins { target, versions })?;
    }
    Ok(Seq::from_vec(pins))
}
