// The files that a call reads, and why one is refused.

ghost use Rattle.std.specs.Fmt.{DisplaysOnOk};
ghost use Rattle.std.specs.Prelude.{◌≡◌, ◌⊎◌, IfErr, IfOk, Some, string_bytes};
ghost use Rattle.lists.specs.Answers.{Answers};
ghost use Rattle.inputs.specs.Errors.{IsUnreadAt, read_as};
ghost use Rattle.inputs.specs.FileNames.{name_of, named, path_of};
ghost use Rattle.inputs.specs.Inputs.{environment_in, index_in, requirements_in};
ghost use Rattle.inputs.specs.declared.fault.Fault.TheVariants as faults;
ghost use Rattle.inputs.specs.declared.input_files.InputFault.TheVariants.{OutOfMemory};

use crate::fault::Fault;
use crate::unread::Unread;
use edits::TargetName;
use lists::Text;
use pep508::{Cause, Environment, Fault as LineFault, ReqFile};
use pylock::Fault as LockFault;
use snapshot::{Fault as IndexFault, Snapshot};
use std::alloc::{AllocError, Global};
use std::fs::{File, FileType};
use std::io::{self, ErrorKind, Read};
use std::os::unix::fs::FileTypeExt;
use std::rt::Files;
use std::{fmt, fs};

/// The kind of the error of what is no regular file.
pub const NO_REGULAR_FILE: ErrorKind = ErrorKind::Unsupported;

/// The kind of the error of what is handed over and has more bytes than are taken.
pub const TOO_LONG: ErrorKind = ErrorKind::FileTooLarge;

// How many bytes are taken of an index that is handed over.
const MOST_OF_INDEX: u64 = 1 << 30;

// How many bytes are taken of anything else that is handed over.
const MOST_OF_OTHERS: u64 = 1 << 25;

/// A file that a call reads. The first three stand in its folder, and are written too.
#[derive(Debug, Drop)]
pub enum InputFile {
    Requirements,
    /// The lock of this target.
    Lock(TargetName),
    Journal,
    Index,
    /// The environment of this target.
    Environment(TargetName),
    /// The requirements file that is put in the place of the folder's.
    NewRequirements,
    /// The requirements file as it was before somebody changed the folder's.
    OldRequirements,
    /// The pins of the target of this name, or of every target.
    Pins(Text),
}

impl Clone for InputFile {
    ghost is_clone = { λ file copy. copy ≡ file };

    fn clone(&self) -> Result<InputFile, AllocError> {
        Ok(match self {
            InputFile::Requirements => InputFile::Requirements,
            InputFile::Lock(name) => InputFile::Lock(name.clone()?),
            InputFile::Journal => InputFile::Journal,
            InputFile::Index => InputFile::Index,
            InputFile::Environment(name) => InputFile::Environment(name.clone()?),
            InputFile::NewRequirements => InputFile::NewRequirements,
            InputFile::OldRequirements => InputFile::OldRequirements,
            InputFile::Pins(name) => InputFile::Pins(name.clone()?),
        })
    }
}

impl fmt::Display for InputFile {
    ghost output = { λ file. Some (name_of file) };

    fn fmt<W: fmt::Write>(&self, f: &mut fmt::Formatter<W>) -> fmt::Result {
        match self {
            InputFile::Requirements => write!(f, "requirements.txt"),
            InputFile::Lock(name) => {
                let file = name.lock_file();
                write!(f, "{file}")
            }
            InputFile::Journal => write!(f, "reqlock.journal"),
            InputFile::Index => write!(f, "index"),
            InputFile::Environment(name) => write_named(f, "environment", name.as_str()),
            InputFile::NewRequirements => write!(f, "new requirements"),
            InputFile::OldRequirements => write!(f, "old requirements"),
            InputFile::Pins(name) => write_named(f, "pins", name.as_str()),
        }
    }
}

/// The empty name of a target is left out with its space.
fn write_named<W: fmt::Write>(
    f: &mut fmt::Formatter<W>,
    word: &'static str,
    name: &str,
) -> fmt::Result
    ensures { DisplaysOnOk W.write_str_gives f.old result (Some (named word.now name.now)) f.new }
{
    if name.is_empty() {
        write!(f, "{word}")
    } else {
        write!(f, "{word} {name}")
    }
}

/// The path of a file of the folder.
pub fn path_of(alloc: Global, dir: &str, file: &InputFile) -> Result<String, AllocError>
    ensures { IfOk result (λ path. string_bytes path ≡ path_of dir.now file.now) }
{
    format!(in alloc; "{dir}/{file}")
}

/// Why an input was refused.
#[derive(Debug, Drop)]
pub enum InputFault {
    /// The file could not be read.
    Unreadable(Unread),
    /// The requirements file is refused. The line is 0 where the fault is of no line.
    Requirements(LineFault),
    /// The index is refused.
    Index(IndexFault),
    /// The environment is refused.
    Environment(Cause),
    /// The file of pins is no lock.
    Lock(LockFault),
    /// This line of a file of pins, from 1, is no pin.
    NoPin(usize),
    /// The file isn't the one that was saved with the journal.
    Disagrees,
    /// The journal doesn't read at this line, from 1.
    JournalBroken(usize),
    OutOfMemory,
}

impl From<AllocError> for InputFault {
    ghost from_gives = { λ _ fault. fault ≡ OutOfMemory };

    fn from(_error: AllocError) -> InputFault {
        InputFault::OutOfMemory
    }
}

/// The bytes of a file, or its fault.
pub fn read_bytes<R: Files + AllocGlobal>(
    rt: &R,
    file: InputFile,
    path: &str,
) -> Result<Vec<u8>, Fault>
    ensures { IfErr result (λ fault. (fault ≡ faults.OutOfMemory)
        ⊎ (IsUnreadAt file path.now fault)) }
{
    let place = Text::copy_of(rt.alloc(), path)?;
    let read = read_file(rt, &file, path);
    read_as(file, place, read)
}

/// What was read of a file at this path, or why it can't be read.
pub fn read_as<T>(file: InputFile, path: Text, read: io::Result<T>) -> Result<T, Fault>
    ensures { result ≡ read_as file path read }
{
    match read {
        Ok(bytes) => Ok(bytes),
        Err(error) => match error.kind() {
            ErrorKind::OutOfMemory => Err(Fault::OutOfMemory),
            _ => {
                let unread = Unread::At(path, error);
                Err(Fault::Input(file, InputFault::Unreadable(unread)))
            }
        },
    }
}

/// The bytes of a regular file. Who can put a pipe in its place could else make every call wait. What a call
/// names itself may also be a pipe that the shell or the system hands over, as `/dev/stdin`. Of a device, which may have no
/// end, nothing is read.
pub fn read_file<R: Files + AllocGlobal>(
    rt: &R,
    file: &InputFile,
    path: &str,
) -> io::Result<Vec<u8>> {
    let kind = fs::metadata(rt, path)?.file_type();
    if is_handed_over(file, path) && is_read_of(path, kind) {
        return read_bounded(rt.alloc(), file, File::open(rt, path)?);
    }
    if kind.is_file() {
        return fs::read(rt, path);
    }
    Err(io::Error::from(NO_REGULAR_FILE))
}

/// Whether what the system hands over is read: a file, a pipe, or the device that has nothing.
fn is_read_of(path: &str, kind: FileType) -> bool {
    kind.is_file() || kind.is_fifo() || path == "/dev/null"
}

/// All bytes of what is handed over in the place of a file; an error where they are too many.
pub fn read_bounded<I: Read + Drop>(
    alloc: Global,
    file: &InputFile,
    input: I,
) -> io::Result<Vec<u8>> {
    let most = match file {
        InputFile::Index => MOST_OF_INDEX,
        _other => MOST_OF_OTHERS,
    };
    let mut bytes = Vec::new(alloc);
    let mut front = input.take(most);
    front.read_to_end(&mut bytes)?;
    let mut rest = front.into_inner();
    match rest.read(&mut [0])? {
        0 => Ok(bytes),
        _more => Err(io::Error::from(TOO_LONG)),
    }
}

/// Whether a call names the file itself, in a place where the shell and the system hand over.
fn is_handed_over(file: &InputFile, path: &str) -> bool {
    match file {
        InputFile::Index
        | InputFile::Environment(_)
        | InputFile::NewRequirements
        | InputFile::OldRequirements
        | InputFile::Pins(_) => { path.starts_with("/dev/") || path.starts_with("/proc/") }
        InputFile::Requirements | InputFile::Lock(_) | InputFile::Journal => false,
    }
}

/// The requirements file that these bytes are.
pub fn read_requirements(alloc: Global, bytes: &[u8]) -> Result<ReqFile, InputFault>
    ensures { Answers InputFault.OutOfMemory (requirements_in bytes.now) result }
{
    match ReqFile::read(alloc, bytes) {
        Ok(file) => Ok(file),
        Err(fault) if fault.cause == Cause::OutOfMemory => Err(InputFault::OutOfMemory),
        Err(fault) => Err(InputFault::Requirements(fault)),
    }
}

/// The index that these bytes are.
pub fn read_index(alloc: Global, bytes: &[u8]) -> Result<Snapshot, InputFault>
    ensures { Answers InputFault.OutOfMemory (index_in bytes.now) result }
{
    match Snapshot::read(alloc, bytes) {
        Ok(snapshot) => Ok(snapshot),
        Err(IndexFault::OutOfMemory) => Err(InputFault::OutOfMemory),
        Err(fault) => Err(InputFault::Index(fault)),
    }
}

/// The environment that these bytes are.
pub fn read_environment(alloc: Global, bytes: &[u8]) -> Result<Environment, InputFault>
    ensures { Answers InputFault.OutOfMemory (environment_in bytes.now) result }
{
    match Environment::read(alloc, bytes) {
        Ok(environment) => Ok(environment),
        Err(fault) if fault.cause == Cause::OutOfMemory => Err(InputFault::OutOfMemory),
        Err(fault) => Err(InputFault::Environment(fault.cause)),
    }
}
