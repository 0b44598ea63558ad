// The text of why an input is refused.

use inputs::InputFault;
use pep508::{Cause, Fault as LineFault};
use phrases::cause_word::cause_word;
use pylock::Fault as LockFault;
use snapshot::Fault as IndexFault;
use std::fmt;

/// The text of a fault of an input.
#[derive(Clone, Copy)]
pub struct InputFaultText<'a> {
    /// The fault.
    pub fault: &'a InputFault,
}

impl fmt::Display for InputFaultText<'_> {
    fn fmt<W: fmt::Write>(&self, f: &mut fmt::Formatter<W>) -> fmt::Result {
        match self.fault {
            InputFault::Unreadable(_) => write!(f, "unreadable"),
            InputFault::Requirements(fault) => write_line_fault(f, *fault),
            InputFault::Index(fault) => write_index_fault(f, fault),
            InputFault::Environment(cause) => write_cause(f, *cause),
            InputFault::Lock(fault) => write_lock_fault(f, fault),
            InputFault::NoPin(line) => write!(f, "line {line}: no-pin"),
            InputFault::Disagrees => write!(f, "files-disagree"),
            InputFault::JournalBroken(line) => write!(f, "line {line}: journal-broken"),
            InputFault::OutOfMemory => write!(f, "out-of-memory"),
        }
    }
}

fn write_line_fault<W: fmt::Write>(f: &mut fmt::Formatter<W>, fault: LineFault) -> fmt::Result {
    let line = fault.line;
    if line != 0 {
        write!(f, "line {line}: ")?;
    }
    write_cause(f, fault.cause)
}

fn write_cause<W: fmt::Write>(f: &mut fmt::Formatter<W>, cause: Cause) -> fmt::Result {
    let detail = match cause {
        Cause::BadEnvironment(Some(variable)) => variable.name(),
        _ => "",
    };
    write_detail(f, cause_word(cause), detail)
}

fn write_lock_fault<W: fmt::Write>(f: &mut fmt::Formatter<W>, fault: &LockFault) -> fmt::Result {
    match fault {
        LockFault::NotToml => write!(f, "not-toml"),
        LockFault::Shape(key) => write_detail(f, "shape", key.as_str()),
        LockFault::VersionUnsupported => write!(f, "version-unsupported"),
        LockFault::OutOfMemory => write!(f, "out-of-memory"),
    }
}

fn write_index_fault<W: fmt::Write>(f: &mut fmt::Formatter<W>, fault: &IndexFault) -> fmt::Result {
    match fault {
        IndexFault::NotJson => write!(f, "not-json"),
        IndexFault::Shape(path) => write_detail(f, "shape", path.as_str()),
        IndexFault::DuplicatePackage(name) => write_detail(f, "duplicate-package", name.normal()),
        IndexFault::OutOfMemory => write!(f, "out-of-memory"),
    }
}

/// An empty detail is left out with its space.
fn write_detail<W: fmt::Write>(f: &mut fmt::Formatter<W>, word: &str, detail: &str) -> fmt::Result {
    if detail.is_empty() {
        write!(f, "{word}")
    } else {
        write!(f, "{word} {detail}")
    }
}
