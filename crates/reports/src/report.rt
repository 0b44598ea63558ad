// The status that the program ends with, and how it tells why it stops.

ghost use Rattle.std.specs.Io.KnownBytes.{Appends};
ghost use Rattle.std.specs.Prelude.{◌≡◌, ◌⊎◌, OnErr, OnOk, string_bytes};
ghost use Rattle.stops.specs.declared.stop.Stop.TheVariants as stops;
ghost use Rattle.commands.specs.Runs.{IsCutOff};
ghost use Rattle.reports.specs.Statuses.{HasStatus, HasUsageStatus, IsPrinted, number_of, refusal_line, status_of_none_saved};
ghost use Rattle.reports.specs.declared.report.Status.TheVariants as statuses;

use crate::input_fault_text::InputFaultText;
use crate::output::{print, show};
use clap::error::ErrorKind;
use command_line::request::{Beginning, NeededOption};
use commands::batch::StreamFault;
use commands::refusal_word;
use edits::Refusal;
use std::io::Write;
use stops::{Stop, UsageText};

/// The status that the program ends with.
#[derive(Clone, Copy, Debug, PartialEq, Eq)]
pub enum Status {
    Done,
    Refused,
    Usage,
    NoSolution,
    /// An input file is refused.
    InputRefused,
    /// Memory, a read or a write failed.
    Fault,
}

impl Status {
    /// The number that the system is given.
    pub fn number(self) -> u8
        ensures { result ≡ number_of self }
    {
        match self {
            Status::Done => 0,
            Status::Refused => 1,
            Status::Usage => 2,
            Status::NoSolution => 3,
            Status::InputRefused => 4,
            Status::Fault => 5,
        }
    }
}

/// Tells why the program stops, and gives its status. A text that can't be written to `errors`
/// changes no status.
pub fn report<O: Write, E: Write>(stop: &Stop, output: &mut O, errors: &mut E) -> Status
    ensures { HasStatus stop.now result (O.contents output.old) (O.contents output.new) }
{
    match stop {
        Stop::Usage(usage) => report_usage(usage, output, errors),
        Stop::Needed(option) => report_needed(*option, errors),
        Stop::Refused(refusal) => report_refusal(refusal, output, errors),
        Stop::Refuted(text) => report_text(text.as_str(), Status::NoSolution, output, errors),
        Stop::Explained(text) => report_explanation(text.as_str(), output, errors),
        Stop::NoneSaved(refusal) => report_none_saved(refusal, errors),
        Stop::Stale(text) | Stop::Uncovered(text) => {
            report_text(text.as_str(), Status::Refused, output, errors)
        }
        Stop::Input(file, fault) => {
            let fault = InputFaultText { fault };
            let _ = writeln!(errors, "reqlock: {file}: {fault}");
            Status::InputRefused
        }
        Stop::NoPlace(place) => {
            let _ = writeln!(errors, "reqlock: the history has no place {place}");
            Status::Usage
        }
        Stop::NoBeginning(beginning, cursor) => report_no_beginning(*beginning, *cursor, errors),
        Stop::NoTarget(name) => {
            let name = name.as_str();
            let _ = writeln!(errors, "reqlock: --pins has no target {name}");
            Status::Usage
        }
        Stop::Unwritten(file) => {
            let _ = writeln!(errors, "reqlock: {file}: write failed");
            Status::Fault
        }
        Stop::Fault(fault) => report_fault(*fault, errors),
    }
}

/// Tells a fault of memory or of a stream, and gives its status.
pub fn report_fault<E: Write>(fault: StreamFault, errors: &mut E) -> Status
    ensures { result ≡ statuses.Fault }
{
    let text = match fault {
        StreamFault::Read => "input: read failed",
        StreamFault::Write => "output: write failed",
        StreamFault::OutOfMemory => "out of memory",
    };
    let _ = writeln!(errors, "reqlock: {text}");
    Status::Fault
}

/// The status of one command with this refusal. What was refused is on the output already.
fn report_none_saved<E: Write>(refusal: &Refusal, errors: &mut E) -> Status
    ensures { result ≡ status_of_none_saved refusal.now }
{
    match refusal {
        Refusal::NoSolution => Status::NoSolution,
        Refusal::OutOfMemory => report_fault(StreamFault::OutOfMemory, errors),
        Refusal::BadText
        | Refusal::AlreadyPresent(_)
        | Refusal::NotPresent
        | Refusal::Ambiguous(_)
        | Refusal::NotLocked(_)
        | Refusal::NothingChanges
        | Refusal::NothingToUndo
        | Refusal::NothingToRedo
        | Refusal::FilesDisagree(_)
        | Refusal::JournalBroken(_)
        | Refusal::BadCommand
        | Refusal::BadTarget
        | Refusal::DuplicateTarget(_)
        | Refusal::NoTarget => Status::Refused,
    }
}

fn report_needed<E: Write>(option: NeededOption, errors: &mut E) -> Status
    ensures { result ≡ statuses.Usage }
{
    let shown = match option {
        NeededOption::Index => "--index",
        NeededOption::Environment => "--env",
    };
    let _ = writeln!(errors, "reqlock: {shown} is needed");
    Status::Usage
}

/// Tells that a history which stands in this place can't begin where it is asked to.
fn report_no_beginning<E: Write>(beginning: Beginning, cursor: usize, errors: &mut E) -> Status
    ensures { result ≡ statuses.Usage }
{
    let _ = match beginning {
        Beginning::At(place) => writeln!(
            errors,
            "reqlock: the history stands at place {cursor}, and can't begin at place {place}"
        ),
        Beginning::Back(count) => writeln!(
            errors,
            "reqlock: the history stands at place {cursor}, and can't begin {count} before it"
        ),
    };
    Status::Usage
}

/// The empty name is left out with its space.
fn report_twice<E: Write>(name: &str, errors: &mut E) -> Status
    ensures { result ≡ statuses.Usage }
{
    let space = if name.is_empty() { "" } else { " " };
    let _ = writeln!(errors, "reqlock: --env {name}{space}twice");
    Status::Usage
}

/// Help goes to the output, and is no mistake.
fn report_usage<O: Write, E: Write>(usage: &UsageText, output: &mut O, errors: &mut E) -> Status
    ensures { HasUsageStatus usage.now.kind (string_bytes usage.now.text) result
        (O.contents output.old) (O.contents output.new) }
{
    let text = usage.text.as_str();
    match usage.kind {
        ErrorKind::DisplayHelp | ErrorKind::DisplayVersion => {
            report_text(text, Status::Done, output, errors)
        }
        _ => {
            let _ = write!(errors, "{text}");
            Status::Usage
        }
    }
}

/// A target that is refused is a mistake in the words of the call.
fn report_refusal<O: Write, E: Write>(refusal: &Refusal, output: &mut O, errors: &mut E) -> Status
    ensures { HasStatus (stops.Refused refusal.now) result
        (O.contents output.old) (O.contents output.new) }
{
    match refusal {
        Refusal::BadTarget => {
            let _ = writeln!(errors, "reqlock: --env has a bad name");
            Status::Usage
        }
        Refusal::DuplicateTarget(name) => report_twice(name.as_str(), errors),
        Refusal::NoTarget => report_needed(NeededOption::Environment, errors),
        Refusal::NoSolution => report_word(refusal, Status::NoSolution, output, errors),
        Refusal::BadText
        | Refusal::AlreadyPresent(_)
        | Refusal::NotPresent
        | Refusal::Ambiguous(_)
        | Refusal::NotLocked(_)
        | Refusal::NothingChanges
        | Refusal::OutOfMemory
        | Refusal::NothingToUndo
        | Refusal::NothingToRedo
        | Refusal::FilesDisagree(_)
        | Refusal::JournalBroken(_)
        | Refusal::BadCommand => report_word(refusal, Status::Refused, output, errors),
    }
}

/// Writes the word of a refusal, which has this status.
fn report_word<O: Write, E: Write>(
    refusal: &Refusal,
    status: Status,
    output: &mut O,
    errors: &mut E,
) -> Status
    ensures { IsPrinted (refusal_line refusal.now) status result
        (O.contents output.old) (O.contents output.new) }
{
    match print_refusal(refusal, output) {
        Ok(()) => status,
        Err(fault) => report_fault(fault, errors),
    }
}

fn print_refusal<O: Write>(refusal: &Refusal, output: &mut O) -> Result<(), StreamFault>
    ensures bytes { OnOk result
        (Appends (O.contents output.old) (O.contents output.new) (refusal_line refusal.now)) }
    ensures cut_off { OnErr result
        (IsCutOff (refusal_line refusal.now) (O.contents output.old) (O.contents output.new)) }
{
    print(output, b"refused ")?;
    print(output, refusal_word(refusal).as_bytes())?;
    print(output, b"\n")?;
    Ok(())
}

/// Writes the text of an answer that has this status.
fn report_text<O: Write, E: Write>(
    text: &str,
    status: Status,
    output: &mut O,
    errors: &mut E,
) -> Status
    ensures { IsPrinted text.now status result
        (O.contents output.old) (O.contents output.new) }
{
    match print(output, text.as_bytes()) {
        Ok(()) => status,
        Err(fault) => report_fault(fault, errors),
    }
}

fn report_explanation<O: Write, E: Write>(text: &str, output: &mut O, errors: &mut E) -> Status
    ensures { ((result ≡ statuses.Done)
        × IsCutOff text.now (O.contents output.old) (O.contents output.new))
        ⊎ IsPrinted text.now statuses.NoSolution result
        (O.contents output.old) (O.contents output.new) }
{
    match show(output, text.as_bytes()) {
        Ok(true) => Status::NoSolution,
        Ok(false) => Status::Done,
        Err(fault) => report_fault(fault, errors),
    }
}
