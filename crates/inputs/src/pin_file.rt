// Files of pins, and what they pin in an environment.

ghost use Rattle.std.specs.Prelude.{◌≡◌, ◌++◌, IfOk, OnOk, map};
ghost use Rattle.std.specs.Option.{option_to_list};
ghost use Rattle.lists.specs.Answers.{Answers};
ghost use Rattle.inputs.specs.Pins as spec;
ghost use Rattle.inputs.specs.declared.pin_fault.PinFault.TheVariants.{OutOfMemory};

use crate::pin_fault::PinFault;
use crate::pinned_version::{first_no_pin, pinned};
use lists::Seq;
use pep440::Version;
use pep508::{Cause, Environment, Line, Name, ReqFile};
use pylock::{Entry, Fault as LockFault, Lock};
use std::alloc::{AllocError, Global};

/// A file of pins.
#[derive(Drop)]
pub enum PinFile {
    /// A lock of reqlock. Its versions are pins in every environment.
    Lock(Lock),
    /// A requirements file. Each of its requirements pins a version.
    Lines(ReqFile),
}

/// The pin of a line, where the line counts in the environment.
fn pin_in(
    alloc: Global,
    environment: &Environment,
    line: &Line,
) -> Result<Option<(Name, Version)>, AllocError>
    ensures { IfOk result
        (λ pin. option_to_list pin ≡ spec.pins_of_line environment.now line.now) }
{
    let Some(requirement) = line.requirement() else {
        return Ok(None);
    };
    if !requirement.is_active(environment) {
        return Ok(None);
    }
    match pinned(requirement) {
        Some(version) => {
            let name = requirement.name().clone()?;
            let version = version.clone()?;
            Ok(Some((name, version)))
        }
        None => Ok(None),
    }
}

/// Puts a pin behind others, where there is one.
fn add_pin(pins: &mut Vec<(Name, Version)>, pin: Option<(Name, Version)>) -> Result<(), AllocError>
    ensures { OnOk result (pins.new.items ≡ pins.old.items ++ option_to_list pin) }
{
    if let Some(pin) = pin {
        pins.push(pin)?;
    }
    Ok(())
}

/// The pins of the lines that count in the environment.
fn pins_of_lines(
    alloc: Global,
    environment: &Environment,
    lines: &[Line],
) -> Result<Seq<(Name, Version)>, AllocError>
    ensures { IfOk result (λ pins. pins ≡ spec.pins_of_lines environment.now lines.now) }
{
    let mut pins = Vec::new(alloc);
    for line in lines {
        add_pin(&mut pins, pin_in(alloc, environment, line)?)?;
    }
    Ok(Seq::from_vec(pins))
}

/// The names of entries, with their versions.
fn pins_of_entries(alloc: Global, entries: &[Entry]) -> Result<Seq<(Name, Version)>, AllocError>
    ensures { IfOk result (λ pins. pins ≡ map (λ e. (e.name, e.version)) entries.now) }
{
    let mut pins = Vec::with_capacity(alloc, entries.len())?;
    for entry in entries {
        pins.push((entry.name().clone()?, entry.version().clone()?))?;
    }
    Ok(Seq::from_vec(pins))
}

impl PinFile {
    /// Reads a lock of reqlock.
    pub fn read_lock(alloc: Global, bytes: &[u8]) -> Result<PinFile, PinFault>
        ensures { Answers OutOfMemory (spec.locked_pins bytes.now) result }
    {
        match Lock::read(alloc, bytes) {
            Ok(lock) => Ok(PinFile::Lock(lock)),
            Err(LockFault::OutOfMemory) => Err(PinFault::OutOfMemory),
            Err(fault) => Err(PinFault::Lock(fault)),
        }
    }

    /// Reads a requirements file of pins. `NoPin` has the first line that asks for something else than one
    /// version; the file's own faults come before.
    pub fn read_lines(alloc: Global, bytes: &[u8]) -> Result<PinFile, PinFault>
        ensures { Answers OutOfMemory (spec.written_pins bytes.now) result }
    {
        let file = read_requirements(alloc, bytes)?;
        match first_no_pin(file.lines()) {
            Some(number) => Err(PinFault::NoPin(number)),
            None => Ok(PinFile::Lines(file)),
        }
    }

    /// The names that the file pins in the environment, each with its version, in the file's order. Of a
    /// requirements file lines whose marker doesn't hold there count for nothing.
    pub fn versions(
        &self,
        alloc: Global,
        environment: &Environment,
    ) -> Result<Seq<(Name, Version)>, AllocError>
        ensures { IfOk result (λ pins. pins ≡ spec.pins_in environment.now self.now) }
    {
        match self {
            PinFile::Lock(lock) => pins_of_entries(alloc, lock.entries()),
            PinFile::Lines(file) => pins_of_lines(alloc, environment, file.lines()),
        }
    }
}

/// The requirements file that the bytes are.
fn read_requirements(alloc: Global, bytes: &[u8]) -> Result<ReqFile, PinFault>
    ensures { Answers OutOfMemory (spec.read_lines bytes.now) result }
{
    match ReqFile::read(alloc, bytes) {
        Ok(file) => Ok(file),
        Err(fault) if fault.cause == Cause::OutOfMemory => Err(PinFault::OutOfMemory),
        Err(fault) => Err(PinFault::Lines(fault)),
    }
}
