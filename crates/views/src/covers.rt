// Which targets hold in environments that are handed in.

use crate::export::usage;
use changes::are_same;
use clap::error::ErrorKind;
use edits::{Environment, ReqFile, Target, TargetName};
use exports::target_marker;
use inputs::{Fault, HandedFiles, InputFault, InputFile, read_environment};
use lists::Text;
use pep508::Marker;
use phrases::add_plain;
use reports::InputFaultText;
use snapshot::Snapshot;
use std::alloc::{AllocError, Global};
use stops::Stop;

/// A target, and the marker of the environments in which its lock holds; none if it holds in all.
struct Held<'t> {
    target: &'t Target,
    marker: Option<Marker>,
}

impl Drop for Held<'_> {
    fn drop(self) {
        let Held {
            target: _,
            marker: _,
        } = self;
    }
}

/// A line for each file, with the targets that hold in its environment, and behind them a line for each target that another one
/// covers. Where no target holds in some environment, this is what the call stops for.
pub(crate) fn covers_text<G: HandedFiles>(
    handed: &G,
    lines: &ReqFile,
    snapshot: &Snapshot,
    targets: &[Target],
    files: &[Text],
) -> Result<String, Stop> {
    let alloc = handed.alloc();
    let held = all_held(alloc, lines, snapshot, targets)?;
    let held = held.as_slice();
    let mut text = String::new(alloc);
    let mut is_covered = true;
    for file in files {
        let environment = environment_at(handed, file.as_str())?;
        add_plain(&mut text, file.as_str())?;
        add_holding(&mut text, held, &environment)?;
        is_covered = is_covered && is_held(held, &environment);
    }
    add_needless(&mut text, held)?;
    if is_covered {
        return Ok(text);
    }
    Err(Stop::Uncovered(text))
}

fn all_held<'t>(
    alloc: Global,
    lines: &ReqFile,
    snapshot: &Snapshot,
    targets: &'t [Target],
) -> Result<Vec<Held<'t>>, AllocError> {
    let mut held = Vec::with_capacity(alloc, targets.len())?;
    for target in targets {
        let marker = target_marker(alloc, lines, snapshot, &target.environment)?;
        held.push(Held { target, marker })?;
    }
    Ok(held)
}

/// Whether the target's lock holds in an environment.
fn holds_in(held: &Held<'_>, environment: &Environment) -> bool {
    match &held.marker {
        Some(marker) => marker.holds(environment, None),
        None => true,
    }
}

/// Whether the lock of a target holds in an environment.
fn is_held(held: &[Held<'_>], environment: &Environment) -> bool {
    held.iter().any(|one| holds_in(one, environment))
}

/// Puts the targets that hold in an environment behind its file.
fn add_holding(
    text: &mut String,
    held: &[Held<'_>],
    environment: &Environment,
) -> Result<(), AllocError> {
    let mut mark = ": ";
    for one in held {
        if holds_in(one, environment) {
            text.push_str(mark)?;
            add_name(text, one.target)?;
            mark = ", ";
        }
    }
    text.push_str(if is_held(held, environment) {
        "\n"
    } else {
        ": no target\n"
    })
}

/// The name of a target; one of a single environment has none.
fn add_name(text: &mut String, target: &Target) -> Result<(), AllocError> {
    if target.name.is_empty() {
        return text.push_str("the target");
    }
    text.push_str(target.name.as_str())
}

/// A line for each target that another one covers.
fn add_needless(text: &mut String, held: &[Held<'_>]) -> Result<(), AllocError> {
    for (position, one) in held.iter().enumerate() {
        if let Some(other) = covering(held, position, one) {
            text.push_str("target ")?;
            add_name(text, one.target)?;
            text.push_str(" can go: target ")?;
            add_name(text, other.target)?;
            text.push_str(" covers it\n")?;
        }
    }
    Ok(())
}

/// The first other target that has the same entries and holds in this one's environment. Of two that cover one another the first
/// one stays.
fn covering<'h, 't>(held: &'h [Held<'t>], position: usize, one: &Held<'t>) -> Option<&'h Held<'t>> {
    for (other_position, other) in held.iter().enumerate() {
        let stays = other_position < position || !does_cover(one, other);
        if other_position != position && (stays && does_cover(other, one)) {
            return Some(other);
        }
    }
    None
}

/// Whether a target has the same entries as another, and holds in its environment.
fn does_cover(held: &Held<'_>, other: &Held<'_>) -> bool {
    holds_in(held, &other.target.environment)
        && are_same(held.target.lock.entries(), other.target.lock.entries())
}

/// The environment of a file that is asked about.
fn environment_at<G: HandedFiles>(handed: &G, path: &str) -> Result<Environment, Stop> {
    match read_at(handed, path) {
        Ok(environment) => Ok(environment),
        Err(fault) => Err(no_environment(handed.alloc(), path, fault)),
    }
}

fn read_at<G: HandedFiles>(handed: &G, path: &str) -> Result<Environment, InputFault> {
    let bytes = bytes_at(handed, path)?;
    read_environment(handed.alloc(), bytes.as_slice())
}

/// The bytes of a file, which is told by its path and not by a name.
fn bytes_at<G: HandedFiles>(handed: &G, path: &str) -> Result<Vec<u8>, InputFault> {
    let file = InputFile::Environment(no_name(handed.alloc())?);
    match handed.read(file, path) {
        Ok(bytes) => Ok(bytes),
        Err(Fault::Input(_, fault)) => Err(fault),
        Err(_) => Err(InputFault::OutOfMemory),
    }
}

fn no_name(alloc: Global) -> Result<TargetName, InputFault> {
    match TargetName::parse(alloc, "") {
        Ok(name) => Ok(name),
        Err(_) => Err(InputFault::OutOfMemory),
    }
}

/// Why a file is no environment.
fn no_environment(alloc: Global, path: &str, fault: InputFault) -> Stop {
    match fault {
        InputFault::OutOfMemory => Stop::from(AllocError),
        fault => usage(
            alloc,
            ErrorKind::ValueValidation,
            refused(alloc, path, &fault),
        ),
    }
}

fn refused(alloc: Global, path: &str, fault: &InputFault) -> Result<String, AllocError> {
    let fault = InputFaultText { fault };
    format!(in alloc; "'{path}' of '--covers <FILE>...' is no environment: {fault}")
}
