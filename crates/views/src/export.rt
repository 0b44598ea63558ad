// What `export` prints.

use crate::covers::covers_text;
use crate::held_texts::{Printed, say_changed};
use calls::Call;
use changes::Same;
use clap::error::ErrorKind;
use command_line::command;
use command_line::request::{Export, ExportFormat};
use edits::{Name, ReqFile, Target, TargetName};
use exports::{
    JointFault, conditions_of, graph_text, joint_lock, marker_text_of, portable_text,
    requirements_text, target_named, unbound_text,
};
use files::StillFolder;
use files::held::held_history;
use files::saved_history::session_over;
use inputs::HandedFiles;
use reports::print;
use snapshot::Snapshot;
use std::alloc::{AllocError, Global};
use std::io::Write;
use std::slice;
use stops::{Stop, stop_of_usage};

/// Prints the locks of the targets, or that of one, as another tool reads it; or which targets hold in environments.
pub fn print_export<R: AllocGlobal, F: StillFolder, G: HandedFiles, O: Write, E: Write>(
    call: &mut Call<'_, R, O>,
    folder: &F,
    handed: &G,
    errors: &mut E,
    export: &Export<'_>,
) -> Result<(), Stop> {
    let asks = !export.covers.is_empty();
    let text = match export.format {
        ExportFormat::Hashes | ExportFormat::Dot if asks => return Err(no_format(call.rt.alloc())),
        ExportFormat::Hashes | ExportFormat::Dot => saved_text(folder, call.dir, export, errors)?,
        ExportFormat::Pylock => portable(folder, handed, export)?,
    };
    print(&mut call.output, text.as_bytes())?;
    Ok(())
}

/// The lock of a target for pip, or the graph of the locks for Graphviz.
fn saved_text<F: StillFolder, E: Write>(
    folder: &F,
    dir: &str,
    export: &Export<'_>,
    errors: &mut E,
) -> Result<String, Stop> {
    let alloc = folder.alloc();
    let is_graph = matches!(export.format, ExportFormat::Dot);
    let printed = if is_graph {
        Printed::LocksWithLines
    } else {
        Printed::Locks
    };
    let held = held_history(folder)?;
    say_changed(alloc, dir, &held, printed, errors)?;
    let targets = wanted_targets(alloc, held.targets(), export.target)?;
    if is_graph {
        return Ok(graph_text(alloc, held.lines().lines(), targets)?);
    }
    Ok(requirements_text(alloc, &only_target(alloc, targets)?.lock)?)
}

/// The lock of the targets, with what was asked of their environments over the index that it was made of; or which of them hold in
/// the environments that are asked about.
fn portable<F: StillFolder, G: HandedFiles>(
    folder: &F,
    handed: &G,
    export: &Export<'_>,
) -> Result<String, Stop> {
    let alloc = folder.alloc();
    let Some(index) = export.index else {
        return Err(no_index(alloc));
    };
    let (session, snapshot) = session_over(folder, handed, index)?;
    let state = session.state();
    if state.digest() != snapshot.digest() {
        return Err(other_index(alloc));
    }
    let targets = wanted_targets(alloc, state.targets(), export.target)?;
    let covers = export.covers.as_slice();
    match targets {
        _ if !covers.is_empty() => covers_text(handed, state.lines(), &snapshot, targets, covers),
        [target] => Ok(portable_lock(alloc, state.lines(), &snapshot, target)?),
        _ => joint_text(alloc, state.lines(), &snapshot, targets),
    }
}

/// The lock of one target.
fn portable_lock(
    alloc: Global,
    lines: &ReqFile,
    snapshot: &Snapshot,
    target: &Target,
) -> Result<String, AllocError> {
    let conditions = conditions_of(alloc, lines, snapshot, &target.environment)?;
    let marker = marker_text_of(alloc, conditions.as_slice(), &target.environment)?;
    if marker.is_empty() {
        return unbound_text(alloc, &target.lock);
    }
    portable_text(alloc, &target.lock, marker.as_str())
}

/// The lock of several targets.
fn joint_text(
    alloc: Global,
    lines: &ReqFile,
    snapshot: &Snapshot,
    targets: &[Target],
) -> Result<String, Stop> {
    match joint_lock(alloc, lines, snapshot, targets) {
        Ok(joint) => Ok(joint.print(alloc)?),
        Err(JointFault::OutOfMemory) => Err(Stop::from(AllocError)),
        Err(JointFault::Differ(one, other)) => Err(no_joint(alloc, targets, &one, &other)),
    }
}

/// The target of the name, or all where there is no name.
fn wanted_targets<'s>(
    alloc: Global,
    targets: &'s [Target],
    name: Option<&str>,
) -> Result<&'s [Target], Stop> {
    let Some(name) = name else {
        return Ok(targets);
    };
    match target_named(targets, name) {
        Some(target) => Ok(slice::from_ref(target)),
        None => Err(no_target(alloc, targets, name)),
    }
}

/// The target that is there alone.
fn only_target(alloc: Global, targets: &[Target]) -> Result<&Target, Stop> {
    match targets {
        [target] => Ok(target),
        _ => Err(several_targets(alloc, targets)),
    }
}

fn no_target(alloc: Global, targets: &[Target], name: &str) -> Stop {
    let message = names_of(alloc, targets).and_then(|names| {
        format!(in alloc; "no target has the name '{name}' of '--target <NAME>': {names}")
    });
    usage(alloc, ErrorKind::InvalidValue, message)
}

fn several_targets(alloc: Global, targets: &[Target]) -> Stop {
    let message = names_of(alloc, targets).and_then(|names| format!(in alloc;
        "'--target <NAME>' is needed, as there are several: {names}"
    ));
    usage(alloc, ErrorKind::MissingRequiredArgument, message)
}

fn no_index(alloc: Global) -> Stop {
    let message = String::from_str(
        alloc,
        "without '--index <FILE>' nothing is known of what was asked, so no variable can be dropped",
    );
    usage(alloc, ErrorKind::MissingRequiredArgument, message)
}

fn no_format(alloc: Global) -> Stop {
    let message = String::from_str(
        alloc,
        "'--covers <FILE>...' needs '--format pylock', which has conditions",
    );
    usage(alloc, ErrorKind::MissingRequiredArgument, message)
}

/// Two targets that one environment may meet have other entries.
fn no_joint(alloc: Global, targets: &[Target], one: &TargetName, other: &TargetName) -> Stop {
    let differing = match first_difference(targets, one, other) {
        Some(name) => name.normal(),
        None => "a package",
    };
    let message = format!(in alloc;
        "the targets '{one}' and '{other}' can't stand in one file: nothing that is asked tells them apart, and {differing} differs; upgrade it in all of them, or export one by '--target <NAME>'"
    );
    usage(alloc, ErrorKind::ValueValidation, message)
}

/// The name of the first entry that one target has and the other hasn't, or has otherwise.
fn first_difference<'t>(
    targets: &'t [Target],
    one: &TargetName,
    other: &TargetName,
) -> Option<&'t Name> {
    let one = target_named(targets, one.as_str())?;
    let other = target_named(targets, other.as_str())?;
    first_lacking(one, other).or_else(|| first_lacking(other, one))
}

/// The name of the first entry that the other target hasn't, or has otherwise.
fn first_lacking<'t>(target: &'t Target, other: &Target) -> Option<&'t Name> {
    for entry in target.lock.entries() {
        match other.entry(entry.name()) {
            Some(own) if own.is_same(entry) => {}
            _ => return Some(entry.name()),
        }
    }
    None
}

fn other_index(alloc: Global) -> Stop {
    let message = String::from_str(
        alloc,
        "the lock was made of another index; relock over this one first",
    );
    usage(alloc, ErrorKind::ValueValidation, message)
}

/// The names of the targets, with commas between them.
fn names_of(alloc: Global, targets: &[Target]) -> Result<String, AllocError> {
    let mut names = String::new(alloc);
    let mut mark = "the targets are ";
    for target in targets {
        if target.name.is_empty() {
            return String::from_str(alloc, "the one target has no name");
        }
        names.push_str(mark)?;
        names.push_str(target.name.as_str())?;
        mark = ", ";
    }
    Ok(names)
}

/// A mistake in the words of the call.
pub(crate) fn usage(alloc: Global, kind: ErrorKind, message: Result<String, AllocError>) -> Stop {
    match told(alloc, kind, message) {
        Ok(error) => stop_of_usage(alloc, &error),
        Err(error) => Stop::from(error),
    }
}

fn told(
    alloc: Global,
    kind: ErrorKind,
    message: Result<String, AllocError>,
) -> Result<clap::Error, AllocError> {
    command(alloc)?.error(kind, message?.as_str())
}
