// Rows of environments.

use crate::background::Background;
use crate::growing_text::GrowingText;
use crate::marker_rows::told_fault;
use crate::notation::owned;
use crate::targets::copies;
use edits::{Refusal, TargetName, Targets};
use markers::{Environment, Fault, VARIABLES};
use std::alloc::Global;

/// The letter that stands for a byte which is no UTF-8.
const ODD_BYTE: char = '\u{ff}';

/// The bytes of a text: 255 for each odd letter.
pub fn bytes_of(alloc: Global, text: &str) -> Option<Vec<u8>> {
    let mut bytes = Vec::new(alloc);
    let mut separator: &[u8] = b"";
    for part in text.split(ODD_BYTE) {
        bytes.extend_from_slice(separator).ok()?;
        bytes.extend_from_slice(part.as_bytes()).ok()?;
        separator = b"\xff";
    }
    Some(bytes)
}

/// The parts of an environment's marker; beside an earlier environment only those that are different.
fn parts(
    alloc: Global,
    environment: &Environment,
    earlier: Option<&Environment>,
) -> Option<String> {
    let mut text = GrowingText::new(alloc);
    let mut separator = "";
    for variable in &VARIABLES {
        let value = environment.text(*variable);
        if let Some(earlier) = earlier
            && earlier.text(*variable) == value
        {
            continue;
        }
        let name = variable.name();
        write!(text, "{separator}{name} == \"{value}\"");
        separator = " and ";
    }
    text.told()
}

/// The version of an environment and the parts of its marker, or why there is none.
fn answer(
    alloc: Global,
    read: &Result<Environment, Fault>,
    earlier: Option<&Environment>,
) -> Option<String> {
    match read {
        Ok(environment) => {
            let version = environment.full_version();
            let parts = parts(alloc, environment, earlier)?;
            format!(in alloc; "{version}: {parts}").ok()
        }
        Err(fault) => told_fault(alloc, *fault),
    }
}

/// An environment, which later rows are answered in, or why there is none.
pub fn environment(alloc: Global, background: &mut Background, json: &str) -> Option<String> {
    let read = Environment::read(alloc, bytes_of(alloc, json)?.as_slice());
    let answer = answer(alloc, &read, None)?;
    if let Ok(environment) = read {
        background.json = owned(alloc, json)?;
        background.environment = Some(environment);
    }
    Some(answer)
}

/// The environment as that of a target of this name, for which lines are locked below; the targets so far.
pub fn target(alloc: Global, background: &mut Background, name: &str) -> Option<String> {
    let environment = background.environment.as_ref()?.clone().ok()?;
    match TargetName::parse(alloc, name) {
        Ok(name) => background.targets.push((name, environment)).ok()?,
        Err(Refusal::OutOfMemory) => return None,
        Err(refusal) => return format!(in alloc; "{refusal}").ok(),
    }
    match copies(alloc, background.targets.as_slice()) {
        Ok(targets) => told_targets(alloc, &targets),
        Err(refusal) => {
            background.targets.pop();
            format!(in alloc; "{refusal}").ok()
        }
    }
}

/// The names of targets with those of their lock files.
fn told_targets(alloc: Global, targets: &Targets) -> Option<String> {
    let mut text = GrowingText::new(alloc);
    for (name, _) in targets.as_slice() {
        let file = name.file_name(alloc).ok()?;
        write!(text, "({name} {file})");
    }
    text.told()
}

/// No named targets; what is told of an empty list of them.
pub fn no_targets(alloc: Global, background: &mut Background) -> Option<String> {
    background.targets.clear();
    match copies(alloc, background.targets.as_slice()) {
        Ok(_) => None,
        Err(refusal) => format!(in alloc; "{refusal}").ok(),
    }
}

/// The environment with a new text in the place of an old one of its JSON text, or why there is none.
pub fn changed(alloc: Global, background: &Background, old: &str, new: &str) -> Option<String> {
    let json = background.json.as_str();
    if !json.contains(old) {
        return None;
    }
    let json = json.replace(alloc, old, new).ok()?;
    let read = Environment::read(alloc, json.as_str().as_bytes());
    answer(alloc, &read, Some(background.environment.as_ref()?))
}

/// The value of a variable of the environment, in quotes, or `none`.
pub fn value(alloc: Global, background: &Background, name: &str) -> Option<String> {
    match background.environment.as_ref()?.value(name) {
        Some(value) => format!(in alloc; "\"{value}\"").ok(),
        None => owned(alloc, "none"),
    }
}
