// What is known of a refused edit beside its word.

use crate::near_locked::{add_near_lines, add_near_locked};
use edits::{Cause, Edit, Environment, Line, Name, Refusal, Snapshot, State};
use lists::Text;
use pep440::{Fault as SpecifierFault, SpecifierSet};
use phrases::{SOUGHT, add_near_names, add_plain, add_word, clause_column, column_of, has_package};
use std::alloc::{AllocError, Global};

/// A refused edit of a state over an index.
#[derive(Clone, Copy)]
pub struct RefusedEdit<'a> {
    pub state: &'a State,
    pub edit: &'a Edit,
    pub snapshot: &'a Snapshot,
    pub refusal: &'a Refusal,
}

/// Puts the refusal as a sentence behind the text, and then what is known: where a text doesn't read, the lines of the
/// name, or the names that the index lacks.
pub fn add_refusal_details(
    alloc: Global,
    text: &mut String,
    refused: RefusedEdit<'_>,
) -> Result<(), AllocError> {
    let RefusedEdit {
        state,
        edit,
        snapshot,
        refusal,
    } = refused;
    write!(text, "{refusal}")?;
    match refusal {
        Refusal::NotLocked(name) => add_near_locked(alloc, text, state.targets(), name.as_str())?,
        Refusal::NotPresent => add_near_lines(alloc, text, state, edit)?,
        _ => {}
    }
    text.push_str("\n")?;
    match refusal {
        Refusal::BadText => add_bad_text(alloc, text, edit),
        Refusal::AlreadyPresent(number) => add_numbered(text, state.lines().lines(), *number),
        Refusal::Ambiguous(_) => add_lines_on(alloc, text, state.lines().lines(), edit),
        Refusal::NoSolution => add_lacking_names(alloc, text, state, edit, snapshot),
        // their sentences say all
        Refusal::NotPresent
        | Refusal::NotLocked(_)
        | Refusal::NothingChanges
        | Refusal::OutOfMemory
        | Refusal::NothingToUndo
        | Refusal::NothingToRedo
        | Refusal::FilesDisagree(_)
        | Refusal::JournalBroken(_)
        | Refusal::BadCommand
        | Refusal::BadTarget
        | Refusal::DuplicateTarget(_)
        | Refusal::NoTarget => Ok(()),
    }
}

/// The line of a number, which counts from 1.
fn add_numbered(text: &mut String, lines: &[Line], number: usize) -> Result<(), AllocError> {
    match lines.get(number.saturating_sub(1)) {
        Some(line) => add_line(text, number, line),
        None => Ok(()),
    }
}

fn add_line(text: &mut String, number: usize, line: &Line) -> Result<(), AllocError> {
    write!(text, "line {number}: ")?;
    add_plain(text, line.text().trim_end())?;
    text.push_str("\n")
}

/// The lines on the name of an edit.
fn add_lines_on(
    alloc: Global,
    text: &mut String,
    lines: &[Line],
    edit: &Edit,
) -> Result<(), AllocError> {
    let name = match edit {
        Edit::Remove(name) | Edit::Constrain(name, _) => name,
        Edit::Add(_)
        | Edit::Upgrade(_)
        | Edit::UpgradeAll
        | Edit::Relock
        | Edit::Replace(_, _)
        | Edit::Retarget(_, _) => return Ok(()),
    };
    let name = match Name::read(alloc, name.as_str()) {
        Ok(name) => name,
        Err(Cause::OutOfMemory) => return Err(AllocError),
        Err(_) => return Ok(()),
    };
    for (position, line) in lines.iter().enumerate() {
        if line.is_on(&name) {
            add_line(text, position.saturating_add(1), line)?;
        }
    }
    Ok(())
}

/// Which text of an edit doesn't read, where, and why.
fn add_bad_text(alloc: Global, text: &mut String, edit: &Edit) -> Result<(), AllocError> {
    match edit {
        Edit::Add(line) => add_bad_line(alloc, text, line.as_str()),
        Edit::Constrain(name, specifiers) => {
            add_bad_name(alloc, text, name)?;
            add_bad_set(alloc, text, specifiers.as_str())
        }
        Edit::Remove(name) => add_bad_name(alloc, text, name),
        Edit::Upgrade(names) => {
            for name in names.as_slice() {
                add_bad_name(alloc, text, name)?;
            }
            Ok(())
        }
        Edit::UpgradeAll | Edit::Relock | Edit::Replace(_, _) | Edit::Retarget(_, _) => Ok(()),
    }
}

fn add_bad_line(alloc: Global, text: &mut String, line: &str) -> Result<(), AllocError> {
    if line.contains('\n') {
        return text.push_str("it has more than one line\n");
    }
    match Line::read(alloc, line) {
        Ok(_) => text.push_str("it asks for nothing\n"),
        Err(Cause::OutOfMemory) => Err(AllocError),
        Err(cause) => {
            let column = column_of(alloc, line, cause)?;
            write!(text, "column {column}: {cause}\n")
        }
    }
}

/// Nothing where the text is a name.
fn add_bad_name(alloc: Global, text: &mut String, name: &Text) -> Result<(), AllocError> {
    match Name::read(alloc, name.as_str()) {
        Ok(_) => Ok(()),
        Err(Cause::OutOfMemory) => Err(AllocError),
        Err(cause) => {
            add_plain(text, name.as_str())?;
            write!(text, ": {cause}\n")
        }
    }
}

/// Nothing where the text is a set of specifiers.
fn add_bad_set(alloc: Global, text: &mut String, specifiers: &str) -> Result<(), AllocError> {
    match SpecifierSet::parse(alloc, specifiers) {
        Ok(_) => Ok(()),
        Err(SpecifierFault::OutOfMemory) => Err(AllocError),
        Err(fault) => {
            add_plain(text, specifiers)?;
            let column = clause_column(specifiers, fault);
            write!(text, ": column {column}: {fault}\n")
        }
    }
}

/// The names of the lines that count for some target, and that of an added one, of which the index has no release.
fn add_lacking_names(
    alloc: Global,
    text: &mut String,
    state: &State,
    edit: &Edit,
    snapshot: &Snapshot,
) -> Result<(), AllocError> {
    let environments = environments_after(alloc, state, edit)?;
    let environments = environments.as_slice();
    add_lacking(alloc, text, state.lines().lines(), environments, snapshot)?;
    let Edit::Add(line) = edit else {
        return Ok(());
    };
    match Line::read(alloc, line.as_str()) {
        Ok(line) => add_lacking(alloc, text, [line].as_slice(), environments, snapshot),
        Err(Cause::OutOfMemory) => Err(AllocError),
        Err(_) => Ok(()),
    }
}

/// The environments that an edit of a state locks for.
pub(crate) fn environments_after<'a>(
    alloc: Global,
    state: &'a State,
    edit: &'a Edit,
) -> Result<Vec<&'a Environment>, AllocError> {
    let mut environments = Vec::new(alloc);
    match edit {
        Edit::Retarget(targets, _) => {
            for (_, environment) in targets.as_slice() {
                environments.push(environment)?;
            }
        }
        _ => {
            for target in state.targets() {
                environments.push(&target.environment)?;
            }
        }
    }
    Ok(environments)
}

/// Puts the names of the lines behind the text that count in one of the environments, and of which the index has no release.
/// Behind a name of which it has no package stand those that are near to it, as far as such names are few.
pub fn add_lacking(
    alloc: Global,
    text: &mut String,
    lines: &[Line],
    environments: &[&Environment],
    snapshot: &Snapshot,
) -> Result<(), AllocError> {
    let mut count: usize = 0;
    for line in lines {
        if let Some(name) = lacking_name(line, environments, snapshot) {
            add_lacked(alloc, text, name, snapshot, count < SOUGHT)?;
            count = count.saturating_add(1);
        }
    }
    Ok(())
}

/// The name of a line that counts in one of the environments, where the index has no release of it.
fn lacking_name<'a>(
    line: &'a Line,
    environments: &[&Environment],
    snapshot: &Snapshot,
) -> Option<&'a Name> {
    let requirement = line.requirement()?;
    let name = requirement.name();
    if !snapshot.releases(name).is_empty() {
        return None;
    }
    for environment in environments {
        if requirement.is_active(environment) {
            return Some(name);
        }
    }
    None
}

/// A name of which the index has no release.
fn add_lacked(
    alloc: Global,
    text: &mut String,
    name: &Name,
    snapshot: &Snapshot,
    seeks_near: bool,
) -> Result<(), AllocError> {
    text.push_str("the index has no release of ")?;
    text.push_str(name.normal())?;
    if seeks_near && !has_package(snapshot, name) {
        add_near_names(alloc, text, snapshot, name)?;
    }
    text.push_str("\n")
}

/// Puts the command behind the text that tells why an edit has no solution. The options go before the subcommand.
pub fn add_question(text: &mut String, options: &str, edit: &Edit) -> Result<(), AllocError> {
    write!(text, "ask: reqlock{options} why --explain")?;
    match edit {
        Edit::Add(line) => add_word(text, line.as_str())?,
        Edit::Remove(name) => {
            text.push_str(" --remove")?;
            add_word(text, name.as_str())?;
        }
        Edit::Constrain(name, specifiers) => {
            text.push_str(" --constrain")?;
            add_word(text, name.as_str())?;
            if !specifiers.as_str().is_empty() {
                add_word(text, specifiers.as_str())?;
            }
        }
        Edit::Upgrade(names) => {
            text.push_str(" --upgrade")?;
            for name in names.as_slice() {
                add_word(text, name.as_str())?;
            }
        }
        Edit::UpgradeAll => text.push_str(" --upgrade")?,
        Edit::Relock => {}
        Edit::Replace(_, _) => text.push_str(" --replace")?,
        Edit::Retarget(_, _) => text.push_str(" --retarget")?,
    }
    text.push_str("\n")
}
