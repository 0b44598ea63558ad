// Which locked versions an edit moved that it doesn't name.

use crate::release_notes::is_yanked;
use edits::{Cause, Change, Edit, EntryChange, Line, Name, Snapshot, State, Target};
use lists::Text;
use phrases::Style;
use std::alloc::{AllocError, Global};

/// An edit over an index, and what it changed.
#[derive(Clone, Copy)]
pub struct AppliedEdit<'a> {
    pub edit: &'a Edit,
    pub change: &'a Change,
    pub snapshot: &'a Snapshot,
}

/// Whether an edit moved a locked version that it doesn't name.
pub fn has_moved(alloc: Global, applied: AppliedEdit<'_>) -> Result<bool, AllocError> {
    for entry in applied.change.entries() {
        if is_moved(alloc, applied.edit, entry)? {
            return Ok(true);
        }
    }
    Ok(false)
}

/// Puts a line for each such version behind the text, and what the edit would have led to if every locked version
/// had to stay: the state, or none.
pub fn add_moved(
    alloc: Global,
    text: &mut String,
    style: Style,
    applied: AppliedEdit<'_>,
    kept: Option<&State>,
) -> Result<(), AllocError> {
    for entry in applied.change.entries() {
        if is_moved(alloc, applied.edit, entry)? {
            add_move(text, style, entry)?;
            text.push_str(" (")?;
            add_yanked(text, applied.snapshot, entry)?;
            match kept {
                Some(state) => add_kept(alloc, text, applied, state, entry)?,
                None => text.push_str("no solution keeps all that is locked")?,
            }
            text.push_str(")\n")?;
        }
    }
    Ok(())
}

/// Whether an entry has another version, and the edit doesn't name it.
fn is_moved(alloc: Global, edit: &Edit, entry: &EntryChange) -> Result<bool, AllocError> {
    let (Some(old), Some(new)) = (&entry.old, &entry.new) else {
        return Ok(false);
    };
    if old.version() == new.version() {
        return Ok(false);
    }
    Ok(!is_named(alloc, edit, &entry.name)?)
}

/// Whether an edit names a package, so that another version of it is no surprise.
fn is_named(alloc: Global, edit: &Edit, name: &Name) -> Result<bool, AllocError> {
    match edit {
        Edit::Add(line) => match Line::read(alloc, line.as_str()) {
            Ok(line) => Ok(line.is_on(name)),
            Err(Cause::OutOfMemory) => Err(AllocError),
            Err(_) => Ok(false),
        },
        Edit::Remove(text) | Edit::Constrain(text, _) => is_name(alloc, text, name),
        Edit::Upgrade(texts) => {
            for text in texts.as_slice() {
                if is_name(alloc, text, name)? {
                    return Ok(true);
                }
            }
            Ok(false)
        }
        Edit::UpgradeAll => Ok(true),
        Edit::Relock | Edit::Replace(_, _) | Edit::Retarget(_, _) => Ok(false),
    }
}

fn is_name(alloc: Global, text: &Text, name: &Name) -> Result<bool, AllocError> {
    match Name::read(alloc, text.as_str()) {
        Ok(read) => Ok(read == *name),
        Err(Cause::OutOfMemory) => Err(AllocError),
        Err(_) => Ok(false),
    }
}

fn add_move(text: &mut String, style: Style, entry: &EntryChange) -> Result<(), AllocError> {
    text.push_str("moved: ")?;
    let target = entry.target.as_str();
    if !target.is_empty() {
        write!(text, "{target}: ")?;
    }
    let name = entry.name.normal();
    if let (Some(old), Some(new)) = (&entry.old, &entry.new) {
        style.add_versions(text, name, old.version(), new.version())?;
    }
    Ok(())
}

/// That the version which was locked is yanked by now.
fn add_yanked(
    text: &mut String,
    snapshot: &Snapshot,
    entry: &EntryChange,
) -> Result<(), AllocError> {
    match &entry.old {
        Some(old) if is_yanked(snapshot, old) => {
            let version = old.version();
            write!(text, "{version} is yanked; ")
        }
        _ => Ok(()),
    }
}

/// What becomes of a moved version where every locked version has to stay: it stays too, or its name isn't needed
/// there. Then the versions that other names of the same target have there, as far as they differ.
fn add_kept(
    alloc: Global,
    text: &mut String,
    applied: AppliedEdit<'_>,
    state: &State,
    moved: &EntryChange,
) -> Result<(), AllocError> {
    let Some(target) = target_of(state, moved) else {
        return Ok(());
    };
    let verb = if target.locked(&moved.name).is_some() {
        "keeps it"
    } else {
        "takes it out"
    };
    write!(text, "--keep-locked {verb}")?;
    add_others(alloc, text, applied, target, moved)
}

fn add_others(
    alloc: Global,
    text: &mut String,
    applied: AppliedEdit<'_>,
    target: &Target,
    moved: &EntryChange,
) -> Result<(), AllocError> {
    for entry in applied.change.entries() {
        let is_same = entry.target.as_str() == moved.target.as_str();
        if is_same && !is_moved(alloc, applied.edit, entry)? {
            add_other(text, target, entry)?;
        }
    }
    Ok(())
}

fn target_of<'a>(state: &'a State, entry: &EntryChange) -> Option<&'a Target> {
    state
        .targets()
        .iter()
        .find(|target| target.name.as_str() == entry.target.as_str())
}

fn add_other(text: &mut String, target: &Target, entry: &EntryChange) -> Result<(), AllocError> {
    let (Some(new), Some(kept)) = (&entry.new, target.locked(&entry.name)) else {
        return Ok(());
    };
    if new.version() == kept {
        return Ok(());
    }
    let name = entry.name.normal();
    write!(text, ", with {name} {kept}")
}
