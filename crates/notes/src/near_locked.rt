// Names that are locked, or have a line, and are nearly a given one.

use edits::{Cause, Edit, Name, State, Target};
use phrases::add_near_of;
use std::alloc::{AllocError, Global};

/// Puts the locked names that are near to a text behind another one: those of the first target that has such names.
pub fn add_near_locked(
    alloc: Global,
    text: &mut String,
    targets: &[Target],
    name: &str,
) -> Result<(), AllocError> {
    let Some(name) = read_name(alloc, name)? else {
        return Ok(());
    };
    let length = text.len();
    for target in targets {
        if text.len() == length {
            let mut names = Vec::new(alloc);
            for entry in target.lock.entries() {
                names.push(entry.name())?;
            }
            add_near_of(alloc, text, names.as_slice(), &name)?;
        }
    }
    Ok(())
}

/// The same of the names that have lines, for the name that an edit changes the line of.
pub(crate) fn add_near_lines(
    alloc: Global,
    text: &mut String,
    state: &State,
    edit: &Edit,
) -> Result<(), AllocError> {
    let (Edit::Remove(name) | Edit::Constrain(name, _)) = edit else {
        return Ok(());
    };
    let Some(name) = read_name(alloc, name.as_str())? else {
        return Ok(());
    };
    let mut names = Vec::new(alloc);
    for line in state.lines().lines() {
        if let Some(requirement) = line.requirement() {
            names.push(requirement.name())?;
        }
    }
    add_near_of(alloc, text, names.as_slice(), &name)
}

fn read_name(alloc: Global, text: &str) -> Result<Option<Name>, AllocError> {
    match Name::read(alloc, text) {
        Ok(name) => Ok(Some(name)),
        Err(Cause::OutOfMemory) => Err(AllocError),
        Err(_) => Ok(None),
    }
}
