// Locks in a folder that are of no target of its history.

use edits::{Refusal, Target, TargetName};
use exports::target_named;
use files::StillFolder;
use inputs::Fault;
use phrases::add_plain;
use std::alloc::{AllocError, Global};
use std::io::Write;

/// Says on standard error which files of a folder are named as the lock of a target (PEP 751, "File Name") that isn't among
/// these, in the order of their names, and what to do with each. A text that can't be written there changes nothing.
pub(crate) fn say_stray_locks<F: StillFolder, E: Write>(
    folder: &F,
    targets: &[Target],
    errors: &mut E,
) -> Result<(), Fault> {
    let mut text = String::new(folder.alloc());
    let names = folder.lock_names()?;
    for name in names.iter() {
        if target_named(targets, name.as_str()).is_none() {
            add_stray(&mut text, name.as_str())?;
        }
    }
    let _ = errors.write_all(text.as_bytes());
    Ok(())
}

fn add_stray(text: &mut String, name: &str) -> Result<(), AllocError> {
    text.push_str("reqlock: pylock.")?;
    add_plain(text, name)?;
    text.push_str(".toml is of no target of this history, and no edit changes it: remove it")?;
    if is_target_name(*text.allocator(), name)? {
        write!(
            text,
            ", or move it elsewhere and lock for it too by retarget, with --env {name}=FILE beside those of the other targets"
        )?;
    }
    text.push_str("\n")
}

/// Whether a text may be the name of a target.
fn is_target_name(alloc: Global, text: &str) -> Result<bool, AllocError> {
    match TargetName::parse(alloc, text) {
        Ok(_) => Ok(true),
        Err(Refusal::OutOfMemory) => Err(AllocError),
        Err(_) => Ok(false),
    }
}
