// The locks that stand in a folder on the disk, by the names of their targets.

use inputs::{Fault, passed_over};
use lists::Text;
use std::alloc::{AllocError, Global};
use std::collections::BTreeSet;
use std::fs;
use std::rt::Files;

/// The names that locks in a folder have, in their order. A folder that can't be listed has none, and a file whose name
/// isn't UTF-8 is passed over.
pub(crate) fn lock_names_in<R: Files + AllocGlobal + Clone + Drop>(
    rt: &R,
    dir: &str,
) -> Result<BTreeSet<Text>, Fault> {
    let mut names = BTreeSet::new(rt.alloc());
    let entries = match fs::read_dir(rt, dir) {
        Ok(entries) => entries,
        Err(error) => {
            passed_over::<()>(&error)?;
            return Ok(names);
        }
    };
    for entry in entries {
        let entry = match entry {
            Ok(entry) => Some(entry),
            Err(error) => passed_over(&error)?,
        };
        if let Some(entry) = entry {
            insert_name(rt.alloc(), &mut names, entry.file_name())?;
        }
    }
    Ok(names)
}

/// Puts the name that a lock has among others, unless the file is named otherwise.
fn insert_name(alloc: Global, names: &mut BTreeSet<Text>, file: &str) -> Result<(), AllocError> {
    if let Some(name) = lock_name(file) {
        names.insert(Text::copy_of(alloc, name)?)?;
    }
    Ok(())
}

/// The name of the target whose lock a file is, by the name of the file (PEP 751, "File Name"); none where it is named
/// otherwise, or the target has no name.
fn lock_name(file: &str) -> Option<&str> {
    let name = file.strip_prefix("pylock.")?.strip_suffix(".toml")?;
    if name.is_empty() || name.contains('.') {
        return None;
    }
    Some(name)
}
