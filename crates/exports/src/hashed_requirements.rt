// Pinned requirements with hashes, as pip reads them.

use lists::Text;
use phrases::add_plain;
use states::{DistributionFile, Entry, Lock};
use std::alloc::{AllocError, Global};
use std::collections::BTreeSet;

/// A comment with the environment of the lock, and a line `name==version` for each entry, with the digests of its
/// files in order and a comment of the entries that need it. Names and versions are in normal form, so that no line
/// begins with `-`.
pub fn requirements_text(alloc: Global, lock: &Lock) -> Result<String, AllocError> {
    let mut text = String::from_str(alloc, "# for ")?;
    add_plain(&mut text, lock.environment())?;
    text.push_str("\n")?;
    let users = users_of(alloc, lock.entries())?;
    for (entry, users) in lock.entries().iter().zip(users.as_slice()) {
        add_pin(alloc, &mut text, entry)?;
        add_users(&mut text, users.as_str())?;
    }
    Ok(text)
}

/// The name, the version and the digests of the files, each digest on a line of its own.
fn add_pin(alloc: Global, text: &mut String, entry: &Entry) -> Result<(), AllocError> {
    let name = entry.name().normal();
    let version = entry.version();
    write!(text, "{name}=={version}")?;
    for digest in digests_of(alloc, entry)? {
        text.push_str(" \\\n    --hash=sha256:")?;
        text.push_str(digest.as_str())?;
    }
    text.push_str("\n")
}

/// The digests of the files in the order of their bytes, none twice.
fn digests_of(alloc: Global, entry: &Entry) -> Result<BTreeSet<Text>, AllocError> {
    let mut digests = BTreeSet::new(alloc);
    for file in entry.wheels() {
        add_digest(&mut digests, file)?;
    }
    if let Some(file) = entry.sdist() {
        add_digest(&mut digests, file)?;
    }
    Ok(digests)
}

fn add_digest(digests: &mut BTreeSet<Text>, file: &DistributionFile) -> Result<(), AllocError> {
    digests.insert(file.sha256.clone()?)?;
    Ok(())
}

fn add_users(text: &mut String, users: &str) -> Result<(), AllocError> {
    if users.is_empty() {
        return Ok(());
    }
    text.push_str("    # via ")?;
    text.push_str(users)?;
    text.push_str("\n")
}

/// For each entry the names of those that need it, in their order.
fn users_of(alloc: Global, entries: &[Entry]) -> Result<Vec<String>, AllocError> {
    let mut users = Vec::with_capacity(alloc, entries.len())?;
    for _ in 0..entries.len() {
        users.push(String::new(alloc))?;
    }
    for entry in entries {
        for needed in entry.dependencies() {
            add_user(&mut users, entries, needed.normal(), entry.name().normal())?;
        }
    }
    Ok(users)
}

fn add_user(
    users: &mut Vec<String>,
    entries: &[Entry],
    needed: &str,
    by: &str,
) -> Result<(), AllocError> {
    let found = entries.binary_search_by(|entry| entry.name().normal().cmp(needed));
    let Ok(place) = found else {
        return Ok(());
    };
    match users.get_mut(place) {
        Some(list) => add_name(list, by),
        None => Ok(()),
    }
}

fn add_name(list: &mut String, name: &str) -> Result<(), AllocError> {
    if !list.is_empty() {
        list.push_str(", ")?;
    }
    list.push_str(name)
}
