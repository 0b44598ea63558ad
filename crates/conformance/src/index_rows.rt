// Rows of indexes.

use crate::background::Background;
use crate::environment_rows::bytes_of;
use crate::growing_text::GrowingText;
use crate::short_form::json_of;
use markers::Name;
use snapshot::{DistributionFile, Fault, Release, Snapshot};
use std::alloc::Global;

/// What is left out of an index: each release by its package, its place and the cause.
fn left_out(alloc: Global, index: &Snapshot) -> Option<String> {
    let mut text = GrowingText::new(alloc);
    let mut separator = "";
    for skipped in index.skipped() {
        let (package, place) = (skipped.package().normal(), skipped.place());
        let cause = skipped.cause();
        write!(text, "{separator}{package} {place} {cause:?}");
        separator = "; ";
    }
    if text.is_empty() {
        text.push_str("whole");
    }
    text.told()
}

/// Reads an index, over which later rows lock: what is left out of it, or why there is none.
fn read(alloc: Global, background: &mut Background, bytes: &[u8]) -> Option<String> {
    match Snapshot::read(alloc, bytes) {
        Ok(index) => {
            let answer = left_out(alloc, &index)?;
            background.index = Some(index);
            Some(answer)
        }
        Err(Fault::OutOfMemory) => None,
        Err(fault) => format!(in alloc; "{fault}").ok(),
    }
}

/// An index of this JSON text.
pub fn index(alloc: Global, background: &mut Background, json: &str) -> Option<String> {
    read(alloc, background, bytes_of(alloc, json)?.as_slice())
}

/// An index in the short form.
pub fn packages(alloc: Global, background: &mut Background, packages: &str) -> Option<String> {
    read(alloc, background, json_of(alloc, packages)?.as_bytes())
}

/// The digest of the index.
pub fn digest(alloc: Global, background: &Background) -> Option<String> {
    let digest = background.index.as_ref()?.digest();
    format!(in alloc; "{digest:?}").ok()
}

fn push_file(text: &mut GrowingText, file: &DistributionFile) {
    let DistributionFile {
        name,
        url,
        size,
        sha256,
    } = file;
    write!(text, " {name} {url} {size} {sha256}");
}

/// Pushes a release: its version, what it asks of Python, what it needs, whether it is yanked, and its files.
fn push_release(text: &mut GrowingText, release: &Release) {
    let version = release.version();
    write!(text, "{version}");
    if let Some(python) = release.requires_python() {
        let python = python.text();
        write!(text, " {python:?}");
    }
    for needed in release.dependencies() {
        let name = needed.name().normal();
        write!(text, " >{name}");
    }
    if release.yanked() {
        text.push_str(" yanked");
    }
    push_files(text, release);
}

fn push_files(text: &mut GrowingText, release: &Release) {
    if let Some(sdist) = release.sdist() {
        push_file(text, sdist);
    }
    for wheel in release.wheels() {
        push_file(text, wheel);
    }
}

/// The releases of a name.
pub fn releases(alloc: Global, background: &Background, name: &str) -> Option<String> {
    let name = Name::parse(alloc, name).ok()?;
    let mut text = GrowingText::new(alloc);
    let mut separator = "";
    for release in background.index.as_ref()?.releases(&name) {
        text.push_str(separator);
        push_release(&mut text, release);
        separator = "; ";
    }
    if text.is_empty() {
        text.push_str("none");
    }
    text.told()
}

/// The versions of a name.
pub fn versions(alloc: Global, background: &Background, name: &str) -> Option<String> {
    let name = Name::parse(alloc, name).ok()?;
    let mut text = GrowingText::new(alloc);
    let mut separator = "";
    for release in background.index.as_ref()?.releases(&name) {
        let version = release.version();
        write!(text, "{separator}{version}");
        separator = " ";
    }
    text.told()
}
