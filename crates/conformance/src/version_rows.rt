// Rows of versions.

use crate::background::Background;
use crate::growing_text::GrowingText;
use crate::notation::owned;
use pep440::{Fault, Version};
use std::alloc::Global;
use std::cmp::Ordering;
use std::hash::{DefaultHasher, Hash, Hasher};

/// The text of a fault; none where memory was refused.
pub fn told_fault(alloc: Global, fault: Fault) -> Option<String> {
    match fault {
        Fault::OutOfMemory => None,
        _ => fault.to_string(alloc).ok(),
    }
}

/// Tells the canonical text of a version, and whether it is a pre-release and a post-release.
fn tell(alloc: Global, text: &mut GrowingText, version: &Version) -> Option<()> {
    text.push_str(version.canonical(alloc).ok()?.as_str());
    if version.is_pre() {
        text.push_str(" pre");
    }
    if version.is_post() {
        text.push_str(" post");
    }
    Some(())
}

/// A version, or why there is none.
pub fn version(alloc: Global, text: &str) -> Option<String> {
    match Version::parse(alloc, text) {
        Ok(version) => {
            let mut told = GrowingText::new(alloc);
            tell(alloc, &mut told, &version)?;
            told.told()
        }
        Err(fault) => told_fault(alloc, fault),
    }
}

/// Each part of a version, and its form for debugging.
pub fn parts(alloc: Global, text: &str) -> Option<String> {
    let version = Version::parse(alloc, text).ok()?;
    let (epoch, release, pre) = (version.epoch(), version.release(), version.pre());
    let (post, dev, local) = (version.post(), version.dev(), version.local());
    let mut text = GrowingText::new(alloc);
    write!(
        text,
        "{epoch} {release:?} {pre:?} {post:?} {dev:?} {local:?} {version:?}"
    );
    text.told()
}

/// How the first version stands to the second.
pub fn compare(alloc: Global, first: &str, second: &str) -> Option<String> {
    let first = Version::parse(alloc, first).ok()?;
    let second = Version::parse(alloc, second).ok()?;
    let sign = match first.cmp(&second) {
        Ordering::Less => "<",
        Ordering::Equal => "=",
        Ordering::Greater => ">",
    };
    owned(alloc, sign)
}

/// The same as `above`, with no earlier candidates.
pub fn lowest(alloc: Global, background: &mut Background, texts: &[String]) -> Option<String> {
    background.candidates.clear();
    above(alloc, background, texts)
}

/// The versions that texts are.
fn versions_of(alloc: Global, texts: &[String]) -> Option<Vec<Version>> {
    let mut versions = Vec::new(alloc);
    for text in texts {
        versions
            .push(Version::parse(alloc, text.as_str()).ok()?)
            .ok()?;
    }
    Some(versions)
}

/// Makes equal versions candidates, above the earlier ones, and tells each of them.
pub fn above(alloc: Global, background: &mut Background, texts: &[String]) -> Option<String> {
    let versions = versions_of(alloc, texts)?;
    let mut text = GrowingText::new(alloc);
    let mut separator = "";
    for version in &versions {
        text.push_str(separator);
        tell(alloc, &mut text, version)?;
        separator = "; ";
    }
    if !are_next(versions.as_slice(), background.candidates.as_slice())? {
        text.push_str(" out of order");
    }
    background.candidates.push(versions).ok()?;
    text.told()
}

/// Whether the versions are equal, and above the last of the lower ones. They are in order, so above all of them.
fn are_next(versions: &[Version], lower: &[Vec<Version>]) -> Option<bool> {
    let first = versions.first()?;
    for version in versions {
        if version != first || hash_of(version) != hash_of(first) {
            return Some(false);
        }
    }
    match lower.last() {
        Some(last) => Some(first.cmp(last.as_slice().first()?).is_gt()),
        None => Some(true),
    }
}

fn hash_of(version: &Version) -> u64 {
    let mut hasher = DefaultHasher::new();
    version.hash(&mut hasher);
    hasher.finish()
}
