// Some releases of a name, as runs of versions.

use crate::verb::{Denial, Verb};
use crate::wording::Extent;
use lists::Bits;
use phrases::release_runs::{Run, runs_of, version_text};
use snapshot::Release;
use std::alloc::{AllocError, Global};

/// How many versions and runs are told of a set, in short.
const PIECES: usize = 6;

/// Some of the releases of a name, by their places. The releases are listed newest first.
#[derive(Clone, Copy)]
pub struct ReleaseSet<'a> {
    pub releases: &'a [Release],
    pub places: &'a Bits,
    pub extent: Extent,
}

/// The versions and runs to be told: two versions side by side are told as two.
fn pieces_of(alloc: Global, releases: &[Release], runs: &[Run]) -> Result<Vec<String>, AllocError> {
    let mut pieces = Vec::new(alloc);
    for run in runs {
        let oldest = version_text(alloc, releases, run.oldest)?;
        let newest = version_text(alloc, releases, run.newest)?;
        if run.oldest == run.newest {
            pieces.push(oldest)?;
        } else if run.oldest == run.newest.saturating_add(1) {
            pieces.push(oldest)?;
            pieces.push(newest)?;
        } else {
            pieces.push(format!(in alloc; "{oldest} to {newest}")?)?;
        }
    }
    Ok(pieces)
}

/// Puts texts behind another, with commas between them and `word` before the last one.
pub fn add_listed(text: &mut String, items: &[String], word: &str) -> Result<(), AllocError> {
    let last = items.len().saturating_sub(1);
    for (place, item) in items.iter().enumerate() {
        if place > 0 {
            if place == last {
                write!(text, " {word} ")?;
            } else {
                text.push_str(", ")?;
            }
        }
        text.push_str(item.as_str())?;
    }
    Ok(())
}

impl ReleaseSet<'_> {
    /// Whether these are all releases of the name.
    pub fn are_all(&self, alloc: Global) -> Result<bool, AllocError> {
        Ok(self.places.places(alloc)?.len() == self.releases.len())
    }

    /// Whether these are all releases of the name, which are several.
    pub fn are_every(&self, alloc: Global) -> Result<bool, AllocError> {
        if self.releases.len() > 1 {
            return self.are_all(alloc);
        }
        Ok(false)
    }

    /// The verb behind these releases.
    pub fn add_verb(&self, alloc: Global, text: &mut String, verb: Verb) -> Result<(), AllocError> {
        let count = self.places.places(alloc)?.len();
        let are_many = count > 1 && count != self.releases.len();
        text.push_str(if are_many { verb.many } else { verb.one })
    }

    /// These releases with a verb that denies something of them, or the verb for all of them where they are every one.
    pub fn add_denied(
        &self,
        alloc: Global,
        text: &mut String,
        denial: Denial,
    ) -> Result<(), AllocError> {
        if self.are_every(alloc)? {
            return text.push_str(denial.all);
        }
        self.add_runs(alloc, text)?;
        self.add_verb(alloc, text, denial.verb)
    }

    /// The versions of these releases: `every release` where they are all, and there are several.
    pub fn add_runs(&self, alloc: Global, text: &mut String) -> Result<(), AllocError> {
        if self.are_every(alloc)? {
            return text.push_str("every release");
        }
        self.add_versions(alloc, text)
    }

    /// The versions as runs. Of many runs, in short, only the first and the last version are told, and how many releases there are.
    pub fn add_versions(&self, alloc: Global, text: &mut String) -> Result<(), AllocError> {
        let places = self.places.places(alloc)?;
        let count = places.len();
        let runs = runs_of(alloc, places.as_slice())?;
        let pieces = pieces_of(alloc, self.releases, runs.as_slice())?;
        if pieces.len() > self.extent.most(PIECES) {
            return self.add_ends(alloc, text, runs.as_slice(), count);
        }
        add_listed(text, pieces.as_slice(), "and")
    }

    /// The first and the last version of these runs of so many releases.
    fn add_ends(
        &self,
        alloc: Global,
        text: &mut String,
        runs: &[Run],
        count: usize,
    ) -> Result<(), AllocError> {
        if let (Some(first), Some(last)) = (runs.first(), runs.last()) {
            let oldest = version_text(alloc, self.releases, first.oldest)?;
            let newest = version_text(alloc, self.releases, last.newest)?;
            write!(text, "{count} releases between {oldest} and {newest}")?;
        }
        Ok(())
    }
}
