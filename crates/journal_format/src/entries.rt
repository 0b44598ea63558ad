// The entries of a lock as a journal has them.

ghost use Rattle.journal_format.specs.Forms.{or_null};
ghost use Rattle.journal_format.specs.Entries.{digest_in, entry_in, file_in, name_in, version_in};
ghost use Rattle.pylock.specs.Flaws.{Gives};
ghost use Rattle.serde_json.specs.View.{view};

use crate::forms::{Read, at, only_keys, text_of};
use lists::{Seq, Text};
use pylock::{
    DistributionFile, Entry, Flaw, Name, Version, canonical_version, lower_digest, normal_name,
};
use serde_json::Value;
use std::alloc::Global;

impl Read for DistributionFile {
    ghost reading = { file_in };

    #[tactic(auto, unfolding(crate::specs::Entries::file_in))]
    fn from_value(alloc: Global, value: &Value) -> Result<DistributionFile, Flaw> {
        only_keys(&["name", "sha256", "size", "url"], value)?;
        let name: Text = at(alloc, "name", value)?;
        let sha256: Text = at(alloc, "sha256", value)?;
        let size: u64 = at(alloc, "size", value)?;
        let url: Text = at(alloc, "url", value)?;
        Ok(DistributionFile {
            name,
            url,
            size,
            sha256,
        })
    }
}

impl Read for Name {
    ghost reading = { name_in };

    #[tactic(auto, unfolding(crate::specs::Entries::name_in))]
    fn from_value(alloc: Global, value: &Value) -> Result<Name, Flaw> {
        normal_name(alloc, text_of(value)?)
    }
}

impl Read for Version {
    ghost reading = { version_in };

    #[tactic(auto, unfolding(crate::specs::Entries::version_in))]
    fn from_value(alloc: Global, value: &Value) -> Result<Version, Flaw> {
        canonical_version(alloc, text_of(value)?)
    }
}

impl Read for [u8; 32] {
    ghost reading = { digest_in };

    #[tactic(auto, unfolding(crate::specs::Entries::digest_in))]
    fn from_value(alloc: Global, value: &Value) -> Result<[u8; 32], Flaw> {
        lower_digest(alloc, text_of(value)?)
    }
}

/// The entry of the name.
#[tactic(auto, unfolding(crate::specs::Entries::entry_in))]
fn entry_in(alloc: Global, name: &Name, value: &Value) -> Result<Entry, Flaw>
    ensures { Gives (λ e. e) (entry_in name.now (view value.now)) result }
{
    only_keys(
        &[
            "dependencies",
            "requires_python",
            "sdist",
            "version",
            "wheels",
        ],
        value,
    )?;
    let dependencies: Seq<Name> = at(alloc, "dependencies", value)?;
    let python: Option<Text> = at(alloc, "requires_python", value)?;
    let sdist: Option<DistributionFile> = at(alloc, "sdist", value)?;
    let version: Version = at(alloc, "version", value)?;
    let wheels: Seq<DistributionFile> = at(alloc, "wheels", value)?;
    let name = name.clone()?;
    match Entry::new(alloc, name, version, python, dependencies, sdist, wheels)? {
        Some(entry) => Ok(entry),
        None => Err(Flaw::OtherForm),
    }
}

/// The entry of the name, where the value isn't null.
pub(crate) fn entry_or_null(
    alloc: Global,
    name: &Name,
    value: &Value,
) -> Result<Option<Entry>, Flaw>
    ensures { Gives (λ o. o) (or_null (entry_in name.now) (view value.now)) result }
{
    if value.is_null() {
        return Ok(None);
    }
    Ok(Some(entry_in(alloc, name, value)?))
}
