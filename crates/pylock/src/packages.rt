// The entries that TOML values are (PEP 751, "packages").

ghost use Rattle.pylock.specs.LockOfTable.{dependency_in, file_in, package_in};

use crate::canonical_texts::{canonical_version, normal_name};
use crate::entry::Entry;
use crate::flaw::Flaw;
use crate::forms::{Read, needed_at, optionally, size_at, some_each, table_with, text_at};
use distributions::DistributionFile;
use lists::{Seq, Text};
use pep508::Name;
use std::alloc::Global;
use toml::Value;

impl Read for DistributionFile {
    ghost reading = { file_in };

    #[tactic(auto, unfolding(crate::specs::LockOfTable::file_in))]
    fn from_value(alloc: Global, value: &Value) -> Result<DistributionFile, Flaw> {
        let table = table_with(&["hashes", "name", "size", "url"], value)?;
        let hashes = table_with(&["sha256"], needed_at("hashes", table)?)?;
        let sha256 = Text::copy_of(alloc, text_at("sha256", hashes)?)?;
        let name = Text::copy_of(alloc, text_at("name", table)?)?;
        let size = size_at("size", table)?;
        let url = Text::copy_of(alloc, text_at("url", table)?)?;
        Ok(DistributionFile {
            name,
            url,
            size,
            sha256,
        })
    }
}

impl Read for Name {
    ghost reading = { dependency_in };

    #[tactic(auto, unfolding(crate::specs::LockOfTable::dependency_in))]
    fn from_value(alloc: Global, value: &Value) -> Result<Name, Flaw> {
        let table = table_with(&["name"], value)?;
        normal_name(alloc, text_at("name", table)?)
    }
}

impl Read for Entry {
    ghost reading = { package_in };

    #[tactic(auto, unfolding(crate::specs::LockOfTable::package_in))]
    fn from_value(alloc: Global, value: &Value) -> Result<Entry, Flaw> {
        let table = table_with(
            &[
                "dependencies",
                "name",
                "requires-python",
                "sdist",
                "version",
                "wheels",
            ],
            value,
        )?;
        let dependencies = Seq::from_vec(some_each(alloc, "dependencies", table)?);
        let name = normal_name(alloc, text_at("name", table)?)?;
        let requires_python = optionally(alloc, "requires-python", table)?;
        let sdist = optionally(alloc, "sdist", table)?;
        let version = canonical_version(alloc, text_at("version", table)?)?;
        let wheels = Seq::from_vec(some_each(alloc, "wheels", table)?);
        match Entry::new(
            alloc,
            name,
            version,
            requires_python,
            dependencies,
            sdist,
            wheels,
        )? {
            Some(entry) => Ok(entry),
            None => Err(Flaw::OtherForm),
        }
    }
}
