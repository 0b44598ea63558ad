// Reading a release as the index lists it.

ghost use Rattle.std.specs.Prelude.{◌≡◌, IfOk, codes, option_map};
ghost use Rattle.serde_json.specs.Find.{get};
ghost use Rattle.serde_json.specs.View.{view};
ghost use Rattle.snapshot.specs.Releases.{listed_of};
ghost use Rattle.snapshot.specs.Shape.{Gives, object_of};

use crate::fault::Fault;
use crate::file::files_of;
use crate::members::values_at;
use crate::shape::{
    below_key, flag_of, items_of, optional_items_of, optional_text_of, text_of, texts_of,
};
use distributions::DistributionFile;
use lists::{Seq, Text};
use serde_json::Value;
use std::alloc::Global;

/// A release as the index lists it. A text that is absent or null is empty.
#[derive(Drop)]
pub(crate) struct Listed {
    pub(crate) version: Text,
    pub(crate) requires_python: Text,
    pub(crate) requires_dist: Seq<Text>,
    pub(crate) yanked: bool,
    pub(crate) files: Seq<DistributionFile>,
}

/// What an object has at the keys of a release.
struct ListedValues {
    version: Option<Value>,
    requires_python: Option<Value>,
    requires_dist: Option<Value>,
    yanked: Option<Value>,
    files: Option<Value>,
}

impl Drop for ListedValues {
    fn drop(self) {
        let ListedValues {
            version: _,
            requires_python: _,
            requires_dist: _,
            yanked: _,
            files: _,
        } = self;
    }
}

/// What an object has at the keys of a release, which it gives up.
fn listed_values(alloc: Global, object: Value) -> Result<ListedValues, Fault>
    ensures object { Gives (λ _. tt) (object_of (view object)) result }
    ensures version { IfOk result (λ values. option_map view values.version
        ≡ get (codes "version") (view object)) }
    ensures requires_python { IfOk result
        (λ values. option_map view values.requires_python
        ≡ get (codes "requires_python") (view object)) }
    ensures requires_dist { IfOk result
        (λ values. option_map view values.requires_dist
        ≡ get (codes "requires_dist") (view object)) }
    ensures yanked { IfOk result (λ values. option_map view values.yanked
        ≡ get (codes "yanked") (view object)) }
    ensures files { IfOk result (λ values. option_map view values.files
        ≡ get (codes "files") (view object)) }
{
    let keys = [
        "version",
        "requires_python",
        "requires_dist",
        "yanked",
        "files",
    ];
    let [version, requires_python, requires_dist, yanked, files] = values_at::<5>(
        alloc, object, &keys,
    )?;
    Ok(ListedValues {
        version,
        requires_python,
        requires_dist,
        yanked,
        files,
    })
}

/// The release that a value lists.
#[tactic(auto, unfolding(crate::specs::Releases::listed_of))]
pub(crate) fn listed_of(alloc: Global, value: Value) -> Result<Listed, Fault>
    ensures { Gives (λ r. r) (listed_of (view value)) result }
{
    let mut values = listed_values(alloc, value)?;
    let version = text_of(alloc, "version", values.version.take())?;
    let requires_python = optional_text_of(
        alloc,
        "requires_python",
        values.requires_python.take(),
    )?;
    let dependencies = optional_items_of(alloc, "requires_dist", values.requires_dist.take())?;
    let requires_dist = below_key(alloc, "requires_dist", texts_of(alloc, dependencies))?;
    let yanked = flag_of(alloc, "yanked", values.yanked.take())?;
    let listed = items_of(alloc, "files", values.files.take())?;
    let files = below_key(alloc, "files", files_of(alloc, listed))?;
    Ok(Listed {
        version,
        requires_python,
        requires_dist,
        yanked,
        files,
    })
}
