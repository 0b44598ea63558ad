// Reading the files of a release.

ghost use Rattle.std.specs.Prelude.{◌≡◌, IfOk, codes, option_map};
ghost use Rattle.serde_json.specs.Find.{get};
ghost use Rattle.serde_json.specs.View.{items_view, view};
ghost use Rattle.snapshot.specs.Files.{as_digest, as_filled, as_size, file_of};
ghost use Rattle.snapshot.specs.Shape.{Gives, at_key, below, each_from, object_of, place_path, required};

use crate::fault::Fault;
use crate::members::values_at;
use crate::shape::{below_place, misshapen, text_of};
use distributions::{DistributionFile, digest_in, is_size};
use lists::{Seq, Text};
use serde_json::Value;
use std::alloc::Global;

/// The name of a file, which is not empty.
fn name_of(alloc: Global, found: Option<Value>) -> Result<Text, Fault>
    ensures { Gives (λ name. name)
        (at_key (required as_filled) (codes "name") (option_map view found)) result }
{
    let name = text_of(alloc, "name", found)?;
    if name.as_str().is_empty() {
        return Err(misshapen(alloc, "name"));
    }
    Ok(name)
}

/// The number of bytes of a file, at most 2 ^ 63 - 1.
fn size_of(alloc: Global, found: Option<Value>) -> Result<u64, Fault>
    ensures { Gives (λ size. size)
        (at_key (required as_size) (codes "size") (option_map view found)) result }
{
    match found.as_ref().and_then(Value::as_u64) {
        Some(size) if is_size(size) => Ok(size),
        _ => Err(misshapen(alloc, "size")),
    }
}

/// The SHA-256 digest of a file, in lower case.
fn sha256_of(alloc: Global, found: Option<Value>) -> Result<Text, Fault>
    ensures { Gives (λ digest. digest)
        (at_key (required as_digest) (codes "sha256") (option_map view found)) result }
{
    let text = text_of(alloc, "sha256", found)?;
    match digest_in(text) {
        Some(digest) => Ok(digest),
        None => Err(misshapen(alloc, "sha256")),
    }
}

/// What an object has at the keys of a file.
#[derive(Drop)]
struct FileValues {
    name: Option<Value>,
    url: Option<Value>,
    size: Option<Value>,
    sha256: Option<Value>,
}

/// What an object has at the keys of a file, which it gives up.
fn file_values(alloc: Global, object: Value) -> Result<FileValues, Fault>
    ensures object { Gives (λ _. tt) (object_of (view object)) result }
    ensures name { IfOk result (λ values. option_map view values.name
        ≡ get (codes "name") (view object)) }
    ensures url { IfOk result (λ values. option_map view values.url
        ≡ get (codes "url") (view object)) }
    ensures size { IfOk result (λ values. option_map view values.size
        ≡ get (codes "size") (view object)) }
    ensures sha256 { IfOk result (λ values. option_map view values.sha256
        ≡ get (codes "sha256") (view object)) }
{
    let keys = ["name", "url", "size", "sha256"];
    let [name, url, size, sha256] = values_at::<4>(alloc, object, &keys)?;
    Ok(FileValues {
        name,
        url,
        size,
        sha256,
    })
}

/// The file that a value lists.
#[tactic(auto, unfolding(crate::specs::Files::file_of))]
fn file_of(alloc: Global, value: Value) -> Result<DistributionFile, Fault>
    ensures { Gives (λ f. f) (file_of (view value)) result }
{
    let FileValues {
        name,
        url,
        size,
        sha256,
    } = file_values(alloc, value)?;
    let name = name_of(alloc, name)?;
    let url = text_of(alloc, "url", url)?;
    let size = size_of(alloc, size)?;
    let sha256 = sha256_of(alloc, sha256)?;
    Ok(DistributionFile {
        name,
        url,
        size,
        sha256,
    })
}

/// The file that the value at `place` lists.
fn file_at_place(alloc: Global, place: usize, value: Value) -> Result<DistributionFile, Fault>
    ensures { Gives (λ f. f) (below (place_path place) (file_of (view value))) result }
{
    below_place(alloc, place, file_of(alloc, value))
}

/// The files that the values list.
pub(crate) fn files_of(alloc: Global, values: Vec<Value>) -> Result<Seq<DistributionFile>, Fault>
    ensures { Gives (λ files. files) (each_from file_of 0 (items_view values.items)) result }
{
    let mut files = Vec::with_capacity(alloc, values.len())?;
    for (place, value) in values.into_iter().enumerate() {
        let file = file_at_place(alloc, place, value)?;
        files.push(file)?;
    }
    Ok(Seq::from_vec(files))
}
