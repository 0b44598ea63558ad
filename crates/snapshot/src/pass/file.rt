// Reading the files of a release that borrows its text.

ghost use Rattle.std.specs.Prelude.{IfSome};
ghost use Rattle.std.specs.List.{AllByRecursion};
ghost use Rattle.json.specs.Value.{value_view};
ghost use Rattle.snapshot.specs.Files.{file_of};
ghost use Rattle.snapshot.specs.Lawful.{IsFile};
ghost use Rattle.snapshot.specs.Tied.Meaning.{EachMeans, Means};

use crate::pass::members::{copy_at, whole_at};
use distributions::{DistributionFile, digest_in, is_size};
use json::Value;
use lists::Seq;
use std::alloc::Global;

/// The file that a value lists.
fn file_of(alloc: Global, value: &Value<'_>) -> Option<DistributionFile>
    ensures meaning { IfSome result (λ file. Means file_of (value_view value.now) file) }
    ensures lawful { IfSome result IsFile }
{
    let name = copy_at(alloc, value, "name")?;
    let url = copy_at(alloc, value, "url")?;
    let size = whole_at(value, "size")?;
    let sha256 = digest_in(copy_at(alloc, value, "sha256")?)?;
    if name.as_str().is_empty() || !is_size(size) {
        return None;
    }
    Some(DistributionFile {
        name,
        url,
        size,
        sha256,
    })
}

/// The files that the values list.
pub(crate) fn files_of(alloc: Global, values: &[Value<'_>]) -> Option<Seq<DistributionFile>>
    ensures meaning { IfSome result (λ files. EachMeans file_of values.now files) }
    ensures lawful { IfSome result (λ files. AllByRecursion IsFile files) }
{
    let mut files = Vec::with_capacity(alloc, values.len()).ok()?;
    for place in 0..values.len() {
        let file = file_of(alloc, &values[place])?;
        let Ok(()) = files.push(file) else {
            return None;
        };
    }
    Some(Seq::from_vec(files))
}
