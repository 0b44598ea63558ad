// Reading a package that borrows its text.

ghost use Rattle.std.specs.Prelude.{IfSome};
ghost use Rattle.json.specs.Value.{value_view};
ghost use Rattle.snapshot.specs.Packages.{package_of};
ghost use Rattle.snapshot.specs.Tied.Meaning.{Means};

use crate::package::{Package, ReadPackage};
use crate::pass::members::{items_at, text_at};
use crate::pass::release::gathered;
use crate::release::reading::{ReadReleases, read_releases};
use json::Value;
use pep508::Name;
use std::alloc::Global;

/// The package that a value lists.
pub(crate) fn package_of(alloc: Global, value: &Value<'_>) -> Option<ReadPackage>
    ensures { IfSome result (λ read. Means package_of (value_view value.now) read) }
{
    let Ok(name) = Name::parse(alloc, text_at(value, "name")?) else {
        return None;
    };
    let gathering = gathered(alloc, &name, items_at(value, "releases")?)?;
    let Ok(ReadReleases { releases, skipped }) = read_releases(alloc, gathering) else {
        return None;
    };
    let kept = Package { name, releases };
    Some(ReadPackage { kept, skipped })
}
