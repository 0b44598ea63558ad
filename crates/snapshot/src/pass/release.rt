// Reading the releases of a package that borrows its text.

ghost use Rattle.std.specs.Prelude.{◌≡◌, IfSome, Ok, Some};
ghost use Rattle.std.specs.List.{AllByRecursion};
ghost use Rattle.json.specs.Value.{items_view, value_view};
ghost use Rattle.serde_json.specs.Data.{Items};
ghost use Rattle.serde_json.specs.Read.{of_items};
ghost use Rattle.snapshot.specs.Lawful.{IsFile};
ghost use Rattle.snapshot.specs.Releases.{listed_of, release_of, releases_in};
ghost use Rattle.snapshot.specs.Shape.{text_of};
ghost use Rattle.snapshot.specs.Tied.Gathering.{kept_view};
ghost use Rattle.snapshot.specs.Tied.Meaning.{EachMeans, Means, dependencies_of};

use crate::known::Known;
use crate::listed::Listed;
use crate::pass::file::files_of;
use crate::pass::members::{copy_at, flag_at, items_at, optional_copy_at};
use crate::release::reading::{Gathering, add};
use crate::usable::{ReleaseOutcome, outcome_of};
use json::Value;
use lists::{Seq, Text};
use pep508::Name;
use std::alloc::Global;

/// The texts that the values are.
fn texts_of(alloc: Global, values: &[Value<'_>]) -> Option<Seq<Text>>
    ensures { IfSome result (λ texts. EachMeans text_of values.now texts) }
{
    let mut texts = Vec::with_capacity(alloc, values.len()).ok()?;
    for place in 0..values.len() {
        let Ok(text) = Text::copy_of(alloc, values[place].as_str()?) else {
            return None;
        };
        let Ok(()) = texts.push(text) else {
            return None;
        };
    }
    Some(Seq::from_vec(texts))
}

/// The texts of what a release depends on, none where there are none or null.
fn dependencies_of(alloc: Global, release: &Value<'_>) -> Option<Seq<Text>>
    ensures { IfSome result (λ texts. Means dependencies_of (value_view release.now) texts) }
{
    match release.get("requires_dist") {
        None => Some(Seq::new(alloc)),
        Some(Value::Null) => Some(Seq::new(alloc)),
        Some(_) => texts_of(alloc, items_at(release, "requires_dist")?),
    }
}

/// The release that a value lists.
fn listed_of(alloc: Global, value: &Value<'_>) -> Option<Listed>
    ensures meaning { IfSome result (λ listed. Means listed_of (value_view value.now) listed) }
    ensures lawful { IfSome result (λ listed. AllByRecursion IsFile listed.files) }
{
    let version = copy_at(alloc, value, "version")?;
    let requires_python = optional_copy_at(alloc, value, "requires_python")?;
    let requires_dist = dependencies_of(alloc, value)?;
    let yanked = flag_at(value, "yanked")?;
    let files = files_of(alloc, items_at(value, "files")?)?;
    Some(Listed {
        version,
        requires_python,
        requires_dist,
        yanked,
        files,
    })
}

/// What comes of the release that a value lists.
fn release_of(alloc: Global, known: &mut Known, value: &Value<'_>) -> Option<ReleaseOutcome>
    ensures { IfSome result (λ outcome. Means release_of (value_view value.now) outcome) }
{
    let listed = listed_of(alloc, value)?;
    match outcome_of(alloc, known, listed) {
        Ok(outcome) => Some(outcome),
        Err(_) => None,
    }
}

/// The releases of the package that the values list, gone through.
pub(crate) fn gathered(alloc: Global, name: &Name, values: &[Value<'_>]) -> Option<Gathering>
    ensures { IfSome result (λ gathering. (ds : Items) → of_items (items_view values.now) ≡ Some ds
        → releases_in name.now ds ≡ Ok (kept_view gathering)) }
{
    let mut gathering = Gathering::new(alloc);
    let mut known = Known::none(alloc);
    for place in 0..values.len() {
        let outcome = release_of(alloc, &mut known, &values[place])?;
        let Ok(()) = add(&mut gathering, name, place, outcome) else {
            return None;
        };
    }
    Some(gathering)
}
