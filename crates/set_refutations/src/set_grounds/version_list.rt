// Lists of versions that are read as sets. What is looked for next mostly stands behind what was found
// last, so there it is looked for first; a list in another order costs time and no answer.

ghost use Rattle.std.specs.Prelude.{◌≡◌, IfSome, drop, is_some, true};
ghost use Rattle.std.specs.List.{list_all};
ghost use Rattle.set_refutations.specs.Tied.SetCases as spec;

use pep440::Version;

/// The place behind the first version, from a place on, that equals this one.
fn place_behind(versions: &[Version], version: &Version, from: usize) -> Option<usize>
    ensures { is_some result ≡ spec.is_listed (drop from versions.now) version.now }
{
    for place in from..versions.len() {
        if versions[place].cmp(version).is_eq() {
            return Some(place + 1);
        }
    }
    None
}

/// The same, of which no more is told than that the version is there.
fn found_behind(versions: &[Version], version: &Version, from: usize) -> Option<usize>
    ensures { IfSome result (λ _. spec.is_listed versions.now version.now ≡ true) }
{
    place_behind(versions, version, from)
}

/// The place behind a version that equals this one, looked for from a place on and then from the
/// first one.
pub(crate) fn found_from(versions: &[Version], version: &Version, from: usize) -> Option<usize>
    ensures { is_some result ≡ spec.is_listed versions.now version.now }
{
    if let Some(place) = found_behind(versions, version, from) {
        return Some(place);
    }
    place_behind(versions, version, 0)
}

/// Whether each of these versions equals one of the others.
pub(crate) fn are_listed(versions: &[Version], others: &[Version]) -> bool
    ensures { result ≡ list_all (spec.is_listed others.now) versions.now }
{
    let mut from = 0;
    for place in 0..versions.len() {
        match found_from(others, &versions[place], from) {
            Some(next) => from = next,
            None => return false,
        }
    }
    true
}
