// Whether choices contradict what is required, and the next name.

ghost use Rattle.std.specs.Prelude.{◌≡◌, ◌≢◌, ◌<◌, MatchOption, length, nat_lt, if◌then◌else◌, true, false};
ghost use Rattle.std.specs.List.{list_any};
ghost use Rattle.search.specs.Ranges.{EachBelow};
ghost use Rattle.search.specs.Tied.Front.{HaveFit};
ghost use Rattle.search.specs.Tied.Search.{taken_at, clash_in, NoneFree, IsLeastFree};
ghost use Rattle.search.specs.Table.{rules_of};

use crate::needed_nodes::place_of;
use crate::parts::KnownBefore;
use crate::table::Table;

/// Whether a requirement doesn't admit the release that its name has.
fn does_clash(table: &Table, taken: &[Option<usize>], requirement: usize) -> bool
    requires { requirement < length table.now.requirements }
    ensures { result ≡ clash_in (rules_of table.now) (taken_at taken.now) requirement }
{
    match place_of(taken, table.name_required(requirement)) {
        None => false,
        Some(place) => !table.does_admit(requirement, place),
    }
}

/// Whether a requirement clashes. One that was known before, on another name than this, doesn't.
fn does_now_clash(
    table: &Table,
    taken: &[Option<usize>],
    requirement: usize,
    is_known: bool,
    name: usize,
) -> bool
    requires known { requirement < length table.now.requirements }
    requires fits { is_known ≡ true → (rules_of table.now).name requirement ≢ name
        → clash_in (rules_of table.now) (taken_at taken.now) requirement ≡ false }
    ensures { result ≡ clash_in (rules_of table.now) (taken_at taken.now) requirement }
{
    if is_known && table.name_required(requirement) != name {
        return false;
    }
    does_clash(table, taken, requirement)
}

/// Whether one of the requirements clashes. Of those that were known before only the ones on the
/// name that was taken last are tested.
pub fn do_any_clash(
    table: &Table,
    taken: &[Option<usize>],
    required: &[usize],
    known_before: KnownBefore,
) -> bool
    requires known { EachBelow (length table.now.requirements) required.now }
    requires fit { HaveFit (rules_of table.now) (taken_at taken.now) required.now known_before }
    ensures { result ≡ list_any (clash_in (rules_of table.now) (taken_at taken.now)) required.now }
{
    for at in 0..required.len() {
        if does_now_clash(
            table,
            taken,
            required[at],
            at < known_before.required,
            known_before.last_taken,
        ) {
            return true;
        }
    }
    false
}

/// The lesser of a name and what was found so far.
fn lesser(found: Option<usize>, name: usize) -> usize
    ensures { MatchOption found (result ≡ name)
        (λ other. result ≡ (if nat_lt name other then name else other)) }
{
    match found {
        None => name,
        Some(other) => { if name < other { name } else { other } }
    }
}

/// The least name of the nodes that is not taken.
pub fn least_free(table: &Table, taken: &[Option<usize>], nodes: &[usize]) -> Option<usize>
    requires { EachBelow (length table.now.nodes) nodes.now }
    ensures { MatchOption result (NoneFree (rules_of table.now) (taken_at taken.now) nodes.now)
        (λ n. IsLeastFree (rules_of table.now) (taken_at taken.now) nodes.now n) }
{
    let mut found = None;
    for node in nodes {
        let name = table.name_of(*node);
        if place_of(taken, name).is_none() {
            found = Some(lesser(found, name));
        }
    }
    found
}
