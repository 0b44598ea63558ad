// Earlier conflicts that a conflict contains with one version alone at a node.

ghost use Rattle.std.specs.Prelude.{◌≡◌, ◌&&◌, ◌||◌, List, MatchOption, Some, false, is_some, true};
ghost use Rattle.std.specs.List.{list_all, slice_get};
ghost use Rattle.search.specs.SetConflicts.{EachVersion};
ghost use Rattle.set_refutations.specs.Grounds.{IsSetGround};
ghost use Rattle.problems.specs.Problem.{ProblemParts};
ghost use Rattle.problems.specs.Tied.NodeEquality.{is_node};
ghost use Rattle.problems.specs.Rules.{same_version};
ghost use Rattle.set_refutations.specs.SetRefutations.{TermParts};
ghost use Rattle.set_refutations.specs.Tied.SetCases as spec;

use crate::earlier_sets::EarlierSets;
use crate::set_ground::SetGround;
use crate::set_grounds::version_list::{are_listed, found_from};
use crate::set_refutation::SetTerm;
use pep440::Version;
use problems::parts::LentNode;
use snapshot::Release;

/// Whether a term is at the node.
fn is_on(term: &SetTerm, node: &LentNode<'_>) -> bool
    ensures { result ≡ is_node term.now.node node.now.name node.now.extra }
{
    node.is_of(&term.name, term.extra.as_ref())
}

/// Whether a term is on the node of the other, and all its versions are among the other's.
fn binds(binding: &SetTerm, term: &SetTerm) -> bool
    ensures { result ≡ (is_node binding.now.node term.now.node.name term.now.node.extra
        && list_all (spec.is_listed term.now.versions) binding.now.versions) }
{
    is_on(binding, &term.node())
        && are_listed(binding.versions.as_slice(), term.versions.as_slice())
}

/// Whether the conflict has a term on the node of this one, all of whose versions are among this one's.
fn is_bound(term: &SetTerm, conflict: &[SetTerm]) -> bool
    ensures { result ≡ spec.is_bound conflict.now term.now }
{
    conflict.iter().any(|binding| binds(binding, term))
}

/// Whether a term has the version, where it is at the node: the place behind it.
fn found_in(term: &SetTerm, node: &LentNode<'_>, version: &Version, from: usize) -> Option<usize>
    ensures { is_some result ≡ spec.fits_at node.now version.now term.now }
{
    if is_on(term, node) {
        return found_from(term.versions.as_slice(), version, from);
    }
    Some(from)
}

/// Whether a term that is at the node has the version, or is bound by the conflict all the same.
fn is_within_at(
    term: &SetTerm,
    conflict: &[SetTerm],
    node: &LentNode<'_>,
    version: &Version,
) -> bool
    ensures { result
        ≡ (spec.fits_at node.now version.now term.now || spec.is_bound conflict.now term.now) }
{
    found_in(term, node, version, 0).is_some() || is_bound(term, conflict)
}

/// The same of each of the terms.
fn are_within_at(
    old: &[SetTerm],
    conflict: &[SetTerm],
    node: &LentNode<'_>,
    version: &Version,
) -> bool
    ensures { result ≡ list_all
        (λ term. spec.fits_at node.now version.now term || spec.is_bound conflict.now term)
        old.now }
{
    old.iter()
        .all(|term| is_within_at(term, conflict, node, version))
}

/// Whether each of the terms is at the node or bound by the conflict.
fn are_bound_beside(old: &[SetTerm], conflict: &[SetTerm], node: &LentNode<'_>) -> bool
    ensures { result ≡ list_all (spec.is_bound_beside conflict.now node.now) old.now }
{
    old.iter()
        .all(|term| is_on(term, node) || is_bound(term, conflict))
}

/// Whether the conflict with the version alone at the node contains the earlier one. Its terms at the
/// node are looked at first: mostly they tell.
fn is_completed(
    old: &[SetTerm],
    conflict: &[SetTerm],
    node: &LentNode<'_>,
    version: &Version,
) -> bool
    ensures { result ≡ list_all (spec.is_within conflict.now node.now version.now) old.now }
{
    if !are_within_at(old, conflict, node, version) {
        return false;
    }
    are_bound_beside(old, conflict, node)
}

/// The place of the first of the earlier conflicts that the conflict contains with the version alone
/// at the node.
pub(crate) fn first_completed(
    earlier: &EarlierSets<'_>,
    conflict: &[SetTerm],
    node: &LentNode<'_>,
    version: &Version,
) -> Option<usize>
    ensures { MatchOption result
        (spec.completes earlier.now conflict.now node.now version.now ≡ false)
        (λ place. (old : List TermParts) × (slice_get earlier.now place ≡ Some old)
        × (list_all (spec.is_within conflict.now node.now version.now) old ≡ true)) }
{
    for place in 0..earlier.len() {
        if is_completed(earlier.at(place), conflict, node, version) {
            return Some(place);
        }
    }
    None
}

/// Whether the conflict with the version alone at the node contains an earlier one.
fn completes(
    earlier: &EarlierSets<'_>,
    conflict: &[SetTerm],
    node: &LentNode<'_>,
    version: &Version,
) -> bool
    ensures { result ≡ spec.completes earlier.now conflict.now node.now version.now }
{
    first_completed(earlier, conflict, node, version).is_some()
}

/// The same with the version of a release.
fn release_completes(
    earlier: &EarlierSets<'_>,
    conflict: &[SetTerm],
    node: &LentNode<'_>,
    release: &Release,
) -> bool
    ensures { result ≡ spec.completes earlier.now conflict.now node.now release.now.version }
{
    completes(earlier, conflict, node, release.version())
}

/// Whether with each release alone at the node the conflict contains an earlier one.
pub(crate) fn each_release_completes(
    earlier: &EarlierSets<'_>,
    conflict: &[SetTerm],
    node: &LentNode<'_>,
    releases: &[Release],
) -> bool
    ensures { result ≡ list_all
        (λ release. spec.completes earlier.now conflict.now node.now release.version)
        releases.now }
{
    releases.iter().all(|release| release_completes(earlier, conflict, node, release))
}

/// Whether with each of the versions alone at the node the conflict contains an earlier one.
fn each_completes(
    earlier: &EarlierSets<'_>,
    conflict: &[SetTerm],
    node: &LentNode<'_>,
    versions: &[Version],
) -> bool
    ensures { result ≡ list_all (spec.completes earlier.now conflict.now node.now) versions.now }
{
    versions
        .iter()
        .all(|version| completes(earlier, conflict, node, version))
}

/// Whether with each version of a term the conflict contains an earlier one.
fn term_completes(earlier: &EarlierSets<'_>, conflict: &[SetTerm], term: &SetTerm) -> bool
    ensures { result ≡ spec.each_completes earlier.now conflict.now term.now }
{
    each_completes(earlier, conflict, &term.node(), term.versions.as_slice())
}

/// The first of the terms with each version of which the conflict contains an earlier one.
pub(crate) fn each_version_completes<'a>(
    earlier: &EarlierSets<'_>,
    conflict: &[SetTerm],
) -> Option<SetGround<'a>>
    ensures { MatchOption result (EachVersion same_version earlier.now conflict.now → ⊥)
        (λ found. (given : ProblemParts) → IsSetGround given earlier.now conflict.now found) }
{
    for place in 0..conflict.len() {
        if term_completes(earlier, conflict, &conflict[place]) {
            return Some(SetGround::EachVersion(place));
        }
    }
    None
}
