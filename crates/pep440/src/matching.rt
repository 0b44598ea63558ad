// Which versions a set of specifiers matches.

ghost use Rattle.std.specs.Prelude.{◌≡◌, ◌==◌, ◌&&◌, not, slice_index};
ghost use Rattle.pep440.specs.Version.{is_pre};
ghost use Rattle.pep440.specs.Matching.{above, begins, below, clause_matches, equals, has_prefix, is_exclusion, is_pin, matches, names_pre, pins, same_release, without_last};

use crate::order;
use crate::specifier::{Clause, Operator, SpecifierSet};
use crate::version::Version;

/// The number at a place of a release, which is 0 past its end.
fn number_at(release: &[u64], place: usize) -> u64
    ensures { result ≡ slice_index release.now place }
{
    if place < release.len() {
        release[place]
    } else {
        0
    }
}

/// Whether `release`, padded with zeros, begins with `prefix`.
fn begins(release: &[u64], prefix: &[u64]) -> bool
    ensures { result ≡ begins release.now prefix.now }
{
    for i in 0..prefix.len() {
        if number_at(release, i) != prefix[i] {
            return false;
        }
    }
    true
}

fn without_last(release: &[u64]) -> &[u64]
    ensures { result.now ≡ without_last release.now }
{
    if release.is_empty() {
        return release;
    }
    &release[..release.len() - 1]
}

fn has_prefix(candidate: &Version, epoch: u64, release: &[u64]) -> bool
    ensures { result ≡ has_prefix epoch release.now candidate.now }
{
    candidate.epoch() == epoch && begins(candidate.release(), release)
}

fn same_release(left: &Version, right: &Version) -> bool
    ensures { result ≡ same_release left.now right.now }
{
    left.epoch() == right.epoch()
        && order::trimmed(left.release()) == order::trimmed(right.release())
}

fn equals(version: &Version, candidate: &Version) -> bool
    ensures { result ≡ equals version.now candidate.now }
{
    if version.local().is_empty() {
        candidate.cmp_public(version).is_eq()
    } else {
        candidate.cmp(version).is_eq()
    }
}

fn below(version: &Version, candidate: &Version) -> bool
    ensures { result ≡ below version.now candidate.now }
{
    candidate.cmp_public(version).is_lt()
        && (version.is_pre() || !(candidate.is_pre() && same_release(candidate, version)))
}

fn above(version: &Version, candidate: &Version) -> bool
    ensures { result ≡ above version.now candidate.now }
{
    candidate.cmp_public(version).is_gt()
        && (version.is_post() || !(candidate.is_post() && same_release(candidate, version)))
}

fn is_exclusion(operator: Operator) -> bool
    ensures { result ≡ is_exclusion operator }
{
    match operator {
        Operator::NotEqual | Operator::NotEqualPrefix => true,
        _ => false,
    }
}

fn is_pin(operator: Operator) -> bool
    ensures { result ≡ is_pin operator }
{
    match operator {
        Operator::Equal => true,
        _ => false,
    }
}

impl Clause {
    fn names_pre(&self) -> bool
        ensures { result ≡ (not (is_exclusion self.now.operator) && is_pre self.now.version) }
    {
        !is_exclusion(self.operator) && self.version.is_pre()
    }

    /// Whether the clause matches `candidate`. Pre-releases are not excluded by themselves.
    pub fn matches(&self, candidate: &Version) -> bool
        ensures { result ≡ clause_matches self.now candidate.now }
    {
        let version = &self.version;
        match self.operator {
            Operator::Compatible => {
                candidate.cmp_public(version).is_ge()
                    && has_prefix(candidate, version.epoch(), without_last(version.release()))
            }
            Operator::Equal => equals(version, candidate),
            Operator::NotEqual => !equals(version, candidate),
            Operator::EqualPrefix => has_prefix(candidate, version.epoch(), version.release()),
            Operator::NotEqualPrefix => !has_prefix(candidate, version.epoch(), version.release()),
            Operator::AtMost => candidate.cmp_public(version).is_le(),
            Operator::AtLeast => candidate.cmp_public(version).is_ge(),
            Operator::Below => below(version, candidate),
            Operator::Above => above(version, candidate),
        }
    }
}

impl SpecifierSet {
    /// Whether all clauses match `candidate`; the empty set matches every version.
    pub fn matches(&self, candidate: &Version) -> bool
        ensures { result ≡ matches self.now candidate.now }
    {
        self.clauses
            .as_slice()
            .iter()
            .all(|clause| clause.matches(candidate))
    }

    /// Whether a clause other than `!=` names a pre-release.
    pub fn names_pre(&self) -> bool
        ensures { result ≡ names_pre self.now }
    {
        self.clauses
            .as_slice()
            .iter()
            .any(|clause| clause.names_pre())
    }

    /// Whether a clause is `==` without `.*`.
    pub fn pins(&self) -> bool
        ensures { result ≡ pins self.now }
    {
        self.clauses
            .as_slice()
            .iter()
            .any(|clause| is_pin(clause.operator))
    }
}
