// The order of versions, and their hash.

ghost use Rattle.std.specs.Prelude.{◌≡◌, refl, Some};
ghost use Rattle.std.specs.Cmp.{eq_by_cmp_equiv, partial_equiv_from_equiv, partial_order_from_total};
ghost use Rattle.std.specs.Ordering.{as_partial_cmp, eq_by_cmp};
ghost use Rattle.pep440.specs.Order.{dev_key, part_cmp, post_key, pre_key, public_cmp, rank_cmp, trimmed, version_cmp};
ghost use Rattle.pep440.specs.Tied.OrderLaws.{part_total, part_fed, version_fed, version_total};
ghost use Rattle.pep440.specs.Hash.{part_writes, version_writes};

use crate::parts::{LocalPart, Pre};
use crate::version::Version;
use std::cmp::Ordering;
use std::hash::{Hash, Hasher};

/// The release without its trailing zeros.
pub(crate) fn trimmed(release: &[u64]) -> &[u64]
    ensures { result.now ≡ trimmed release.now }
{
    let mut len = release.len();
    while len > 0 && release[len - 1] == 0 {
        len -= 1;
    }
    &release[..len]
}

/// The rank of a pre part, and its number.
fn pre_key(version: &Version) -> (u8, u64)
    ensures { result ≡ pre_key version.now }
{
    match version.pre {
        Some(Pre::Alpha(number)) => (1, number),
        Some(Pre::Beta(number)) => (2, number),
        Some(Pre::Candidate(number)) => (3, number),
        None if version.post.is_none() && version.dev.is_some() => (0, 0),
        None => (4, 0),
    }
}

fn post_key(post: Option<u64>) -> (u8, u64)
    ensures { result ≡ post_key post }
{
    match post {
        None => (0, 0),
        Some(number) => (1, number),
    }
}

fn dev_key(dev: Option<u64>) -> (u8, u64)
    ensures { result ≡ dev_key dev }
{
    match dev {
        Some(number) => (0, number),
        None => (1, 0),
    }
}

fn cmp_ranks(left: (u8, u64), right: (u8, u64)) -> Ordering
    ensures { result ≡ rank_cmp left right }
{
    left.0.cmp(&right.0).then(left.1.cmp(&right.1))
}

impl Version {
    /// The order of the versions without their local parts.
    pub fn cmp_public(&self, other: &Version) -> Ordering
        ensures { result ≡ public_cmp self.now other.now }
    {
        let releases = trimmed(self.release.as_slice()).cmp(&trimmed(other.release.as_slice()));
        let pres = cmp_ranks(pre_key(self), pre_key(other));
        let posts = cmp_ranks(post_key(self.post), post_key(other.post));
        let devs = cmp_ranks(dev_key(self.dev), dev_key(other.dev));
        let epochs = self.epoch.cmp(&other.epoch);
        epochs.then(releases.then(pres.then(posts.then(devs))))
    }
}

impl PartialEq for LocalPart {
    ghost eq = { eq_by_cmp part_cmp };

    ghost laws = { partial_equiv_from_equiv (eq_by_cmp_equiv part_total) };

    fn eq(&self, other: &LocalPart) -> bool {
        self.cmp(other).is_eq()
    }
}

impl Eq for LocalPart {
    ghost laws = { eq_by_cmp_equiv part_total };
}

impl PartialOrd for LocalPart {
    ghost partial_cmp = { as_partial_cmp part_cmp };

    ghost laws = { partial_order_from_total part_total };

    fn partial_cmp(&self, other: &LocalPart) -> Option<Ordering> {
        Some(self.cmp(other))
    }
}

impl Ord for LocalPart {
    ghost cmp = { part_cmp };

    ghost total = { part_total };

    ghost matches_partial_cmp = { λ a b. refl };

    ghost matches_eq = { λ a b. refl };

    fn cmp(&self, other: &LocalPart) -> Ordering {
        match (self, other) {
            (LocalPart::Word(left), LocalPart::Word(right)) => left.cmp(right),
            (LocalPart::Word(_), LocalPart::Number(_)) => Ordering::Less,
            (LocalPart::Number(_), LocalPart::Word(_)) => Ordering::Greater,
            (LocalPart::Number(left), LocalPart::Number(right)) => left.cmp(right),
        }
    }
}

impl Hash for LocalPart {
    ghost hash_input = { part_writes };

    ghost respects_eq = { part_fed };

    fn hash<H: Hasher>(&self, state: &mut H) {
        match self {
            LocalPart::Word(word) => word.hash(state),
            LocalPart::Number(number) => number.hash(state),
        }
    }
}

impl PartialEq for Version {
    ghost eq = { eq_by_cmp version_cmp };

    ghost laws = { partial_equiv_from_equiv (eq_by_cmp_equiv version_total) };

    fn eq(&self, other: &Version) -> bool {
        self.cmp(other).is_eq()
    }
}

impl Eq for Version {
    ghost laws = { eq_by_cmp_equiv version_total };
}

impl PartialOrd for Version {
    ghost partial_cmp = { as_partial_cmp version_cmp };

    ghost laws = { partial_order_from_total version_total };

    fn partial_cmp(&self, other: &Version) -> Option<Ordering> {
        Some(self.cmp(other))
    }
}

impl Ord for Version {
    ghost cmp = { version_cmp };

    ghost total = { version_total };

    ghost matches_partial_cmp = { λ a b. refl };

    ghost matches_eq = { λ a b. refl };

    fn cmp(&self, other: &Version) -> Ordering {
        let locals = self.local.as_slice().cmp(&other.local.as_slice());
        self.cmp_public(other).then(locals)
    }
}

impl Hash for Version {
    ghost hash_input = { version_writes };

    ghost respects_eq = { version_fed };

    fn hash<H: Hasher>(&self, state: &mut H) {
        self.epoch.hash(state);
        trimmed(self.release.as_slice()).hash(state);
        pre_key(self).hash(state);
        post_key(self.post).hash(state);
        dev_key(self.dev).hash(state);
        self.local.as_slice().hash(state);
    }
}
