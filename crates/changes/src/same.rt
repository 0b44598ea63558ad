// Whether values hold the same, compared by their texts and not by an order.

ghost use Rattle.std.specs.Prelude.{◌≡◌, ◌↔◌, IsTrue};
ghost use Rattle.std.specs.List.{list_all};
ghost use Rattle.std.specs.Str.{bytes_eq};
ghost use Rattle.markers.specs.Environment.{all_variables, text_of};

use lists::Text;
use markers::{Environment, VARIABLES};
use pep440::{LocalPart, Pre, Version};
use pep508::{Line, Name};
use pylock::{DistributionFile, Entry};

/// What can be compared by all that it holds. The versions `1` and `1.0` are equal in their order, and
/// don't hold the same.
pub trait Same {
    /// Whether the other one holds the same. It has no refusal.
    fn is_same(&self, other: &Self) -> bool
        ensures { IsTrue result ↔ (self.now ≡ other.now) };
}

impl Same for u64 {
    fn is_same(&self, other: &u64) -> bool {
        *self == *other
    }
}

impl Same for Text {
    fn is_same(&self, other: &Text) -> bool {
        self.as_str() == other.as_str()
    }
}

impl Same for Name {
    fn is_same(&self, other: &Name) -> bool {
        self.normal() == other.normal()
    }
}

impl Same for Line {
    fn is_same(&self, other: &Line) -> bool {
        self.text() == other.text()
    }
}

impl Same for Pre {
    fn is_same(&self, other: &Pre) -> bool {
        match (self, other) {
            (Pre::Alpha(number), Pre::Alpha(same)) => number.is_same(same),
            (Pre::Beta(number), Pre::Beta(same)) => number.is_same(same),
            (Pre::Candidate(number), Pre::Candidate(same)) => number.is_same(same),
            _ => false,
        }
    }
}

impl Same for LocalPart {
    fn is_same(&self, other: &LocalPart) -> bool {
        match (self, other) {
            (LocalPart::Word(word), LocalPart::Word(same)) => word.is_same(same),
            (LocalPart::Number(number), LocalPart::Number(same)) => number.is_same(same),
            _ => false,
        }
    }
}

impl<T: Same> Same for Option<T> {
    fn is_same(&self, other: &Option<T>) -> bool {
        match (self, other) {
            (Some(value), Some(same)) => value.is_same(same),
            (None, None) => true,
            _ => false,
        }
    }
}

/// Whether the items are the same, one by one.
pub fn are_same<T: Same>(items: &[T], others: &[T]) -> bool
    ensures { IsTrue result ↔ (items.now ≡ others.now) }
{
    if items.len() != others.len() {
        return false;
    }
    for place in 0..items.len() {
        if !items[place].is_same(&others[place]) {
            return false;
        }
    }
    true
}

impl Same for Version {
    fn is_same(&self, other: &Version) -> bool {
        self.epoch() == other.epoch()
            && are_same(self.release(), other.release())
            && self.pre().is_same(&other.pre())
            && self.post().is_same(&other.post())
            && self.dev().is_same(&other.dev())
            && are_same(self.local(), other.local())
    }
}

impl Same for DistributionFile {
    fn is_same(&self, other: &DistributionFile) -> bool {
        self.name.is_same(&other.name)
            && self.url.is_same(&other.url)
            && self.size == other.size
            && self.sha256.is_same(&other.sha256)
    }
}

/// Whether two entries ask the same of Python.
fn asks_same(one: &Entry, other: &Entry) -> bool
    ensures { IsTrue result ↔ (one.now.requires_python ≡ other.now.requires_python) }
{
    match (one.requires_python(), other.requires_python()) {
        (Some(python), Some(same)) => python.text() == same.text(),
        (None, None) => true,
        _ => false,
    }
}

impl Same for Entry {
    fn is_same(&self, other: &Entry) -> bool {
        self.name().is_same(other.name())
            && self.version().is_same(other.version())
            && asks_same(self, other)
            && are_same(self.dependencies(), other.dependencies())
            && self.sdist().is_same(other.sdist())
            && are_same(self.wheels(), other.wheels())
    }
}

/// Whether both have the same text of each variable.
fn have_same_texts(environment: &Environment, other: &Environment) -> bool
    ensures { result ≡ list_all
        (λ v. bytes_eq (text_of environment.now v) (text_of other.now v)) all_variables }
{
    VARIABLES.iter().all(|variable| environment.text(*variable) == other.text(*variable))
}

impl Same for Environment {
    fn is_same(&self, other: &Environment) -> bool {
        self.recall_invariant();
        other.recall_invariant();
        have_same_texts(self, other)
    }
}
