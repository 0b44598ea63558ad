// Choices.

ghost use Rattle.std.specs.Prelude.{◌≡◌, ◌↔◌, IsTrue};
ghost use Rattle.std.specs.Ordering.{eq_by_cmp};
ghost use Rattle.search.specs.Conflicts.{IsSameChoice};
ghost use Rattle.refutations.specs.Tied.Cases.{is_same};
ghost use Rattle.refutations.specs.Choices.{choice_cmp};
ghost use Rattle.problems.specs.Rules.{same_version};

mod order;
mod text;

use lists::{Faithful, copy_of};
use pep440::Version;
use pep508::Name;
use problems::parts::{LentChoice, LentNode};
use std::alloc::AllocError;
use std::marker::Model;

/// A version that is chosen for a name, at its node with an extra or with none. It may be a version
/// that the index doesn't have. In a clause it is a node with a version.
pub struct Choice {
    pub name: Name,
    pub extra: Option<Name>,
    pub version: Version,
}

impl Drop for Choice {
    fn drop(self) {
        let Choice {
            name: _,
            extra: _,
            version: _,
        } = self;
    }
}

impl Model for Choice {
    ghost use Rattle.problems.specs.Choices.{ChoiceParts};

    ghost Value = { ChoiceParts };

    ghost view = { λ c. record {
      node = record { name = c.name; extra = c.extra };
      version = c.version;
    } };
}

impl Clone for Choice {
    ghost is_clone = { λ c d. d ≡ c };

    fn clone(&self) -> Result<Choice, AllocError> {
        let name = self.name.clone()?;
        let extra = copy_of(self.extra.as_ref())?;
        let version = self.version.clone()?;
        Ok(Choice {
            name,
            extra,
            version,
        })
    }
}

impl Faithful for Choice {
    ghost clone_is_source = { λ x y h. h };
}

/// Whether a choice is at the node of another, with a version that equals the other's.
pub(crate) fn is_at(choice: &Choice, other: &LentChoice<'_, '_>) -> bool
    ensures { result ≡ is_same choice.now other.now }
{
    other.node.is_of(&choice.name, choice.extra.as_ref())
        && choice.version.cmp(other.version).is_eq()
}

/// Whether two choices are one.
pub(crate) fn are_one(choice: &Choice, other: &Choice) -> bool
    ensures { result ≡ is_same choice.now other.now }
{
    let node = &other.node();
    let version = &other.version;
    is_at(choice, &LentChoice { node, version })
}

impl Choice {
    /// Its node, lent.
    pub(crate) fn node(&self) -> LentNode<'_>
        ensures { result ≡ self.now.node }
    {
        let extra = self.extra.as_ref();
        LentNode {
            name: &self.name,
            extra,
        }
    }

    /// Whether the other choice is at the same node, with a version that equals this one's. It is
    /// what `==` answers.
    pub fn is_same(&self, other: &Choice) -> bool
        ensures same { IsTrue result ↔ IsSameChoice same_version self.now other.now }
        ensures equal { result ≡ eq_by_cmp choice_cmp self.now other.now }
    {
        are_one(self, other)
    }
}
