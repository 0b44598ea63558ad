// The requirements of the release that was read last, with their texts.

ghost use Rattle.std.specs.Prelude.{◌≡◌, [], IfSome, Ok, OnOk};
ghost use Rattle.pep508.specs.Requirement.{requirement_text};
ghost use Rattle.snapshot.specs.Releases.{requirements_from};

use lists::{Seq, Text};
use pep508::Requirement;
use std::alloc::{AllocError, Global};
use std::marker::Model;

/// How many places before and behind its own a text is looked for.
const REACH: usize = 4;

/// What the release before depends on. Most releases of a package ask for the same as the one before: such a
/// requirement isn't read again, and the releases share it. In a clause it is the texts.
pub(crate) struct Known {
    texts: Seq<Text>,
    requirements: Seq<Requirement>,
}

impl Drop for Known {
    fn drop(self) {
        let Known {
            texts: _,
            requirements: _,
        } = self;
    }
}

impl Model for Known {
    ghost use Rattle.std.specs.Prelude.{◌≡◌, List, Ok, ℕ};
    ghost use Rattle.snapshot.specs.Releases.{requirements_from};

    ghost Value = { List (List ℕ) };

    ghost view = { λ k. k.texts };

    ghost invariant = { λ k. requirements_from 0 k.texts ≡ Ok k.requirements };
}

impl Known {
    /// No requirement.
    #[tactic(auto, unfolding(crate::specs::Releases::requirements_from))]
    pub(crate) fn none(alloc: Global) -> Known
        ensures { result ≡ [] }
    {
        Known {
            texts: Seq::new(alloc),
            requirements: Seq::new(alloc),
        }
    }

    /// The requirement at a place, where this is its text.
    fn at(&self, place: usize, text: &str) -> Option<&Requirement>
        ensures { IfSome result (λ wanted. requirement_text text.now ≡ Ok wanted.now) }
    {
        let known = self.texts.as_slice().get(place)?;
        let requirement = self.requirements.as_slice().get(place)?;
        if known.as_str() == text {
            Some(requirement)
        } else {
            None
        }
    }

    /// The requirement that a text is, where it is known at the place or near it.
    pub(crate) fn near(&self, place: usize, text: &str) -> Option<&Requirement>
        ensures { IfSome result (λ wanted. requirement_text text.now ≡ Ok wanted.now) }
    {
        for other in place.saturating_sub(REACH)..=place.saturating_add(REACH) {
            if let Some(wanted) = self.at(other, text) {
                return Some(wanted);
            }
        }
        None
    }

    /// Knows these requirements, and no longer those before.
    pub(crate) fn keep(
        &mut self,
        texts: Seq<Text>,
        requirements: &Seq<Requirement>,
    ) -> Result<(), AllocError>
        requires { requirements_from 0 texts ≡ Ok requirements.now }
        ensures { OnOk result (self.new ≡ texts) }
    {
        let requirements = requirements.clone()?;
        *self = Known {
            texts,
            requirements,
        };
        Ok(())
    }
}
