// Refutations by conflicts of sets.

ghost use Rattle.std.specs.Prelude.{◌≡◌};

use lists::Seq;
use pep440::Version;
use pep508::Name;
use problems::parts::LentNode;
use std::marker::Model;

/// Some versions of a name, at its node with an extra or with none. They may be versions that the
/// index doesn't have. In a clause it is a node with versions.
pub struct SetTerm {
    pub name: Name,
    pub extra: Option<Name>,
    pub versions: Seq<Version>,
}

impl Drop for SetTerm {
    fn drop(self) {
        let SetTerm {
            name: _,
            extra: _,
            versions: _,
        } = self;
    }
}

impl Model for SetTerm {
    ghost use Rattle.set_refutations.specs.SetRefutations.{TermParts};

    ghost Value = { TermParts };

    ghost view = { λ t. record {
      node = record { name = t.name; extra = t.extra };
      versions = t.versions;
    } };
}

impl SetTerm {
    /// Its node, lent.
    pub(crate) fn node(&self) -> LentNode<'_>
        ensures { result ≡ self.now.node }
    {
        let extra = self.extra.as_ref();
        LentNode {
            name: &self.name,
            extra,
        }
    }
}

/// A list of conflicts, each a list of terms that no solution has together: no solution needs all of
/// their nodes and has for each a version of its term. Anybody can make one; `check_sets` decides
/// whether it shows that a problem has no solution.
pub struct SetRefutation {
    conflicts: Seq<Seq<SetTerm>>,
}

impl Drop for SetRefutation {
    fn drop(self) {
        let SetRefutation { conflicts: _ } = self;
    }
}

impl Model for SetRefutation {
    ghost use Rattle.std.specs.Prelude.{List};
    ghost use Rattle.set_refutations.specs.SetRefutations.{TermParts};

    ghost Value = { List (List TermParts) };

    ghost view = { λ r. r.conflicts };
}

impl SetRefutation {
    /// The refutation of these conflicts, in their order. Whether it is one, `check_sets` tells.
    pub fn new(conflicts: Seq<Seq<SetTerm>>) -> SetRefutation
        ensures { result ≡ conflicts }
    {
        SetRefutation { conflicts }
    }

    /// The conflicts, in their order.
    pub fn conflicts(&self) -> &[Seq<SetTerm>]
        ensures { result.now ≡ self.now }
    {
        self.conflicts.as_slice()
    }
}
