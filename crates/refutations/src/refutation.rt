// Refutations.

ghost use Rattle.std.specs.Prelude.{◌≡◌};

use crate::choice::Choice;
use lists::Seq;
use std::marker::Model;

/// A list of conflicts, each a list of choices that is read as a set. Anybody can make one; `check`
/// decides whether it shows that a problem has no solution.
pub struct Refutation {
    conflicts: Seq<Seq<Choice>>,
}

impl Drop for Refutation {
    fn drop(self) {
        let Refutation { conflicts: _ } = self;
    }
}

impl Model for Refutation {
    ghost use Rattle.std.specs.Prelude.{List};
    ghost use Rattle.problems.specs.Choices.{ChoiceParts};

    ghost Value = { List (List ChoiceParts) };

    ghost view = { λ r. r.conflicts };
}

impl Refutation {
    /// The refutation of these conflicts, in their order. Whether it is one, `check` tells.
    pub fn new(conflicts: Seq<Seq<Choice>>) -> Refutation
        ensures { result ≡ conflicts }
    {
        Refutation { conflicts }
    }

    /// The conflicts, in their order.
    pub fn conflicts(&self) -> &[Seq<Choice>]
        ensures { result.now ≡ self.now }
    {
        self.conflicts.as_slice()
    }
}
