// The order of choices.

ghost use Rattle.std.specs.Prelude.{refl};
ghost use Rattle.std.specs.Cmp.{eq_by_cmp_equiv, partial_equiv_from_equiv, partial_order_from_total};
ghost use Rattle.std.specs.Ordering.{as_partial_cmp, eq_by_cmp};
ghost use Rattle.refutations.specs.Tied.ChoiceLaws.{choice_total};
ghost use Rattle.refutations.specs.Choices.{choice_cmp};

use crate::choice::Choice;
use std::cmp::Ordering;

impl PartialEq for Choice {
    ghost eq = { eq_by_cmp choice_cmp };

    ghost laws = { partial_equiv_from_equiv (eq_by_cmp_equiv choice_total) };

    fn eq(&self, other: &Choice) -> bool {
        self.cmp(other).is_eq()
    }
}

impl Eq for Choice {
    ghost laws = { eq_by_cmp_equiv choice_total };
}

impl PartialOrd for Choice {
    ghost partial_cmp = { as_partial_cmp choice_cmp };

    ghost laws = { partial_order_from_total choice_total };

    fn partial_cmp(&self, other: &Choice) -> Option<Ordering> {
        Some(self.cmp(other))
    }
}

impl Ord for Choice {
    ghost cmp = { choice_cmp };

    ghost total = { choice_total };

    ghost matches_partial_cmp = { λ a b. refl };

    ghost matches_eq = { λ a b. refl };

    fn cmp(&self, other: &Choice) -> Ordering {
        let names = self.name.cmp(&other.name);
        let nodes = Ordering::or_cmp(names, &self.extra, &other.extra);
        Ordering::or_cmp(nodes, &self.version, &other.version)
    }
}
