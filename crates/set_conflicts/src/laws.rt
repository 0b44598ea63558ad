//! Laws of tables, each the contract of a function that does nothing.

ghost use Rattle.std.specs.Prelude.{◌≡◌, ℕ, List, true};
ghost use Rattle.search.specs.Rules.{IsLawful};
ghost use Rattle.search.specs.SetConflicts.{IsSetRefutation};
ghost use Rattle.search.specs.Solutions.{HasNoSolution};
ghost use Rattle.search.specs.Table.{TableParts, in_range, places_eq, rules_of};
ghost use Rattle.search.specs.declared.term.Term.{Term};

use search::laws::what_follows_from_sets_lies_in_no_solution;

/// The rules of a table are lawful: names are in order, and each requirement needs nodes of its own
/// name alone.
pub fn the_rules_of_a_table_are_lawful()
    ensures { (t : TableParts) → in_range t ≡ true → IsLawful (rules_of t) }
{}

/// A table that has a set refutation has no solution.
pub fn a_set_refutation_leaves_no_solution()
    ensures { (t : TableParts) → in_range t ≡ true → (conflicts : List (List (Term ℕ ℕ)))
        → IsSetRefutation (rules_of t) places_eq conflicts → HasNoSolution (rules_of t) }
{
    the_rules_of_a_table_are_lawful();
    what_follows_from_sets_lies_in_no_solution::<usize, usize, usize, usize>();
}
