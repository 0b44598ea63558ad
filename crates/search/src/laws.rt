//! Laws of solutions, each the contract of a function that does nothing.

ghost use Rattle.std.specs.Prelude.{ℕ, ◌≡◌, List, [], Option, Bool, true};
ghost use Rattle.std.specs.List.{Contains};
ghost use Rattle.search.specs.FirstWalk.{IsFirstWalk, IsComplete};
ghost use Rattle.search.specs.GuidedWalk.{IsGuidedWalk};
ghost use Rattle.search.specs.Conflicts.{IsVersionEquality, LiesInNone, Follows, EachFollows, IsRefutation};
ghost use Rattle.search.specs.Known.{AreKnown, AreApart, AreKnownSets, conflicts_pictured, sets_pictured};
ghost use Rattle.search.specs.Picture.{Picture, IsPicture, pictured};
ghost use Rattle.search.specs.Rules.{Rules, IsOrder, IsLawful};
ghost use Rattle.search.specs.SetConflicts.{SetLiesInNone, SetFollows, EachSetFollows, IsSetRefutation};
ghost use Rattle.search.specs.SetsOfChoices.{as_sets};
ghost use Rattle.search.specs.Solutions.{Pin, Solution, IsBest, IsBetter, HasNoSolution, version_pinned};
ghost use Rattle.search.specs.Table.{TableParts, in_range, place_in, rules_of, places_eq};
ghost use Rattle.search.specs.declared.conflict.NodeChoice.{NodeChoice};
ghost use Rattle.search.specs.declared.parts.TableChoice.{TableChoice};
ghost use Rattle.search.specs.declared.term.Term.{Term};

/// There is at most one best solution, and no solution is better.
pub fn the_best_solution_is_unique<N, X, V, R>()
    ensures unique { (rules : Rules N X V R) → IsOrder rules.compare → (s t : N → Option V)
        → IsBest rules s → IsBest rules t → (n : N) → t n ≡ s n }
    ensures unbeaten { (rules : Rules N X V R) → IsOrder rules.compare → (s t : N → Option V)
        → IsBest rules s → Solution rules t → IsBetter rules t s → ⊥ }
{}

/// Where each pin of a walk has the first candidate of its name that some solution may still have,
/// and the pins meet all that is required in the end, they are the best solution.
pub fn a_guided_walk_finds_the_best_solution<N, X, V, R>()
    ensures { (rules : Rules N X V R) → IsLawful rules → (pins : List (Pin N V))
        → IsGuidedWalk rules [] pins → IsComplete rules (version_pinned rules.compare pins)
        → IsBest rules (version_pinned rules.compare pins) }
{}

/// Where each pin of a walk has the first candidate of its name that nothing required so far
/// refuses, and the pins meet all that is required in the end, they are the best solution.
pub fn a_first_walk_finds_the_best_solution<N, X, V, R>()
    ensures { (rules : Rules N X V R) → IsLawful rules → (pins : List (Pin N V))
        → IsFirstWalk rules [] pins → IsComplete rules (version_pinned rules.compare pins)
        → IsBest rules (version_pinned rules.compare pins) }
{}

/// Where a table pictures other rules, a best solution of the table stands for the best solution
/// of the rules, and either both have a solution or neither has.
pub fn a_picture_keeps_the_best_solution<N, X, V, R>()
    ensures best { (t : TableParts) (picture : Picture N X V R) (rules : Rules N X V R)
        → in_range t ≡ true → IsOrder rules.compare → IsPicture t picture rules
        → (choices : List TableChoice) → IsBest (rules_of t) (place_in choices)
        → IsBest rules (version_pinned rules.compare (pictured picture choices)) }
    ensures none { (t : TableParts) (picture : Picture N X V R) (rules : Rules N X V R)
        → in_range t ≡ true → IsOrder rules.compare → IsPicture t picture rules
        → HasNoSolution (rules_of t) → HasNoSolution rules }
    ensures none_there { (t : TableParts) (picture : Picture N X V R) (rules : Rules N X V R)
        → in_range t ≡ true → IsOrder rules.compare → IsPicture t picture rules
        → HasNoSolution rules → HasNoSolution (rules_of t) }
{}

/// A conflict that follows from conflicts which lie in no solution lies in none. So each conflict
/// of a list in which each follows from those before it lies in none, and where such a list ends
/// in the empty conflict no solution exists.
pub fn what_follows_lies_in_no_solution<N, X, V, R>()
    ensures follows { (rules : Rules N X V R) (same : V → V → Bool) → IsLawful rules
        → IsVersionEquality rules same
        → (earlier : List (List (NodeChoice X V))) (conflict : List (NodeChoice X V))
        → ((old : List (NodeChoice X V)) → Contains earlier old → LiesInNone rules same old)
        → Follows rules same earlier conflict → LiesInNone rules same conflict }
    ensures each { (rules : Rules N X V R) (same : V → V → Bool) → IsLawful rules
        → IsVersionEquality rules same → (conflicts : List (List (NodeChoice X V)))
        → EachFollows rules same [] conflicts → (conflict : List (NodeChoice X V))
        → Contains conflicts conflict → LiesInNone rules same conflict }
    ensures none { (rules : Rules N X V R) (same : V → V → Bool) → IsLawful rules
        → IsVersionEquality rules same → (conflicts : List (List (NodeChoice X V)))
        → IsRefutation rules same conflicts → HasNoSolution rules }
{}

/// The same of conflicts of sets: what follows from conflicts which lie in no solution lies in none.
/// So does each conflict of a list in which each follows from those before it, and where such a list
/// ends in the empty conflict no solution exists.
pub fn what_follows_from_sets_lies_in_no_solution<N, X, V, R>()
    ensures follows { (rules : Rules N X V R) (same : V → V → Bool) → IsLawful rules
        → IsVersionEquality rules same
        → (earlier : List (List (Term X V))) (conflict : List (Term X V))
        → ((old : List (Term X V)) → Contains earlier old → SetLiesInNone rules same old)
        → SetFollows rules same earlier conflict → SetLiesInNone rules same conflict }
    ensures each { (rules : Rules N X V R) (same : V → V → Bool) → IsLawful rules
        → IsVersionEquality rules same → (conflicts : List (List (Term X V)))
        → EachSetFollows rules same [] conflicts → (conflict : List (Term X V))
        → Contains conflicts conflict → SetLiesInNone rules same conflict }
    ensures none { (rules : Rules N X V R) (same : V → V → Bool) → IsLawful rules
        → IsVersionEquality rules same → (conflicts : List (List (Term X V)))
        → IsSetRefutation rules same conflicts → HasNoSolution rules }
{}

/// Where a table pictures other rules, and no two candidates of a name stand for equal versions, a
/// list of conflicts over choices that the table knows, in which each follows from those before it,
/// stands for such a list of the rules, and a refutation stands for a refutation.
pub fn a_picture_keeps_refutations<N, X, V, R>()
    ensures each { (t : TableParts) (picture : Picture N X V R) (rules : Rules N X V R)
        (same : V → V → Bool) → in_range t ≡ true → IsPicture t picture rules
        → AreApart t picture same → (conflicts : List (List (NodeChoice ℕ ℕ)))
        → AreKnown t conflicts → EachFollows (rules_of t) places_eq [] conflicts
        → EachFollows rules same [] (conflicts_pictured t picture conflicts) }
    ensures refutation { (t : TableParts) (picture : Picture N X V R) (rules : Rules N X V R)
        (same : V → V → Bool) → in_range t ≡ true → IsPicture t picture rules
        → AreApart t picture same → (conflicts : List (List (NodeChoice ℕ ℕ)))
        → AreKnown t conflicts → IsRefutation (rules_of t) places_eq conflicts
        → IsRefutation rules same (conflicts_pictured t picture conflicts) }
{}

/// The same of conflicts of sets over terms that the table knows.
pub fn a_picture_keeps_set_refutations<N, X, V, R>()
    ensures each { (t : TableParts) (picture : Picture N X V R) (rules : Rules N X V R)
        (same : V → V → Bool) → in_range t ≡ true → IsPicture t picture rules
        → AreApart t picture same → (conflicts : List (List (Term ℕ ℕ)))
        → AreKnownSets t conflicts → EachSetFollows (rules_of t) places_eq [] conflicts
        → EachSetFollows rules same [] (sets_pictured t picture conflicts) }
    ensures refutation { (t : TableParts) (picture : Picture N X V R) (rules : Rules N X V R)
        (same : V → V → Bool) → in_range t ≡ true → IsPicture t picture rules
        → AreApart t picture same → (conflicts : List (List (Term ℕ ℕ)))
        → AreKnownSets t conflicts → IsSetRefutation (rules_of t) places_eq conflicts
        → IsSetRefutation rules same (sets_pictured t picture conflicts) }
{}

/// A refutation is a set refutation, where each choice stands for the set of its version alone.
pub fn a_refutation_is_a_set_refutation<N, X, V, R>()
    ensures { (rules : Rules N X V R) (same : V → V → Bool)
        → (conflicts : List (List (NodeChoice X V))) → IsRefutation rules same conflicts
        → IsSetRefutation rules same (as_sets conflicts) }
{}
