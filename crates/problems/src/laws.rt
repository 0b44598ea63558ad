//! Laws of problems and their solutions, each the contract of a function that does nothing.

ghost use Rattle.std.specs.Prelude.{◌≤◌, ℕ, List, Option, [], length};
ghost use Rattle.std.specs.List.{Contains};
ghost use Rattle.pep440.specs.Version.{VersionParts};
ghost use Rattle.pep508.specs.Requirement.{RequirementParts};
ghost use Rattle.search.specs.Conflicts.{IsVersionEquality};
ghost use Rattle.search.specs.FirstWalk.{IsComplete, IsFirstWalk};
ghost use Rattle.search.specs.Rules.{IsLawful};
ghost use Rattle.search.specs.Solutions.{Needed, Pin};
ghost use Rattle.snapshot.specs.Release.{Release};
ghost use Rattle.problems.specs.Tied.Growing.{nodes_met, requirements_met};
ghost use Rattle.problems.specs.Laws.{AKeptVersionIsThatOfItsRelease, AdmissionForgetsKeptVersions, BestKeepsAll, NeedsForgetKeptVersions, SolutionsKeepAll};
ghost use Rattle.problems.specs.Problem.{ProblemParts, releases_on};
ghost use Rattle.problems.specs.Rules.{rules_of, same_version};
ghost use Rattle.problems.specs.Tied.OwnNeeds.{own_rules, own_wants};
ghost use Rattle.problems.specs.declared.node.Node.{Node};

use markers::marker_extras::other_extras_are_as_none;
pub use search::laws::the_best_solution_is_unique;

/// Which versions a requirement admits doesn't depend on the versions that an earlier lock has, nor on
/// whether others count beside them.
pub fn admission_forgets_kept_versions()
    ensures law { AdmissionForgetsKeptVersions }
{}

/// Nor do the nodes that are needed with chosen versions.
pub fn needs_forget_kept_versions()
    ensures { NeedsForgetKeptVersions }
{}

/// The version of the release that is kept equals the one that an earlier lock has.
pub fn a_kept_version_is_that_of_its_release()
    ensures { AKeptVersionIsThatOfItsRelease }
{}

/// Where no other version counts beside a kept one, the solutions are those among all that keep the version
/// of each name that they have and for which one is kept. So a version that is kept for a name that
/// nothing needs stands in the way of none.
pub fn solutions_without_others_keep_all()
    ensures { SolutionsKeepAll }
{}

/// Where the best of all solutions keeps all versions, it is the best of these too.
pub fn the_best_solution_that_keeps_all_stays_the_best()
    ensures { BestKeepsAll }
{}

/// The rules of a problem are lawful: names are ordered by their bytes, each requirement needs a node, and
/// the nodes that it needs are on its name.
pub fn the_rules_of_a_problem_are_lawful()
    ensures { (given : ProblemParts) → IsLawful (rules_of given) }
{}

/// Whatever is chosen, the nodes that are needed are among those that the active lines and the releases
/// of the index ask for. What a release of the index depends on is among what these ask for.
pub fn what_is_needed_can_be_met()
    ensures needed { (given : ProblemParts) (chosen : List ℕ → Option VersionParts) (node : Node)
        → Needed (rules_of given) chosen node → Contains (nodes_met given) node }
    ensures dependencies { (given : ProblemParts) (name : List ℕ) (release : Release)
        (wanted : RequirementParts) → Contains (releases_on given name) release
        → Contains release.dependencies wanted → Contains (requirements_met given) wanted }
{}

/// A node with an extra wants of its own only what names the extra; all else that counts there its name
/// wants with no extra. So a walk that follows each node to what it wants of its own meets all that is
/// wanted, and a first walk by these rules is one by those of the problem. No node wants more of its own
/// than all that can be met.
pub fn own_needs_are_enough()
    ensures lawful { (given : ProblemParts) → IsLawful (own_rules given) }
    ensures needed { (given : ProblemParts) (chosen : List ℕ → Option VersionParts) (node : Node)
        → Needed (own_rules given) chosen node → Contains (nodes_met given) node }
    ensures few { (given : ProblemParts) (node : Node) (version : VersionParts)
        → length (own_wants given node version) ≤ length (requirements_met given) }
    ensures walk { (given : ProblemParts) (pins : List (Pin (List ℕ) VersionParts))
        → IsFirstWalk (own_rules given) [] pins → IsFirstWalk (rules_of given) [] pins }
    ensures complete { (given : ProblemParts) (chosen : List ℕ → Option VersionParts)
        → IsComplete (own_rules given) chosen → IsComplete (rules_of given) chosen }
{
    other_extras_are_as_none();
}

/// The rules of a problem don't tell versions apart that are equal in their order.
pub fn equal_versions_are_alike()
    ensures { (given : ProblemParts) → IsVersionEquality (rules_of given) same_version }
{}
