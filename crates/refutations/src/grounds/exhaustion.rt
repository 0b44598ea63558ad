// The node for which no release is left, and what needs it.

ghost use Rattle.std.specs.Prelude.{◌≡◌, ◌&&◌, MatchOption, None, false, true};
ghost use Rattle.std.specs.List.{Contains, list_any};
ghost use Rattle.std.specs.Option.{option_copied};
ghost use Rattle.search.specs.Conflicts.{NoneLeft};
ghost use Rattle.refutations.specs.Tied.Cases as spec;
ghost use Rattle.refutations.specs.Tied.Cases.{IsLeftOut};
ghost use Rattle.refutations.specs.Grounds.{IsGround};
ghost use Rattle.problems.specs.Rules.{counts, nodes_of, rules_of, same_version, wants, with_extra};

use crate::choice::Choice;
use crate::ground::{Ground, Need};
use crate::grounds::completion::none_left_at;
use crate::grounds::earlier::Earlier;
use pep508::{Name, Requirement};
use problems::Problem;
use problems::parts::{LentNode, counts};

/// The first of the extras with which no release is left for the name.
fn extra_without<'a>(
    problem: &Problem<'_>,
    earlier: Earlier<'_, '_, '_, '_>,
    conflict: &[Choice],
    name: &Name,
    extras: &'a [Name],
) -> Option<&'a Name>
    ensures { MatchOption result
        (earlier.entry.hints ≡ None → list_any
        (λ extra. spec.none_left problem.now earlier.entry.conflicts.now conflict.now
        (with_extra name.now extra)) extras.now ≡ false)
        (λ extra. Contains extras.now extra.now
        × (spec.none_left problem.now earlier.entry.conflicts.now conflict.now
        (with_extra name.now extra.now) ≡ true)) }
{
    for place in 0..extras.len() {
        let extra = Some(&extras[place]);
        if none_left_at(problem, earlier, conflict, &LentNode { name, extra }) {
            return extra;
        }
    }
    None
}

/// The extra or none at the first node that a requirement needs and for which no release is left, the
/// nodes of its extras before the bare one.
fn extra_at<'a>(
    problem: &Problem<'_>,
    earlier: Earlier<'_, '_, '_, '_>,
    conflict: &[Choice],
    wanted: &'a Requirement,
) -> Option<Option<&'a Name>>
    ensures { MatchOption result
        (earlier.entry.hints ≡ None
        → list_any (spec.none_left problem.now earlier.entry.conflicts.now conflict.now)
        (nodes_of wanted.now) ≡ false)
        (λ extra. IsLeftOut problem.now earlier.entry.conflicts.now conflict.now wanted.now
        (option_copied extra)) }
{
    let name = wanted.name();
    if let Some(extra) = extra_without(problem, earlier, conflict, name, wanted.extras()) {
        return Some(Some(extra));
    }
    let extra = None;
    if none_left_at(problem, earlier, conflict, &LentNode { name, extra }) {
        return Some(None);
    }
    None
}

/// The first dependency that counts with an extra or none and needs such a node, and the extra there.
fn dependency_needing<'a>(
    problem: &Problem<'_>,
    earlier: Earlier<'_, '_, '_, '_>,
    conflict: &[Choice],
    extra: Option<&Name>,
    dependencies: &'a [Requirement],
) -> Option<(&'a Requirement, Option<&'a Name>)>
    ensures { MatchOption result
        (earlier.entry.hints ≡ None → list_any
        (λ wanted. counts problem.now.environment (option_copied extra.entry) wanted
        && list_any (spec.none_left problem.now earlier.entry.conflicts.now conflict.now)
        (nodes_of wanted)) dependencies.now ≡ false)
        (λ found. Contains dependencies.now found.0.now
        × (counts problem.now.environment (option_copied extra.entry) found.0.now ≡ true)
        × IsLeftOut problem.now earlier.entry.conflicts.now conflict.now found.0.now
        (option_copied found.1)) }
{
    for place in 0..dependencies.len() {
        let wanted = &dependencies[place];
        if counts(&problem.environment, extra, wanted) {
            if let Some(node) = extra_at(problem, earlier, conflict, wanted) {
                return Some((wanted, node));
            }
        }
    }
    None
}

/// The ground that a choice needs a node for which no release is left.
fn exhausted_behind<'a>(
    problem: &'a Problem<'_>,
    earlier: Earlier<'_, '_, '_, '_>,
    conflict: &[Choice],
    one: &'a Choice,
) -> Option<Ground<'a>>
    ensures { MatchOption result
        (earlier.entry.hints ≡ None → list_any
        (λ wanted. list_any
        (spec.none_left problem.now earlier.entry.conflicts.now conflict.now) (nodes_of wanted))
        (wants problem.now one.now.node one.now.version) ≡ false)
        (λ found. Contains conflict.now one.now
        → IsGround problem.now earlier.entry.conflicts.now conflict.now found) }
{
    let dependencies = problem.dependencies(&one.name, &one.version);
    let at = one.extra.as_ref();
    let (wanted, extra) = dependency_needing(problem, earlier, conflict, at, dependencies)?;
    Some(Ground::NoneLeft(Need::Dependency(one, wanted), wanted.name(), extra))
}

/// The same of the first of the choices that needs such a node.
fn exhausted_by_choice<'a>(
    problem: &'a Problem<'_>,
    earlier: Earlier<'_, '_, '_, '_>,
    conflict: &'a [Choice],
) -> Option<Ground<'a>>
    ensures { MatchOption result
        (earlier.entry.hints ≡ None → list_any
        (λ one. list_any
        (λ wanted. list_any
        (spec.none_left problem.now earlier.entry.conflicts.now conflict.now) (nodes_of wanted))
        (wants problem.now one.node one.version)) conflict.now ≡ false)
        (IsGround problem.now earlier.entry.conflicts.now conflict.now) }
{
    for place in 0..conflict.len() {
        if let Some(ground) = exhausted_behind(problem, earlier, conflict, &conflict[place]) {
            return Some(ground);
        }
    }
    None
}

/// The ground that one of the lines needs a node for which no release is left.
fn exhausted_by_line<'a>(
    problem: &'a Problem<'_>,
    earlier: Earlier<'_, '_, '_, '_>,
    conflict: &[Choice],
) -> Option<Ground<'a>>
    ensures { MatchOption result
        (earlier.entry.hints ≡ None → list_any
        (λ line. list_any
        (spec.none_left problem.now earlier.entry.conflicts.now conflict.now) (nodes_of line))
        problem.now.active ≡ false)
        (IsGround problem.now earlier.entry.conflicts.now conflict.now) }
{
    let lines = problem.active.as_slice();
    for place in 0..lines.len() {
        let line = &lines[place];
        if let Some(extra) = extra_at(problem, earlier, conflict, line) {
            return Some(Ground::NoneLeft(Need::Line(place), line.name(), extra));
        }
    }
    None
}

/// The ground that a line or a choice of the conflict needs a node, and that with each release at this
/// node the conflict contains an earlier one.
pub(crate) fn exhausted<'a>(
    problem: &'a Problem<'_>,
    earlier: Earlier<'_, '_, '_, '_>,
    conflict: &'a [Choice],
) -> Option<Ground<'a>>
    ensures { MatchOption result
        (earlier.entry.hints ≡ None
        → NoneLeft (rules_of problem.now) same_version earlier.entry.conflicts.now conflict.now → ⊥)
        (IsGround problem.now earlier.entry.conflicts.now conflict.now) }
{
    if let Some(ground) = exhausted_by_line(problem, earlier, conflict) {
        return Some(ground);
    }
    exhausted_by_choice(problem, earlier, conflict)
}
