// The conditions under which all answers stay the same.

ghost use Rattle.std.specs.Prelude.{◌≡◌, IfOk, true};
ghost use Rattle.std.specs.List.{AllByRecursion};
ghost use Rattle.std.specs.List.Sorted.{IsPermutation};
ghost use Rattle.markers.specs.Environment.{Texts};
ghost use Rattle.exports.specs.Alike.{AnswersAlike};
ghost use Rattle.exports.specs.Conditions.{IsTellable, MeetsAll};
ghost use Rattle.exports.specs.Laws.{HasSameBest, HasSameLock};
ghost use Rattle.exports.specs.Questions.{AnswerEachAlike};
ghost use Rattle.exports.specs.Tied.Answers.{are_matched_alike, is_line_alike};
ghost use Rattle.exports.specs.Tied.Kept.{AreOwn, Keeps};
ghost use Rattle.exports.specs.Tied.Reach.{AreAsked};

use crate::answers::marker_of;
use crate::condition::Condition;
use crate::kept_conditions::{keep, keep_marker, keep_matching};
use crate::reach::{Asked, asked_by};
use lists::Seq;
use markers::marker_relations::{Operand, the_relations_decide};
use pep440::Operator;
use pep508::{Environment, Line, ReqFile, Requirement};
use snapshot::Snapshot;
use std::alloc::{AllocError, Global};

/// Asks for the same answers of lines.
fn keep_lines(
    alloc: Global,
    environment: &Environment,
    conditions: &mut Seq<Condition>,
    lines: &[Line],
) -> Result<(), AllocError>
    ensures { IfOk result (λ _. Keeps environment.now conditions.old conditions.new
        (λ other. AllByRecursion (λ line. is_line_alike environment.now other line ≡ true)
        lines.now)) }
{
    for line in lines {
        keep_marker(alloc, environment, conditions, marker_of(line))?;
    }
    Ok(())
}

/// Asks for the same answers of the releases that requirements match.
fn keep_asked(
    alloc: Global,
    environment: &Environment,
    conditions: &mut Seq<Condition>,
    snapshot: &Snapshot,
    asked: &[Requirement],
) -> Result<(), AllocError>
    ensures { IfOk result (λ _. Keeps environment.now conditions.old conditions.new
        (λ other. AllByRecursion
        (λ wanted. are_matched_alike environment.now other snapshot.now wanted ≡ true) asked.now)) }
{
    for wanted in asked {
        keep_matching(
            alloc,
            environment,
            conditions,
            wanted,
            snapshot.releases(wanted.name()),
        )?;
    }
    Ok(())
}

/// Conditions none of which another one says: a condition is left out where one behind it says it.
fn least(
    alloc: Global,
    environment: &Environment,
    conditions: Seq<Condition>,
) -> Result<Seq<Condition>, AllocError>
    requires { AreOwn environment.now conditions }
    ensures own { IfOk result (λ least. AreOwn environment.now least) }
    ensures said { IfOk result (λ least. (other : Texts)
        → MeetsAll environment.now other least → MeetsAll environment.now other conditions) }
{
    let mut left = conditions.into_vec();
    let mut least = Seq::new(alloc);
    while let Some(condition) = left.pop() {
        keep(environment, &mut least, condition)?;
    }
    Ok(least)
}

/// The place of the variable that a condition is about, in the order of their names.
fn place_of(condition: &Condition) -> usize {
    match condition {
        Condition::Same(variable) | Condition::Matches(variable, _) => *variable as usize,
        Condition::Holds(Operand::Variable(variable), _, _) => *variable as usize,
        Condition::Holds(Operand::Quoted(_), _, Operand::Variable(variable)) => *variable as usize,
        Condition::Holds(Operand::Quoted(_), _, Operand::Quoted(_)) => usize::MAX,
    }
}

/// What a condition asks of its variable, in the order in which the conditions on one are told.
#[derive(Debug, Clone, Copy, PartialEq, Eq, PartialOrd, Ord)]
enum Rank {
    WholeText,
    LowerBound,
    UpperBound,
    OtherClause,
    Relation,
}

fn rank_of(condition: &Condition) -> Rank {
    match condition {
        Condition::Same(_) => Rank::WholeText,
        Condition::Matches(_, clause) => match clause.operator {
            Operator::AtLeast | Operator::Above => Rank::LowerBound,
            Operator::AtMost | Operator::Below => Rank::UpperBound,
            Operator::Compatible
            | Operator::Equal
            | Operator::NotEqual
            | Operator::EqualPrefix
            | Operator::NotEqualPrefix => Rank::OtherClause,
        },
        Condition::Holds(_, _, _) => Rank::Relation,
    }
}

/// The conditions in the order of their variables' names, and of one variable in that of their ranks.
fn in_order(conditions: Seq<Condition>) -> Result<Seq<Condition>, AllocError>
    ensures { IfOk result (λ ordered. IsPermutation conditions ordered) }
{
    let mut items = conditions.into_vec();
    items.sort_by_key(|condition| (place_of(condition), rank_of(condition)))?;
    Ok(Seq::from_vec(items))
}

/// The conditions under which another environment answers each question alike that the lines can ask over the index, which this one
/// meets itself. Each release is asked that the lines can lead to: whose version matches what a line asks for, or a dependency of a
/// release that is asked, also one that no lock has.
pub(crate) fn conditions_over(
    alloc: Global,
    lines: &[Line],
    snapshot: &Snapshot,
    asked: &Asked,
    environment: &Environment,
) -> Result<Seq<Condition>, AllocError>
    requires { AreAsked lines.now snapshot.now asked.now }
    ensures own { IfOk result (λ conditions. MeetsAll environment.now environment.now conditions) }
    ensures tellable { IfOk result (λ conditions. AllByRecursion IsTellable conditions) }
    ensures answers { IfOk result (λ conditions. (other : Texts)
        → MeetsAll environment.now other conditions
        → AnswerEachAlike lines.now snapshot.now environment.now other) }
{
    let mut all = Seq::new(alloc);
    keep_lines(alloc, environment, &mut all, lines)?;
    keep_asked(alloc, environment, &mut all, snapshot, asked.requirements())?;
    let least = least(alloc, environment, all)?;
    let conditions = in_order(least)?;
    Ok(conditions)
}

/// The conditions under which another environment answers each question alike that the lines can ask over the index, which this one
/// meets itself; so the best solution is the same there, and its lock but for the environment, whatever versions are kept.
pub fn conditions_of(
    alloc: Global,
    lines: &ReqFile,
    snapshot: &Snapshot,
    environment: &Environment,
) -> Result<Seq<Condition>, AllocError>
    ensures own { IfOk result (λ conditions. MeetsAll environment.now environment.now conditions) }
    ensures tellable { IfOk result (λ conditions. AllByRecursion IsTellable conditions) }
    ensures answers { IfOk result (λ conditions. (other : Texts)
        → MeetsAll environment.now other conditions
        → AnswerEachAlike lines.now snapshot.now environment.now other) }
    ensures alike { IfOk result (λ conditions. (other : Texts)
        → MeetsAll environment.now other conditions
        → AnswersAlike lines.now snapshot.now environment.now other) }
    ensures best { IfOk result (λ conditions. (other : Texts)
        → MeetsAll environment.now other conditions
        → HasSameBest lines.now snapshot.now environment.now other) }
    ensures lock { IfOk result (λ conditions. (other : Texts)
        → MeetsAll environment.now other conditions
        → HasSameLock lines.now snapshot.now environment.now other) }
{
    the_relations_decide();
    let lines = lines.lines();
    let asked = asked_by(alloc, lines, snapshot)?;
    let conditions = conditions_over(alloc, lines, snapshot, &asked, environment)?;
    Ok(conditions)
}
