// What settles a relation of a marker: itself, or its opposite.

ghost use Rattle.std.specs.Prelude.{◌≡◌, IfOk, IfSome, IsTrue, Some, false, true};
ghost use Rattle.std.specs.List.{list_all};
ghost use Rattle.std.specs.Option.{option_copied};
ghost use Rattle.markers.specs.Environment.{is_unescaped};
ghost use Rattle.markers.specs.MarkerAtoms.{relation_holds};
ghost use Rattle.markers.specs.Tied.Known.{known_clauses};
ghost use Rattle.exports.specs.Conditions.{can_stand};
ghost use Rattle.exports.specs.Tied.Kept.{AreApart, CanStand, IsTurned, SettlesRelation};
ghost use Rattle.exports.specs.Tied.Opposites.{is_fixed, opposite_marker_operator};
ghost use Rattle.exports.specs.declared.condition.Condition.TheVariants.{Holds};

use crate::condition::Condition;
use crate::kept_conditions::is_versioned;
use crate::opposites::{are_opposed, is_fixed, opposite_marker_operator};
use crate::sign_clauses::{known_clauses, reads_as_clause};
use markers::marker_relations::{CachedRelation, MarkerOperator, Operand};
use pep440::{Fault, SpecifierSet, Version};
use pep508::Environment;
use std::alloc::{AllocError, Global};

/// Whether every byte is a printable ASCII character that stands for itself between double quotes.
fn is_unescaped(text: &str) -> bool
    ensures { result ≡ list_all is_unescaped text.now }
{
    text.as_bytes().iter().all(|byte| *byte >= b' '
        && *byte <= b'~'
        && *byte != b'"'
        && *byte != b'\\')
}

/// Whether an operand can stand in a marker: a variable, or a text that stands for itself between double quotes.
fn can_stand(operand: &Operand) -> bool
    ensures { result ≡ can_stand operand.now }
{
    match operand {
        Operand::Variable(_) => true,
        Operand::Quoted(text) => is_unescaped(text.as_str()),
    }
}

/// Whether both operands of a relation can.
fn can_be_told(relation: &CachedRelation) -> bool
    ensures { IsTrue result → CanStand relation.now }
{
    can_stand(relation.left()) && can_stand(relation.right())
}

/// Whether a relation is told with its answer: between a variable and a text, unless it is a bound of a version of Python.
fn is_of_one_variable(relation: &CachedRelation) -> bool {
    match (relation.left(), relation.right()) {
        (Operand::Variable(variable), Operand::Quoted(_)) => {
            !is_versioned(*variable) || relation.quoted_clauses().is_none()
        }
        (Operand::Quoted(_), Operand::Variable(_)) => true,
        _ => false,
    }
}

fn reads_as_version(alloc: Global, text: &str) -> Result<bool, AllocError> {
    match Version::parse(alloc, text) {
        Ok(_) => Ok(true),
        Err(Fault::OutOfMemory) => Err(AllocError),
        Err(_) => Ok(false),
    }
}

/// Whether a relation may be told as it is: not where a text that is no version stands before one that reads as a clause, since
/// installers answer differently there.
fn may_stand(
    alloc: Global,
    environment: &Environment,
    relation: &CachedRelation,
) -> Result<bool, AllocError> {
    match (relation.left(), relation.operator(), relation.right()) {
        (Operand::Variable(variable), _, _) => {
            Ok(relation.quoted_clauses().is_none() || environment.version(*variable).is_some())
        }
        (Operand::Quoted(text), MarkerOperator::Compare(comparison), Operand::Variable(variable)) =>
            {
                let reads = reads_as_clause(alloc, comparison, environment.text(*variable))?;
                let is_version = reads_as_version(alloc, text.as_str())?;
                Ok(!reads || is_version)
            }
        _ => Ok(true),
    }
}

/// The condition that the operands of a relation are so related.
fn holding(relation: &CachedRelation, operator: MarkerOperator) -> Result<Condition, AllocError>
    ensures { IfOk result (λ condition. condition
        ≡ Holds relation.now.left operator relation.now.right) }
{
    let left = relation.left().clone()?;
    let right = relation.right().clone()?;
    Ok(Condition::Holds(left, operator, right))
}

/// Whether the environment's version of an operand matches the second clauses, of which one is opposed to one of the first.
fn are_apart(
    environment: &Environment,
    left: &Operand,
    clauses: &SpecifierSet,
    opposed: &SpecifierSet,
) -> bool
    ensures { IsTrue result → AreApart environment.now left.now clauses.now opposed.now }
{
    let Operand::Variable(variable) = left else {
        return false;
    };
    let Some(version) = environment.version(*variable) else {
        return false;
    };
    opposed.matches(version) && are_opposed(clauses.clauses(), opposed.clauses())
}

/// Whether the opposite of a relation that doesn't hold may be told for it, given the clauses behind the opposite operator: where both
/// operators read clauses, or neither does.
fn is_turned(
    environment: &Environment,
    relation: &CachedRelation,
    operator: MarkerOperator,
    opposed: Option<&SpecifierSet>,
) -> bool
    requires fails { relation_holds relation.now environment.now ≡ false }
    requires opposite { opposite_marker_operator relation.now.operator ≡ Some operator }
    requires fixed { is_fixed operator relation.now.right ≡ true }
    requires reads { option_copied opposed ≡ known_clauses operator relation.now.right }
    ensures { IsTrue result → IsTurned environment.now relation.now operator }
{
    match (relation.quoted_clauses(), opposed) {
        (None, None) => true,
        (Some(clauses), Some(opposed)) => {
            are_apart(environment, relation.left(), clauses, opposed)
        }
        _ => false,
    }
}

/// Whether the opposite of a relation that doesn't hold may be told for it. Of a comparison with a variable on its right it may not,
/// since that text may read otherwise elsewhere.
fn may_turn(
    alloc: Global,
    environment: &Environment,
    relation: &CachedRelation,
    operator: MarkerOperator,
) -> Result<bool, AllocError>
    requires fails { relation_holds relation.now environment.now ≡ false }
    requires opposite { opposite_marker_operator relation.now.operator ≡ Some operator }
    ensures { IfOk result (λ may. IsTrue may → IsTurned environment.now relation.now operator) }
{
    if !is_fixed(operator, relation.right()) {
        return Ok(false);
    }
    let opposed = known_clauses(alloc, operator, relation.right())?;
    Ok(is_turned(environment, relation, operator, opposed.as_ref()))
}

/// The condition that tells a relation that holds: the relation itself, if it may be told as it is.
fn told_as_it_is(
    alloc: Global,
    environment: &Environment,
    relation: &CachedRelation,
) -> Result<Option<Condition>, AllocError>
    requires stands { CanStand relation.now }
    requires holds { relation_holds relation.now environment.now ≡ true }
    ensures { IfOk result (λ found. IfSome found
        (SettlesRelation environment.now relation.now)) }
{
    if !may_stand(alloc, environment, relation)? {
        return Ok(None);
    }
    let condition = holding(relation, relation.operator())?;
    Ok(Some(condition))
}

/// The condition that tells a relation that doesn't hold: its opposite, if it may be told by that.
fn told_turned(
    alloc: Global,
    environment: &Environment,
    relation: &CachedRelation,
) -> Result<Option<Condition>, AllocError>
    requires stands { CanStand relation.now }
    requires fails { relation_holds relation.now environment.now ≡ false }
    ensures { IfOk result (λ found. IfSome found
        (SettlesRelation environment.now relation.now)) }
{
    let Some(operator) = opposite_marker_operator(relation.operator()) else {
        return Ok(None);
    };
    if !may_turn(alloc, environment, relation, operator)? {
        return Ok(None);
    }
    let condition = holding(relation, operator)?;
    Ok(Some(condition))
}

/// The condition that tells the answer of a relation between a variable and a text: the relation itself where it holds, else its
/// opposite. `None` where neither may be told.
pub(crate) fn settling_relation(
    alloc: Global,
    environment: &Environment,
    relation: &CachedRelation,
) -> Result<Option<Condition>, AllocError>
    ensures { IfOk result (λ found. IfSome found
        (SettlesRelation environment.now relation.now)) }
{
    if !is_of_one_variable(relation) {
        return Ok(None);
    }
    if !can_be_told(relation) {
        return Ok(None);
    }
    if relation.holds(environment) {
        let told = told_as_it_is(alloc, environment, relation)?;
        return Ok(told);
    }
    let told = told_turned(alloc, environment, relation)?;
    Ok(told)
}
