// Conditions as a marker.

ghost use Rattle.std.specs.Prelude.{◌≡◌, ◌++◌, [], ℕ, IfOk, List, is_some, map, string_bytes};
ghost use Rattle.std.specs.List.{AllByRecursion};
ghost use Rattle.markers.specs.Comparisons.{clauses_read};
ghost use Rattle.markers.specs.Variables.{variable_name};
ghost use Rattle.markers.specs.declared.comparison.Comparison.TheVariants as comparisons;
ghost use Rattle.pep440.specs.SetGrammar.{star};
ghost use Rattle.exports.specs.Conditions.{IsMarkerOf, IsTellable};
ghost use Rattle.exports.specs.Tied.Told.{conditions_told, has, operand_told, operator_told, related_told, relation_told, same_told, told, with_all, with_more};

use crate::condition::Condition;
use crate::sign_clauses::reads_as_clause;
use markers::marker_laws::a_text_reads_as_the_marker_that_it_spells;
use markers::marker_relations::{MarkerOperator, Operand};
use pep440::Operator;
use pep508::{Comparison, Environment, Variable};
use std::alloc::{AllocError, Global};

/// What stands behind the version of a clause.
fn star_of(operator: Operator) -> &'static str
    ensures { result.now ≡ star operator }
{
    match operator {
        Operator::EqualPrefix | Operator::NotEqualPrefix => ".*",
        _ => "",
    }
}

/// Puts `and` behind what stands there, if something does.
fn push_and(text: &mut String) -> Result<(), AllocError>
    ensures { IfOk result (λ _. (next : List ℕ)
        → string_bytes text.new ++ next ≡ with_more (string_bytes text.old) next) }
{
    if text.is_empty() {
        return Ok(());
    }
    text.push_str(" and ")?;
    Ok(())
}

/// Puts a variable, an operator and a text in quotes behind what stands there.
fn push_related(
    text: &mut String,
    variable: Variable,
    operator: &str,
    value: &str,
) -> Result<(), AllocError>
    ensures { IfOk result (λ _. string_bytes text.new
        ≡ with_more (string_bytes text.old)
        (related_told (variable_name variable) operator.now value.now)) }
{
    push_and(text)?;
    text.push_str(variable.name())?;
    text.push_str(" ")?;
    text.push_str(operator)?;
    text.push_str(" \"")?;
    text.push_str(value)?;
    text.push_str("\"")?;
    Ok(())
}

/// Puts behind what stands there that a variable has a text in its own.
fn push_has(text: &mut String, variable: Variable, value: &str) -> Result<(), AllocError>
    ensures { IfOk result (λ _. string_bytes text.new
        ≡ with_more (string_bytes text.old) (relation_told (has variable value.now))) }
{
    push_and(text)?;
    text.push_str("\"")?;
    text.push_str(value)?;
    text.push_str("\" in ")?;
    text.push_str(variable.name())?;
    Ok(())
}

/// Puts behind what stands there that a variable has exactly this text.
fn push_same(
    alloc: Global,
    text: &mut String,
    variable: Variable,
    value: &str,
) -> Result<(), AllocError>
    ensures { IfOk result (λ _. string_bytes text.new ≡ with_all (string_bytes text.old)
        (map relation_told (same_told variable value.now
        (is_some (clauses_read comparisons.Equal value.now))))) }
{
    if !reads_as_clause(alloc, Comparison::Equal, value)? {
        push_related(text, variable, "==", value)?;
        return Ok(());
    }
    push_related(text, variable, "in", value)?;
    push_has(text, variable, value)?;
    Ok(())
}

/// How an operator of markers is written.
fn word_of(operator: MarkerOperator) -> &'static str
    ensures { result.now ≡ operator_told operator }
{
    match operator {
        MarkerOperator::Compare(comparison) => comparison.sign(),
        MarkerOperator::In => "in",
        MarkerOperator::NotIn => "not in",
    }
}

/// Puts an operand behind what stands there: a variable by its name, and a text in quotes.
fn push_operand(text: &mut String, operand: &Operand) -> Result<(), AllocError>
    ensures { IfOk result (λ _. string_bytes text.new
        ≡ string_bytes text.old ++ operand_told operand.now) }
{
    match operand {
        Operand::Variable(variable) => {
            text.push_str(variable.name())?;
            Ok(())
        }
        Operand::Quoted(value) => {
            text.push_str("\"")?;
            text.push_str(value.as_str())?;
            text.push_str("\"")?;
            Ok(())
        }
    }
}

/// Puts a relation behind what stands there.
fn push_relation(
    text: &mut String,
    left: &Operand,
    operator: MarkerOperator,
    right: &Operand,
) -> Result<(), AllocError>
    ensures { IfOk result (λ _. string_bytes text.new ≡ with_more (string_bytes text.old)
        (relation_told (record { left = left.now; operator = operator; right = right.now }))) }
{
    push_and(text)?;
    push_operand(text, left)?;
    text.push_str(" ")?;
    text.push_str(word_of(operator))?;
    text.push_str(" ")?;
    push_operand(text, right)?;
    Ok(())
}

/// Puts a condition behind those that stand there.
fn push_condition(
    alloc: Global,
    text: &mut String,
    condition: &Condition,
    environment: &Environment,
) -> Result<(), AllocError>
    ensures { IfOk result (λ _. string_bytes text.new ≡ with_all (string_bytes text.old)
        (map relation_told (told environment.now condition.now))) }
{
    match condition {
        Condition::Same(variable) => {
            push_same(alloc, text, *variable, environment.text(*variable))?;
            Ok(())
        }
        Condition::Matches(variable, clause) => {
            let version = &clause.version;
            let end = star_of(clause.operator);
            let value = format!(in alloc; "{version}{end}")?;
            let sign = Comparison::of(clause.operator).sign();
            push_related(text, *variable, sign, value.as_str())?;
            Ok(())
        }
        Condition::Holds(left, operator, right) => {
            push_relation(text, left, *operator, right)?;
            Ok(())
        }
    }
}

/// The marker that holds in exactly the environments that meet all conditions, joined by `and`; the empty text where there is
/// no condition. That a variable has the same text is told by `==`, unless versions would be compared.
pub fn marker_text_of(
    alloc: Global,
    conditions: &[Condition],
    environment: &Environment,
) -> Result<String, AllocError>
    requires { AllByRecursion IsTellable conditions.now }
    ensures told { IfOk result (λ text. string_bytes text
        ≡ conditions_told environment.now conditions.now) }
    ensures none { IfOk result (λ text. conditions.now ≡ [] → string_bytes text ≡ []) }
    ensures some { IfOk result (λ text. (conditions.now ≡ [] → ⊥)
        → IsMarkerOf environment.now conditions.now (string_bytes text)) }
{
    a_text_reads_as_the_marker_that_it_spells();
    environment.recall_invariant();
    let mut text = String::new(alloc);
    for condition in conditions {
        push_condition(alloc, &mut text, condition, environment)?;
    }
    Ok(text)
}
