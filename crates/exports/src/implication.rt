// Which conditions others say already.

ghost use Rattle.std.specs.Prelude.{◌≡◌};
ghost use Rattle.std.specs.List.{list_any};
ghost use Rattle.markers.specs.Environment.{place_of};
ghost use Rattle.exports.specs.Tied.Implication.{are_both, does_follow, has_no_other, has_release_of, is_from, is_plain, is_same_clause, is_same_marker_operator, is_same_operand, is_same_plain, is_up_to, opposite_of, says};

use crate::condition::Condition;
use markers::marker_relations::{MarkerOperator, Operand};
use pep440::{Clause, Operator, Version};
use pep508::Variable;

/// The operator that matches no version which this one matches with the same version; `None` where there is none.
pub(crate) fn opposite(operator: Operator) -> Option<Operator>
    ensures { result ≡ opposite_of operator }
{
    match operator {
        Operator::Compatible => None,
        Operator::Equal => Some(Operator::NotEqual),
        Operator::NotEqual => Some(Operator::Equal),
        Operator::EqualPrefix => Some(Operator::NotEqualPrefix),
        Operator::NotEqualPrefix => Some(Operator::EqualPrefix),
        Operator::AtMost => Some(Operator::Above),
        Operator::AtLeast => Some(Operator::Below),
        Operator::Below => Some(Operator::AtLeast),
        Operator::Above => Some(Operator::AtMost),
    }
}

fn place_of(variable: Variable) -> usize
    ensures { result ≡ place_of variable }
{
    variable as usize
}

/// Whether a version has no part but its epoch and its release.
fn is_plain(version: &Version) -> bool
    ensures { result ≡ is_plain version.now }
{
    !version.is_pre() && (!version.is_post() && version.local().is_empty())
}

fn has_release_of(one: &Version, other: &Version) -> bool
    ensures { result ≡ has_release_of one.now other.now }
{
    one.epoch() == other.epoch() && one.release() == other.release()
}

pub(crate) fn is_same_plain(one: &Version, other: &Version) -> bool
    ensures { result ≡ is_same_plain one.now other.now }
{
    is_plain(one) && (is_plain(other) && has_release_of(one, other))
}

/// Whether the clauses are the same in each part. Versions with a pre, post, dev or local part are not compared.
fn is_same_clause(clause: &Clause, wanted: &Clause) -> bool
    ensures { result ≡ is_same_clause clause.now wanted.now }
{
    clause.operator == wanted.operator && is_same_plain(&clause.version, &wanted.version)
}

fn is_from(bound: &Version, wanted: &Version) -> bool
    ensures { result ≡ is_from bound.now wanted.now }
{
    bound.cmp_public(wanted).is_ge()
}

fn is_up_to(bound: &Version, wanted: &Version) -> bool
    ensures { result ≡ is_up_to bound.now wanted.now }
{
    bound.cmp_public(wanted).is_le() && (wanted.is_pre() || !bound.is_pre())
}

/// Whether this operator is that of both clauses.
fn are_both(operator: Operator, clause: &Clause, wanted: &Clause) -> bool
    ensures { result ≡ are_both operator clause.now wanted.now }
{
    clause.operator == operator && wanted.operator == operator
}

/// Whether the first clause is known to match no version that the wanted one doesn't: a lower bound says each lesser
/// one, and an upper bound each greater one.
pub(crate) fn does_follow(clause: &Clause, wanted: &Clause) -> bool
    ensures { result ≡ does_follow clause.now wanted.now }
{
    (are_both(Operator::AtLeast, clause, wanted) && is_from(&clause.version, &wanted.version))
        || ((are_both(Operator::Below, clause, wanted)
            && is_up_to(&clause.version, &wanted.version))
            || is_same_clause(clause, wanted))
}

fn is_same_marker_operator(operator: MarkerOperator, wanted: MarkerOperator) -> bool
    ensures { result ≡ is_same_marker_operator operator wanted }
{
    match (operator, wanted) {
        (MarkerOperator::Compare(own), MarkerOperator::Compare(comparison)) => own == comparison,
        (MarkerOperator::In, MarkerOperator::In) => true,
        (MarkerOperator::NotIn, MarkerOperator::NotIn) => true,
        (MarkerOperator::Compare(_) | MarkerOperator::In | MarkerOperator::NotIn, _) => false,
    }
}

fn is_same_operand(operand: &Operand, wanted: &Operand) -> bool
    ensures { result ≡ is_same_operand operand.now wanted.now }
{
    match (operand, wanted) {
        (Operand::Variable(own), Operand::Variable(variable)) => {
            place_of(*own) == place_of(*variable)
        }
        (Operand::Quoted(text), Operand::Quoted(other)) => text.as_str() == other.as_str(),
        (Operand::Variable(_), Operand::Quoted(_)) => false,
        (Operand::Quoted(_), Operand::Variable(_)) => false,
    }
}

/// Whether no variable but this one stands there.
fn has_no_other(own: Variable, operand: &Operand) -> bool
    ensures { result ≡ has_no_other own operand.now }
{
    match operand {
        Operand::Variable(variable) => place_of(own) == place_of(*variable),
        Operand::Quoted(_) => true,
    }
}

/// Whether one condition is known to say another, which its own environment meets.
fn says(condition: &Condition, wanted: &Condition) -> bool
    ensures { result ≡ says condition.now wanted.now }
{
    match (condition, wanted) {
        (Condition::Same(own), Condition::Same(variable)) => {
            place_of(*own) == place_of(*variable)
        }
        (Condition::Same(own), Condition::Matches(variable, _)) => {
            place_of(*own) == place_of(*variable)
        }
        (Condition::Matches(own, clause), Condition::Matches(variable, wanted)) => {
            place_of(*own) == place_of(*variable) && does_follow(clause, wanted)
        }
        (Condition::Matches(_, _), Condition::Same(_)) => false,
        (Condition::Same(own), Condition::Holds(left, _, right)) => {
            has_no_other(*own, left) && has_no_other(*own, right)
        }
        (Condition::Holds(left, operator, right), Condition::Holds(first, wanted, second)) => {
            is_same_marker_operator(*operator, *wanted)
                && (is_same_operand(left, first) && is_same_operand(right, second))
        }
        (Condition::Matches(_, _), Condition::Holds(_, _, _)) => false,
        (Condition::Holds(_, _, _), Condition::Same(_)) => false,
        (Condition::Holds(_, _, _), Condition::Matches(_, _)) => false,
    }
}

/// Whether some condition is known to say another, which its own environment meets.
pub(crate) fn is_said(conditions: &[Condition], wanted: &Condition) -> bool
    ensures { result ≡ list_any (λ condition. says condition wanted.now) conditions.now }
{
    conditions.iter().any(|condition| says(condition, wanted))
}
