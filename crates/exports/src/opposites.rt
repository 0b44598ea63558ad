// Which operators and clauses are opposite.

ghost use Rattle.std.specs.Prelude.{◌≡◌};
ghost use Rattle.exports.specs.Tied.Opposites.{are_opposed, has_operator, has_opposed, is_fixed, is_opposed, opposite_marker_operator};

use crate::implication::{is_same_plain, opposite};
use markers::marker_relations::{MarkerOperator, Operand};
use pep440::{Clause, Operator};
use pep508::Comparison;

/// The operator of markers that holds of texts exactly where this one doesn't; `None` where there is none.
pub(crate) fn opposite_marker_operator(operator: MarkerOperator) -> Option<MarkerOperator>
    ensures { result ≡ opposite_marker_operator operator }
{
    match operator {
        MarkerOperator::Compare(Comparison::Compatible) => None,
        MarkerOperator::Compare(Comparison::Equal) => Some(MarkerOperator::Compare(
            Comparison::NotEqual,
        )),
        MarkerOperator::Compare(Comparison::NotEqual) => Some(MarkerOperator::Compare(
            Comparison::Equal,
        )),
        MarkerOperator::Compare(Comparison::AtMost) => Some(MarkerOperator::Compare(
            Comparison::Above,
        )),
        MarkerOperator::Compare(Comparison::AtLeast) => Some(MarkerOperator::Compare(
            Comparison::Below,
        )),
        MarkerOperator::Compare(Comparison::Below) => Some(MarkerOperator::Compare(
            Comparison::AtLeast,
        )),
        MarkerOperator::Compare(Comparison::Above) => Some(MarkerOperator::Compare(
            Comparison::AtMost,
        )),
        MarkerOperator::In => Some(MarkerOperator::NotIn),
        MarkerOperator::NotIn => Some(MarkerOperator::In),
    }
}

/// Whether what stands right of an operator reads alike in every environment: a comparison reads clauses there, and `in` none.
pub(crate) fn is_fixed(operator: MarkerOperator, right: &Operand) -> bool
    ensures { result ≡ is_fixed operator right.now }
{
    match (operator, right) {
        (MarkerOperator::Compare(_), Operand::Variable(_)) => false,
        (MarkerOperator::Compare(_), Operand::Quoted(_)) => true,
        (MarkerOperator::In, _) => true,
        (MarkerOperator::NotIn, _) => true,
    }
}

/// Whether there is an operator, and it is this one.
fn has_operator(operator: Option<Operator>, wanted: Operator) -> bool
    ensures { result ≡ has_operator operator wanted }
{
    match operator {
        Some(operator) => operator == wanted,
        None => false,
    }
}

/// Whether the operators are opposite, and the versions the same. Versions with a pre, post, dev or local part are not compared.
fn is_opposed(clause: &Clause, other: &Clause) -> bool
    ensures { result ≡ is_opposed clause.now other.now }
{
    has_operator(opposite(clause.operator), other.operator)
        && is_same_plain(&clause.version, &other.version)
}

fn has_opposed(clauses: &[Clause], other: &Clause) -> bool
    ensures { result ≡ has_opposed clauses.now other.now }
{
    clauses.iter().any(|clause| is_opposed(clause, other))
}

/// Whether a version that matches all the second clauses is known not to match all the first ones: one of them is opposed to one
/// of those.
pub(crate) fn are_opposed(clauses: &[Clause], opposed: &[Clause]) -> bool
    ensures { result ≡ are_opposed clauses.now opposed.now }
{
    opposed.iter().any(|other| has_opposed(clauses, other))
}
