// What a lock may ask of an environment.

use markers::marker_relations::{MarkerOperator, Operand};
use pep440::Clause;
use pep508::Variable;

/// What a lock asks of another environment than its own.
#[derive(Drop)]
pub enum Condition {
    /// The variable has the same text there.
    Same(Variable),
    /// The text of the variable, one of the two whose texts are versions, reads as one that the clause matches.
    Matches(Variable, Clause),
    /// The relation between these operands holds there.
    Holds(Operand, MarkerOperator, Operand),
}
