// Which clauses a sign and what stands behind it read as.

ghost use Rattle.std.specs.Prelude.{◌≡◌, IfOk, is_some};
ghost use Rattle.markers.specs.Comparisons.{clauses_read, has_comma};
ghost use Rattle.markers.specs.Tied.Known.{known_clauses};

use markers::marker_relations::{MarkerOperator, Operand};
use pep440::{Fault, SpecifierSet};
use pep508::Comparison;
use std::alloc::{AllocError, Global};

fn has_comma(text: &str) -> bool
    ensures { result ≡ has_comma text.now }
{
    text.as_bytes().iter().any(|byte| *byte == b',')
}

/// The clauses that a comparison and the text behind it read as, or none.
#[tactic(auto, unfolding(markers::specs::Comparisons::clauses_read))]
fn read_clauses(
    alloc: Global,
    comparison: Comparison,
    text: &str,
) -> Result<Option<SpecifierSet>, AllocError>
    ensures { IfOk result (λ found. found ≡ clauses_read comparison text.now) }
{
    if has_comma(text) {
        return Ok(None);
    }
    let mut clause = String::from_str(alloc, comparison.sign())?;
    clause.push_str(text)?;
    match SpecifierSet::parse(alloc, clause.as_str()) {
        Ok(clauses) => Ok(Some(clauses)),
        Err(Fault::OutOfMemory) => Err(AllocError),
        Err(_) => Ok(None),
    }
}

/// Whether a marker would compare versions where this text stands behind the comparison.
pub(crate) fn reads_as_clause(
    alloc: Global,
    comparison: Comparison,
    text: &str,
) -> Result<bool, AllocError>
    ensures { IfOk result (λ reads. reads ≡ is_some (clauses_read comparison text.now)) }
{
    let found = read_clauses(alloc, comparison, text)?;
    Ok(found.is_some())
}

/// The clauses that an operand is known to read as behind an operator.
pub(crate) fn known_clauses(
    alloc: Global,
    operator: MarkerOperator,
    operand: &Operand,
) -> Result<Option<SpecifierSet>, AllocError>
    ensures { IfOk result (λ found. found ≡ known_clauses operator operand.now) }
{
    match (operator, operand) {
        (MarkerOperator::Compare(comparison), Operand::Quoted(text)) => {
            read_clauses(alloc, comparison, text.as_str())
        }
        _ => Ok(None),
    }
}
