// Requirements of releases as they are told: in normal form, without their markers.

use pep508::{Clause, Name, Requirement};
use std::alloc::AllocError;

/// The name, the extras in brackets, and the clauses, without a space.
pub fn add_requirement(text: &mut String, wanted: &Requirement) -> Result<(), AllocError> {
    text.push_str(wanted.name().normal())?;
    add_extras(text, wanted.extras())?;
    add_specifiers(text, wanted)
}

/// The clauses, with commas between them.
pub fn add_specifiers(text: &mut String, wanted: &Requirement) -> Result<(), AllocError> {
    let mut mark = "";
    for clause in wanted.specifiers().clauses() {
        text.push_str(mark)?;
        add_clause(text, clause)?;
        mark = ",";
    }
    Ok(())
}

fn add_extras(text: &mut String, extras: &[Name]) -> Result<(), AllocError> {
    if extras.is_empty() {
        return Ok(());
    }
    let mut mark = "[";
    for extra in extras {
        text.push_str(mark)?;
        text.push_str(extra.normal())?;
        mark = ",";
    }
    text.push_str("]")
}

/// The operator and the version of a clause, without a space.
pub fn add_clause(text: &mut String, clause: &Clause) -> Result<(), AllocError> {
    let (sign, star) = (clause.operator.sign(), clause.operator.star());
    let version = &clause.version;
    write!(text, "{sign}{version}{star}")
}
