// The version that a requirement pins.

ghost use Rattle.std.specs.Prelude.{◌≡◌};
ghost use Rattle.std.specs.Option.{option_copied};
ghost use Rattle.inputs.specs.Pins as spec;

use pep440::{Operator, Version};
use pep508::{Line, Requirement};

/// The version that a requirement pins, if it pins one.
pub(crate) fn pinned<'r>(requirement: &'r Requirement) -> Option<&'r Version>
    ensures { option_copied result ≡ spec.pinned requirement.now }
{
    match requirement.specifiers().clauses() {
        [clause] if clause.operator == Operator::Equal => Some(&clause.version),
        _ => None,
    }
}

/// Whether a line asks for something and pins no version.
fn is_no_pin(line: &Line) -> bool
    ensures { result ≡ spec.is_no_pin line.now }
{
    match line.requirement() {
        Some(requirement) => pinned(requirement).is_none(),
        None => false,
    }
}

/// The number, from 1, of the first line that asks for something and pins no version.
pub(crate) fn first_no_pin(lines: &[Line]) -> Option<usize>
    ensures { result ≡ spec.first_no_pin lines.now }
{
    for (place, line) in lines.iter().enumerate() {
        if is_no_pin(line) {
            return Some(place + 1);
        }
    }
    None
}
