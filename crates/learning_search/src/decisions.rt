// Lists of decisions that are read as sets.

ghost use Rattle.std.specs.Prelude.{◌≡◌, ◌∷◌, [], IsTrue, IsFalse, IfOk};
ghost use Rattle.std.specs.List.{Contains};
ghost use Rattle.learning_search.specs.Tied.Gathering.{Gathers};

use search::Decision;
use std::alloc::AllocError;

/// Whether two decisions are the same.
pub fn is_same(one: Decision, other: Decision) -> bool
    ensures same { IsTrue result → one ≡ other }
    ensures differ { IsFalse result → one ≡ other → ⊥ }
{
    one.node == other.node && one.version == other.version
}

/// Whether a decision is one of these.
pub fn has(decisions: &[Decision], decision: Decision) -> bool
    ensures there { IsTrue result → Contains decisions.now decision }
    ensures absent { IsFalse result → Contains decisions.now decision → ⊥ }
{
    for other in decisions {
        if is_same(*other, decision) {
            return true;
        }
    }
    false
}

/// Appends a decision, unless it is there.
pub fn insert(decisions: &mut Vec<Decision>, decision: Decision) -> Result<(), AllocError>
    ensures { IfOk result
        (λ _. Gathers decisions.old.items decisions.new.items (decision ∷ []) []) }
{
    if !has(decisions.as_slice(), decision) {
        decisions.push(decision)?;
    }
    Ok(())
}

/// Appends a decision of a conflict, unless it is there or is the one that is left out.
fn insert_unless(
    decisions: &mut Vec<Decision>,
    decision: Decision,
    left_out: Decision,
) -> Result<(), AllocError>
    ensures { IfOk result
        (λ _. Gathers decisions.old.items decisions.new.items (decision ∷ []) (left_out ∷ [])) }
{
    if is_same(decision, left_out) {
        return Ok(());
    }
    insert(decisions, decision)?;
    Ok(())
}

/// Appends the decisions of a conflict that aren't there, all but the one that is left out.
pub fn insert_all(
    decisions: &mut Vec<Decision>,
    conflict: &[Decision],
    left_out: Decision,
) -> Result<(), AllocError>
    ensures { IfOk result
        (λ _. Gathers decisions.old.items decisions.new.items conflict.now (left_out ∷ [])) }
{
    for decision in conflict {
        insert_unless(decisions, *decision, left_out)?;
    }
    Ok(())
}
