// Which targets may not stand in one lock.

ghost use Rattle.std.specs.Prelude.{IfNone, IfOk, IfSome, IsFalse, IsTrue};
ghost use Rattle.std.specs.List.{AllByRecursion, Contains};
ghost use Rattle.exports.specs.Joint.{Clash, Fit};
ghost use Rattle.exports.specs.Tied.Reach.{AreAsked};

use crate::answers::do_answer_alike;
use crate::reach::Asked;
use changes::are_same;
use pep508::Line;
use snapshot::Snapshot;
use states::Target;
use std::alloc::{AllocError, Global};

/// Whether two targets may stand in one lock: they have the same entries, or some question that counts has two answers.
fn do_fit(
    alloc: Global,
    lines: &[Line],
    snapshot: &Snapshot,
    asked: &Asked,
    one: &Target,
    other: &Target,
) -> Result<bool, AllocError>
    requires { AreAsked lines.now snapshot.now asked.now }
    ensures fit { IfOk result (λ fit. IsTrue fit → Fit lines.now snapshot.now one.now other.now) }
    ensures clash { IfOk result (λ fit. IsFalse fit
        → Clash lines.now snapshot.now one.now other.now) }
{
    if are_same(one.lock.entries(), other.lock.entries()) {
        return Ok(true);
    }
    let one = &one.environment;
    let alike = do_answer_alike(alloc, lines, snapshot, asked, one, &other.environment)?;
    Ok(!alike)
}

/// The first target that doesn't fit with this one.
fn first_unfit<'t>(
    alloc: Global,
    lines: &[Line],
    snapshot: &Snapshot,
    asked: &Asked,
    one: &Target,
    targets: &'t [Target],
) -> Result<Option<&'t Target>, AllocError>
    requires { AreAsked lines.now snapshot.now asked.now }
    ensures all { IfOk result (λ found. IfNone found
        (AllByRecursion (Fit lines.now snapshot.now one.now) targets.now)) }
    ensures there { IfOk result (λ found. IfSome found
        (λ other. Contains targets.now other.now)) }
    ensures clash { IfOk result (λ found. IfSome found
        (λ other. Clash lines.now snapshot.now one.now other.now)) }
{
    for other in targets {
        if !do_fit(alloc, lines, snapshot, asked, one, other)? {
            return Ok(Some(other));
        }
    }
    Ok(None)
}

/// The first two targets that don't fit with one another.
pub(crate) fn first_two_unfit<'t>(
    alloc: Global,
    lines: &[Line],
    snapshot: &Snapshot,
    asked: &Asked,
    targets: &'t [Target],
) -> Result<Option<(&'t Target, &'t Target)>, AllocError>
    requires { AreAsked lines.now snapshot.now asked.now }
    ensures all { IfOk result (λ found. IfNone found (AllByRecursion
        (λ one. AllByRecursion (Fit lines.now snapshot.now one) targets.now) targets.now)) }
    ensures there { IfOk result (λ found. IfSome found
        (λ two. Contains targets.now two.0.now × Contains targets.now two.1.now)) }
    ensures clash { IfOk result (λ found. IfSome found
        (λ two. Clash lines.now snapshot.now two.0.now two.1.now)) }
{
    for one in targets {
        if let Some(other) = first_unfit(alloc, lines, snapshot, asked, one, targets)? {
            return Ok(Some((one, other)));
        }
    }
    Ok(None)
}
