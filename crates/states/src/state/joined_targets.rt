// Targets with their locks.

ghost use Rattle.std.specs.Prelude.{IfOk, List, MatchOption};
ghost use Rattle.states.specs.Tied.JoinedTargets.{HaveParts};
ghost use Rattle.states.specs.declared.target.Target.{Target};

use crate::target::Target;
use crate::targets::Targets;
use lists::Seq;
use pylock::Lock;
use std::alloc::{AllocError, Global};

/// The targets with these locks, in their order; `None` where there are more or fewer locks.
pub(crate) fn joined(
    alloc: Global,
    targets: Targets,
    locks: Seq<Lock>,
) -> Result<Option<Seq<Target>>, AllocError>
    ensures { IfOk result (λ made. MatchOption made
        ((made : List Target) → HaveParts targets locks made → ⊥)
        (HaveParts targets locks)) }
{
    if targets.as_slice().len() != locks.len() {
        return Ok(None);
    }
    let mut locks = locks.into_vec().into_iter();
    let mut made = Vec::with_capacity(alloc, locks.len())?;
    for (name, environment) in targets.into_list().into_vec() {
        let Some(lock) = locks.next() else {
            unreachable!();
        };
        made.push(Target {
            name,
            environment,
            lock,
        })?;
    }
    Ok(Some(Seq::from_vec(made)))
}
