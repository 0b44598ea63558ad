// Sets of places.

ghost use Rattle.std.specs.Prelude.{IfOk};
ghost use Rattle.lists.specs.Bits.{LiesWithin};

use lists::Bits;
use std::alloc::{AllocError, Global};

/// The set of these places.
pub fn set_of(alloc: Global, places: &[usize]) -> Result<Bits, AllocError>
    ensures all { IfOk result (λ set. LiesWithin places.now set) }
    ensures only { IfOk result (λ set. LiesWithin set places.now) }
{
    let mut set = Bits::new(alloc);
    for place in places {
        set.insert(*place)?;
    }
    Ok(set)
}
