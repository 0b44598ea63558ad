// Copies of what may be there.

ghost use Rattle.std.specs.Prelude.{◌≡◌, IfOk};
ghost use Rattle.std.specs.Option.{option_copied};

use crate::seq::Faithful;
use std::alloc::AllocError;

/// A copy of what may be there.
pub fn copied<T: Faithful>(source: &Option<T>) -> Result<Option<T>, AllocError>
    ensures { IfOk result (λ copy. copy ≡ source.now) }
{
    copy_of(source.as_ref())
}

/// A copy of what is lent where it is there.
pub fn copy_of<T: Faithful>(source: Option<&T>) -> Result<Option<T>, AllocError>
    ensures { IfOk result (λ copy. copy ≡ option_copied source.entry) }
{
    match source {
        Some(found) => Ok(Some(found.clone()?)),
        None => Ok(None),
    }
}
