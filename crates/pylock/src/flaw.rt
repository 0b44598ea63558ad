// Why a value isn't what it should be.

ghost use Rattle.std.specs.Prelude.{◌≡◌};
ghost use Rattle.pylock.specs.declared.flaw.Flaw.TheVariants as flaws;

use std::alloc::{AllocError, AllocFailed};

/// Why a value isn't what it should be.
#[derive(Clone, Copy, Debug, PartialEq, Eq)]
pub enum Flaw {
    /// The value has another form.
    OtherForm,
    /// Memory was refused.
    OutOfMemory,
}

impl From<AllocError> for Flaw {
    ghost from_gives = { λ _ e. e ≡ flaws.OutOfMemory };

    fn from(_error: AllocError) -> Flaw {
        Flaw::OutOfMemory
    }
}

impl<T: Drop> From<AllocFailed<T>> for Flaw {
    ghost from_gives = { λ _ e. e ≡ flaws.OutOfMemory };

    fn from(_error: AllocFailed<T>) -> Flaw {
        Flaw::OutOfMemory
    }
}
