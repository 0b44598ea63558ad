// Why a text is no file of pins.

ghost use Rattle.std.specs.Prelude.{◌≡◌};
ghost use Rattle.inputs.specs.declared.pin_fault.PinFault.TheVariants.{OutOfMemory};

use pep508::Fault as LineFault;
use pylock::Fault as LockFault;
use std::alloc::AllocError;

/// Why a text is no file of pins.
#[derive(Debug, Drop)]
pub enum PinFault {
    /// It is no lock.
    Lock(LockFault),
    /// It is no requirements file.
    Lines(LineFault),
    /// The line of this number, from 1, asks for something and pins no version.
    NoPin(usize),
    OutOfMemory,
}

impl From<AllocError> for PinFault {
    ghost from_gives = { λ _ fault. fault ≡ OutOfMemory };

    fn from(_error: AllocError) -> PinFault {
        PinFault::OutOfMemory
    }
}
