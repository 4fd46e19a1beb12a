ghost use Rattle.std.specs.Prelude.{◌≡◌};
ghost use Rattle.engine.specs.declared.halt.Halt.TheVariants.{OutOfMemory};

use std::alloc::{AllocError, AllocFailed};

/// Why a run stops at an event.
#[derive(Clone, Copy, Debug, PartialEq, Eq)]
pub(crate) enum Halt {
    /// False bytes opened.
    Opened,
    OutOfMemory,
}

impl From<AllocError> for Halt {
    ghost from_gives = { λ _ halt. halt ≡ OutOfMemory };

    fn from(_error: AllocError) -> Halt {
        Halt::OutOfMemory
    }
}

impl<T: Drop> From<AllocFailed<T>> for Halt {
    ghost from_gives = { λ _ halt. halt ≡ OutOfMemory };

    fn from(_failed: AllocFailed<T>) -> Halt {
        Halt::OutOfMemory
    }
}
