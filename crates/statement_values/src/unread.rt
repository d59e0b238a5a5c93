//! Why values aren't read.
ghost use Rattle.std.specs.Prelude.{◌≡◌};
ghost use Rattle.statement_values.specs.declared.unread.Unread.TheVariants.{OutOfMemory};

use std::alloc::{AllocError, AllocFailed};

/// Why what a client sends isn't read.
#[derive(Clone, Copy, Debug, PartialEq, Eq)]
pub enum Unread {
    /// A growth was refused.
    OutOfMemory,
    /// It asks for a cursor, or tells a type that isn't taken.
    NotSupported,
    /// No values have these bytes.
    Wrong,
}

impl From<AllocError> for Unread {
    ghost from_gives = { λ _ e. e ≡ OutOfMemory };

    fn from(_error: AllocError) -> Unread {
        Unread::OutOfMemory
    }
}

impl<T: Drop> From<AllocFailed<T>> for Unread {
    ghost from_gives = { λ _ e. e ≡ OutOfMemory };

    fn from(_failed: AllocFailed<T>) -> Unread {
        Unread::OutOfMemory
    }
}
