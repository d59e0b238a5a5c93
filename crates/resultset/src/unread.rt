//! Why bytes are no result.
ghost use Rattle.std.specs.Prelude.{◌≡◌};
ghost use Rattle.resultset.specs.declared.unread.Unread.TheVariants.{OutOfMemory};

use std::alloc::{AllocError, AllocFailed};
use vt_value::Refusal;

/// Why bytes weren't read.
#[derive(Clone, Copy, Debug)]
pub(crate) enum Unread {
    /// A growth was refused.
    OutOfMemory,
    /// No result has this spelling.
    Malformed,
}

impl From<AllocError> for Unread {
    ghost from_gives = { λ _ e. e ≡ OutOfMemory };

    fn from(_error: AllocError) -> Unread {
        Unread::OutOfMemory
    }
}

impl<T: Drop> From<AllocFailed<T>> for Unread {
    ghost from_gives = { λ _ e. e ≡ OutOfMemory };

    fn from(_failed: AllocFailed<T>) -> Unread {
        Unread::OutOfMemory
    }
}
