//! Why a text is no VSchema: V1 to V9.
ghost use Rattle.std.specs.Prelude.{◌≡◌};
ghost use Rattle.vschema_json.specs.FaultNumbers.{fault_number};

use std::alloc::{AllocError, AllocFailed};
use thiserror::Error;

/// Why a text is no VSchema. If several apply, the one with the least number is answered.
#[derive(Clone, Copy, Debug, PartialEq, Eq, Error)]
pub enum SchemaFault {
    /// A growth was refused. It has no number.
    #[error("out of memory")]
    OutOfMemory,
    /// The text is no JSON.
    #[error("V1")]
    NotJson,
    /// A member is unknown, missing, of the wrong kind or ill-formed.
    #[error("V2")]
    IllFormed,
    /// A vindex has an unknown type, or a table names one that its keyspace doesn't declare.
    #[error("V3")]
    UnknownVindex,
    /// A primary key or a vindex names a column that its table doesn't have.
    #[error("V4")]
    MissingColumn,
    /// A vindex can't take its column's type.
    #[error("V5")]
    WrongKeyType,
    /// A column of a primary key or of a vindex may be NULL.
    #[error("V6")]
    NullableKey,
    /// A vindex column isn't in its table's primary key.
    #[error("V7")]
    KeyWithoutVindex,
    /// Two keyspaces have a table of one name, or a table has two columns of one name.
    #[error("V8")]
    NamedTwice,
    /// More keyspaces, tables, columns or column vindexes than there may be.
    #[error("V9")]
    AboveLimit,
}

impl SchemaFault {
    /// The number by which the documents name the fault, 1 to 9. Want of memory has none.
    pub fn number(self) -> Option<u8>
        ensures { result ≡ fault_number self }
    {
        match self {
            SchemaFault::OutOfMemory => None,
            SchemaFault::NotJson => Some(1),
            SchemaFault::IllFormed => Some(2),
            SchemaFault::UnknownVindex => Some(3),
            SchemaFault::MissingColumn => Some(4),
            SchemaFault::WrongKeyType => Some(5),
            SchemaFault::NullableKey => Some(6),
            SchemaFault::KeyWithoutVindex => Some(7),
            SchemaFault::NamedTwice => Some(8),
            SchemaFault::AboveLimit => Some(9),
        }
    }
}

impl From<AllocError> for SchemaFault {
    ghost use Rattle.vschema_json.specs.declared.fault.SchemaFault.TheVariants.{OutOfMemory};

    ghost from_gives = { λ _ e. e ≡ OutOfMemory };

    fn from(_error: AllocError) -> SchemaFault {
        SchemaFault::OutOfMemory
    }
}

impl<T: Drop> From<AllocFailed<T>> for SchemaFault {
    ghost use Rattle.vschema_json.specs.declared.fault.SchemaFault.TheVariants.{OutOfMemory};

    ghost from_gives = { λ _ e. e ≡ OutOfMemory };

    fn from(_failed: AllocFailed<T>) -> SchemaFault {
        SchemaFault::OutOfMemory
    }
}
