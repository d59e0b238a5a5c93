//! Why a call of a workflow is refused: N1 to N5, or what a shard refuses.
use std::alloc::AllocError;
use std::fmt::{Display, Error, Formatter, Write};
use vt_value::Refusal;

/// Why a call of a workflow is refused.
#[derive(Clone, Copy, Debug, PartialEq, Eq)]
pub enum ReshardFault {
    /// For want of memory, or since a limit of a shard would be passed.
    Refused(Refusal),
    /// The targets together don't hold what the sources do.
    Gap,
    /// Two targets overlap.
    Overlap,
    /// Fewer slots are free than there are targets.
    FewSlots,
    /// The workflow isn't in a state for the call.
    WrongState,
    /// No source is named, one is named twice, or one isn't a shard of the keyspace that serves.
    WrongSource,
}

impl From<Refusal> for ReshardFault {
    ghost use Rattle.std.specs.Prelude.{◌≡◌};
    ghost use Rattle.reshard_cutover.specs.declared.fault.ReshardFault.TheVariants.{Refused};

    ghost from_gives = { λ refusal fault. fault ≡ Refused refusal };

    fn from(refusal: Refusal) -> ReshardFault {
        ReshardFault::Refused(refusal)
    }
}

impl From<AllocError> for ReshardFault {
    ghost use Rattle.std.specs.Prelude.{◌≡◌};
    ghost use Rattle.vt_value.specs.declared.refusal.Refusal.TheVariants.{OutOfMemory};
    ghost use Rattle.reshard_cutover.specs.declared.fault.ReshardFault.TheVariants.{Refused};

    ghost from_gives = { λ _ fault. fault ≡ Refused OutOfMemory };

    fn from(_error: AllocError) -> ReshardFault {
        ReshardFault::Refused(Refusal::OutOfMemory)
    }
}

/// The number by which the documents and the admin port name it.
impl Display for ReshardFault {
    fn fmt<W: Write>(&self, f: &mut Formatter<W>) -> Result<(), Error> {
        match self {
            ReshardFault::Refused(refusal) => write!(f, "F{}", refusal.number()),
            ReshardFault::Gap => f.write_str("N1"),
            ReshardFault::Overlap => f.write_str("N2"),
            ReshardFault::FewSlots => f.write_str("N3"),
            ReshardFault::WrongState => f.write_str("N4"),
            ReshardFault::WrongSource => f.write_str("N5"),
        }
    }
}
