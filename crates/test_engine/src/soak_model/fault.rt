//! Why a soak ends early.
use crate::soak_model::statement::Statement;
use reshard_create::ReshardFault;
use std::alloc::AllocError;
use std::fmt;
use vt_value::Refusal;

/// Why a soak ends early: what was answered, or is there, isn't what the accepted commands say.
#[derive(Clone, Copy)]
pub enum SoakFault {
    /// There is no memory.
    Memory,
    /// What is wrong with what a statement was answered, and two numbers of it.
    Statement(&'static str, Statement, Option<u64>, Option<u64>),
    /// An admin line wasn't done.
    Line(&'static str, Option<ReshardFault>),
    /// Two numbers of what is to be equal.
    Numbers(&'static str, u64, u64),
}

impl fmt::Display for SoakFault {
    fn fmt<W: fmt::Write>(&self, f: &mut fmt::Formatter<W>) -> fmt::Result {
        match self {
            SoakFault::Memory => f.write_str("out of memory"),
            SoakFault::Statement(what, statement, one, other) => {
                write!(f, "{statement}: {what} {one:?}, {other:?}")
            }
            SoakFault::Line(words, fault) => write!(f, "! {words}: {fault:?}"),
            SoakFault::Numbers(what, one, other) => write!(f, "{what}: {one}, {other}"),
        }
    }
}

/// Whether two numbers are equal.
pub fn same(what: &'static str, one: u64, other: u64) -> Result<(), SoakFault> {
    if one == other {
        return Ok(());
    }
    Err(SoakFault::Numbers(what, one, other))
}

/// No memory for a call.
impl From<AllocError> for SoakFault {
    fn from(_error: AllocError) -> SoakFault {
        SoakFault::Memory
    }
}

/// A refusal of a call that only wants memory.
impl From<Refusal> for SoakFault {
    fn from(_refusal: Refusal) -> SoakFault {
        SoakFault::Memory
    }
}
