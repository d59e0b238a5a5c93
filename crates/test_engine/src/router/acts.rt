//! Acts, each with what it is to give.
use admin::ReshardFault;
use vt_value::Refusal;

/// What is done next, and what it is to give.
#[derive(Clone, Copy)]
pub enum Act<'t> {
    /// An admin line, and the line that answers it.
    Line(&'t [u8], &'t [u8]),
    /// A statement of the first session, and how many rows it gives or changes, or why it is refused.
    One(&'t [u8], Result<u64, Refusal>),
    /// A statement of the second session, and what it gives likewise.
    Two(&'t [u8], Result<u64, Refusal>),
    /// The controller stops, and another takes its workflow up from the shards, or is refused.
    Reopen(Result<(), ReshardFault>),
    /// A controller that has no slots reopens the workflow whose controller stopped last, from its shards, or is refused.
    ReopenLast(Result<(), ReshardFault>),
    /// The gate is to hold the next read of the first shard.
    Arm,
    /// It is to hold that until the second shard was read.
    ArmUntilSecond,
    /// The third session begins its statement.
    Begin,
    /// The read, or the first shard's lock, comes to be held.
    Held,
    /// What is held is let go.
    LetGo,
    /// The third session's statement comes to wait in the buffer.
    Waits,
    /// It has time to come to a lock.
    Pause,
    /// It comes to be answered.
    Answered,
}

/// What the third session asks.
#[derive(Clone, Copy)]
pub enum ThirdStatement {
    Nothing,
    /// All rows of the table t.
    AllRows,
    /// To insert the row with the id 8, which lies on the first shard.
    Eight,
}
