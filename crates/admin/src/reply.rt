//! What answers an admin line.
ghost use Rattle.std.specs.Prelude.{◌≡◌, ◌++◌, ◌∷◌, [], codes};
ghost use Rattle.std.specs.Fmt.{decimal};
ghost use Rattle.vt_value.specs.Refusals.{refusal_number};
ghost use Rattle.admin.specs.Words.{fault_word, move_word, reply_text, step_word};
ghost use Rattle.vtgate_lines.specs.Printed.{line};

use reshard::{CutoverStep, ReshardFault, Step};
use vt_value::{Items, Refusal};

/// What answers an admin line.
#[derive(Drop)]
pub enum AdminReply {
    /// What it asked for was done.
    Done,
    /// What the first target did that wasn't level.
    Moved(Step),
    /// The step of the cutover that was taken.
    Took(CutoverStep),
    /// Why what it asked for wasn't done.
    Refused(ReshardFault),
    /// The line of the status.
    Status(Items<u8>),
    /// It asks for nothing that there is.
    Unknown,
}

fn moved_line(step: Step) -> &'static [u8]
    ensures { result.now ≡ line (codes "ok " ++ move_word step) }
{
    match step {
        Step::Copied => b"ok copied\n",
        Step::Followed => b"ok followed\n",
        Step::Level => b"ok level\n",
    }
}

fn took_line(step: CutoverStep) -> &'static [u8]
    ensures { result.now ≡ line (codes "ok " ++ step_word step) }
{
    match step {
        CutoverStep::Freeze => b"ok freeze\n",
        CutoverStep::Copy => b"ok copy\n",
        CutoverStep::Follow => b"ok follow\n",
        CutoverStep::Retire => b"ok retire\n",
        CutoverStep::Serve => b"ok serve\n",
        CutoverStep::Publish => b"ok publish\n",
        CutoverStep::Release => b"ok release\n",
    }
}

fn refusal_line(refusal: Refusal) -> &'static [u8]
    ensures { result.now ≡ line (codes "F" ++ decimal (refusal_number refusal)) }
{
    match refusal {
        Refusal::OutOfMemory => b"F1\n",
        Refusal::SyntaxError => b"F2\n",
        Refusal::NotSupported => b"F3\n",
        Refusal::UnknownTable => b"F4\n",
        Refusal::UnknownColumn => b"F5\n",
        Refusal::UnknownKeyspace => b"F6\n",
        Refusal::AccessDenied => b"F7\n",
        Refusal::UnknownCommand => b"F8\n",
        Refusal::PacketTooLarge => b"F9\n",
        Refusal::PacketsOutOfOrder => b"F10\n",
        Refusal::BadHandshake => b"F11\n",
        Refusal::DuplicateKey => b"F12\n",
        Refusal::NullNotAllowed => b"F13\n",
        Refusal::NoDefaultValue => b"F14\n",
        Refusal::OutOfRange => b"F15\n",
        Refusal::TooLong => b"F16\n",
        Refusal::WrongValueCount => b"F17\n",
        Refusal::ColumnNamedTwice => b"F18\n",
        Refusal::NotGrouped => b"F19\n",
        Refusal::SeveralShards => b"F20\n",
        Refusal::Conflict => b"F21\n",
        Refusal::BufferFull => b"F22\n",
        Refusal::ShardMoved => b"F23\n",
        Refusal::ShardFull => b"F24\n",
        Refusal::UnknownVariable => b"F25\n",
        Refusal::NoKeyspace => b"F26\n",
    }
}

fn fault_line(fault: ReshardFault) -> &'static [u8]
    ensures { result.now ≡ line (fault_word fault) }
{
    match fault {
        ReshardFault::Refused(refusal) => refusal_line(refusal),
        ReshardFault::Gap => b"N1\n",
        ReshardFault::Overlap => b"N2\n",
        ReshardFault::FewSlots => b"N3\n",
        ReshardFault::WrongState => b"N4\n",
        ReshardFault::WrongSource => b"N5\n",
    }
}

impl AdminReply {
    /// Its line, with the byte 0A that ends it. Takes no memory, so that what was done is always answered.
    pub fn line(&self) -> &[u8]
        ensures { result.now ≡ reply_text self.now }
    {
        match self {
            AdminReply::Done => b"ok\n",
            AdminReply::Moved(step) => moved_line(*step),
            AdminReply::Took(step) => took_line(*step),
            AdminReply::Refused(fault) => fault_line(*fault),
            AdminReply::Status(text) => text.as_slice(),
            AdminReply::Unknown => b"unknown\n",
        }
    }
}
