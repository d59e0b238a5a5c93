//! A line of the log.
ghost use Rattle.std.specs.Prelude.{◌≡◌, ◌++◌, ◌∷◌, [], true, IfOk, IfSome};
ghost use Rattle.std.specs.List.{list_all};
ghost use Rattle.program_log.specs.lines.Lines.{IsOneLine, TellsAt, is_visible, recorded_entry};

use crate::lines::draft::Draft;
use jiff::Timestamp;
use log::Record;
use log::kv::Source;
use log::span::Spans;
use std::alloc::{AllocError, Global};
use std::fmt::Display;
use std::marker::Model;

/// The bytes of one line, with the break that ends it. Contracts see the bytes.
#[derive(Drop)]
pub struct LogLine {
    bytes: Vec<u8>,
}

impl Model for LogLine {
    ghost use Rattle.std.specs.Prelude.{ℕ, List};
    ghost use Rattle.program_log.specs.lines.Lines.{IsOneLine};

    ghost Value = { List ℕ };

    ghost view = { λ l. l.bytes.items };

    ghost invariant = { λ l. IsOneLine l.bytes.items };
}

impl LogLine {
    /// The line of bytes that are visible.
    pub(crate) fn of(bytes: Vec<u8>) -> Result<LogLine, AllocError>
        requires { list_all is_visible bytes.items ≡ true }
        ensures { IfOk result (λ line. line ≡ bytes.items ++ 0x0A ∷ []) }
    {
        let mut bytes = bytes;
        bytes.push(b'\n')?;
        Ok(LogLine { bytes })
    }

    // Promise: Each line of the log has one break, at its end, and otherwise bytes from 20 to 7E alone, whatever a client names itself
    // With: line_of
    // Clauses: one
    pub fn as_bytes(&self) -> &[u8]
        ensures bytes { result.now ≡ self.now }
        ensures one { IsOneLine result.now }
    {
        &self.bytes
    }
}

// Promise: A record's line has the instant, the level, the event and each field in order, each as one word, so that no value ends a word or a line
/// The line of a record at an instant: its time in UTC, its level and its event, and as fields those of the spans around it and then its own. A
/// text that isn't one word of visible bytes is between quotes. Refuses for want of memory, and if a value can't be shown.
pub fn line_of<D: Display, K: Source, S: Spans>(
    alloc: Global,
    instant: Timestamp,
    told: &Record<'_, D, K, S>,
) -> Result<LogLine, AllocError>
    ensures text { IfOk result (λ line. IfSome (recorded_entry D.output K.pairs S.scopes told.now) (λ entry. TellsAt instant entry line)) }
    ensures one { IfOk result (λ line. IsOneLine line) }
{
    let mut draft = Draft::begun(alloc, instant, told.level(), told.args())?;
    draft.add_spans(told.spans())?;
    draft.add_pairs(told.key_values())?;
    draft.ended()
}
