//! The time of a line.
ghost use Rattle.std.specs.Prelude.{◌≡◌};
ghost use Rattle.program_log.specs.lines.Lines.{IsTimeText};

use arrayvec::ArrayString;
use jiff::Timestamp;
use jiff::fmt::temporal::DateTimePrinter;
use std::time::Clock;

/// How many digits a second's fraction has.
const FRACTION_DIGITS: u8 = 3;

/// Now; if the clock can't be read, the beginning of 1970.
pub fn instant<R: Clock>(rt: &R) -> Timestamp {
    match Timestamp::now(rt) {
        Ok(now) => now,
        Err(_) => Timestamp::UNIX_EPOCH,
    }
}

/// An instant's time in UTC, with milliseconds.
pub fn time_text(instant: Timestamp) -> ArrayString<33>
    ensures { IsTimeText instant result.bytes }
{
    DateTimePrinter::new()
        .precision(Some(FRACTION_DIGITS))
        .timestamp_text(instant.to_plain())
}
