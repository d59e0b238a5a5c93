//! The law that a line has one meaning, proved of all lines: no code calls this function.
ghost use Rattle.std.specs.Prelude.{◌≡◌, ℕ, List};
ghost use Rattle.program_log.specs.lines.Lines.{LogEntry, log_line};
ghost use Rattle.program_log.specs.lines.Unforged.{AreBytes, HasBytes};

// Promise: A line has one meaning: whatever bytes clients choose, two lines that are the same have the same time, level, event and fields
/// No client can give a line another meaning: two lines that are equal mean the same, if their texts are bytes.
pub fn no_line_is_forged()
    ensures { (t u : List ℕ) (e f : LogEntry) → AreBytes t → AreBytes u → HasBytes e → HasBytes f → log_line t e ≡ log_line u f → (t ≡ u) × (e ≡ f) }
{}
