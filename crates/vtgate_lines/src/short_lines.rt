//! Lines that take no memory: that of a refusal, and that of a count.
ghost use Rattle.std.specs.Prelude.{◌≡◌, ◌+◌, ◌≤◌, ◌++◌, length};
ghost use Rattle.vtgate_lines.specs.Printed.{count_text, refusal_text};

use arrayvec::ArrayVec;
use itoa::Buffer;
use vt_value::Refusal;

/// More bytes than the line of a refusal or of a count has.
pub const SHORT_LINE: usize = 64;

fn extend(line: &mut ArrayVec<u8, SHORT_LINE>, more: &[u8])
    requires { length line.old.items + length more.now ≤ 64 }
    ensures { line.new.items ≡ line.old.items ++ more.now }
{
    let _ = line.try_extend_from_slice(more);
}

/// The line of a refusal, as `ERROR 1213 (40001): conflict`: its code, its state and its message. It takes no memory.
#[tactic(auto, using(crate::proofs::Short::short_words))]
pub fn refusal_line(refusal: Refusal) -> ArrayVec<u8, SHORT_LINE>
    ensures { result.items ≡ refusal_text refusal }
{
    let mut buffer = Buffer::new();
    let mut line = ArrayVec::new();
    extend(&mut line, b"ERROR ");
    extend(&mut line, buffer.format(refusal.code()).as_bytes());
    extend(&mut line, b" (");
    extend(&mut line, refusal.state().as_bytes());
    extend(&mut line, b"): ");
    extend(&mut line, refusal.message().as_bytes());
    extend(&mut line, b"\n");
    line
}

/// The line of a count, as `ok 1`. It takes no memory, so what was done is always printed.
pub fn count_line(count: u64) -> ArrayVec<u8, SHORT_LINE>
    ensures { result.items ≡ count_text count }
{
    let mut buffer = Buffer::new();
    let mut line = ArrayVec::new();
    extend(&mut line, b"ok ");
    extend(&mut line, buffer.format(count).as_bytes());
    extend(&mut line, b"\n");
    line
}
