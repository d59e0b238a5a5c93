//! The lines of a script.
ghost use Rattle.std.specs.Prelude.{◌≡◌, ◌≢◌, ◌<◌, ◌≤◌, ◌++◌, ℕ, List, [], true, false, length, take, slice_index, IfSome, IfNone, MatchOption};
ghost use Rattle.std.specs.List.{list_all};
ghost use Rattle.vtgate_lines.specs.Lines.{is_lower_letter, is_inner, Says, IsNextLine};

/// What a line of a script says.
#[derive(Clone, Copy, Debug)]
pub enum Line<'l> {
    /// A statement: the name of its session, one or more lower-case letters, and its text.
    Statement(&'l [u8], &'l [u8]),
    /// The words of an admin line.
    Admin(&'l [u8]),
    /// Neither of these.
    Unknown,
}

fn is_letter(byte: u8) -> bool
    ensures { result ≡ is_lower_letter byte }
{
    byte.is_ascii_lowercase()
}

// How many letters the line begins with.
fn name_len(line: &[u8]) -> usize
    ensures bound { result ≤ length line.now }
    ensures front { list_all is_lower_letter (take result line.now) ≡ true }
    ensures end { result < length line.now → is_lower_letter (slice_index line.now result) ≡ false }
{
    let mut len = 0;
    while len < line.len() && is_letter(line[len]) {
        len += 1;
    }
    len
}

// How many bytes the input's first line has.
fn line_len(input: &[u8]) -> usize
    ensures bound { result ≤ length input.now }
    ensures front { list_all is_inner (take result input.now) ≡ true }
    ensures end { result < length input.now → slice_index input.now result ≡ 10 }
{
    let mut len = 0;
    while len < input.len() && input[len] != b'\n' {
        len += 1;
    }
    len
}

// What follows a front.
pub(crate) fn bytes_after<'b>(bytes: &'b [u8], front: &[u8]) -> Option<&'b [u8]>
    ensures { MatchOption result ((rest : List ℕ) → bytes.now ≢ front.now ++ rest) (λ rest. bytes.now ≡ front.now ++ rest.now) }
{
    bytes.strip_prefix(front)
}

// Promise: An input's first line and what follows it; what a line says
// With: read_line
/// The first line of an input, without the byte 0A that ends it, and what follows it. The last line may lack that byte.
/// `None` if nothing is left.
pub fn next_line(input: &[u8]) -> Option<(&[u8], &[u8])>
    ensures found { IfSome result (λ x. IsNextLine input.now x.0.now x.1.now) }
    ensures none { IfNone result (input.now ≡ []) }
{
    if input.is_empty() {
        return None;
    }
    let (line, rest) = input.split_at(line_len(input));
    match rest {
        [_, rest @ ..] => Some((line, rest)),
        [] => Some((line, rest)),
    }
}

/// What a line says: `name: SQL`, the name of lower-case letters, is a statement, whose text may be empty; `! words` is an
/// admin line; any other is unknown.
pub fn read_line(line: &[u8]) -> Line<'_>
    ensures { Says line.now result }
{
    if let Some(words) = bytes_after(line, b"! ") {
        return Line::Admin(words);
    }
    let (name, rest) = line.split_at(name_len(line));
    match bytes_after(rest, b": ") {
        Some(sql) if !name.is_empty() => Line::Statement(name, sql),
        _ => Line::Unknown,
    }
}
