//! The classes of bytes, and how far they reach.
ghost use Rattle.std.specs.Prelude.{◌≡◌, ◌≤◌, ◌==◌, not, length, drop};
ghost use Rattle.sql_lexer.specs.Lexemes.{is_blank, is_letter, is_digit, is_word_byte};
ghost use Rattle.sql_lexer.specs.inner.Scanning.{run, first_passes};
ghost use Rattle.client_statements.specs.tokens.Pieces.{in_line, in_name, is_quote, is_operator_byte};

/// A blank, tab, line feed, vertical tab, form feed or carriage return.
pub fn is_blank(byte: u8) -> bool
    ensures { result ≡ is_blank byte }
{
    byte == b' ' || (b'\t' <= byte && byte <= b'\r')
}

/// An ASCII letter or `_`.
pub fn is_letter(byte: u8) -> bool
    ensures { result ≡ is_letter byte }
{
    (b'A' <= byte && byte <= b'Z') || (b'a' <= byte && byte <= b'z') || byte == b'_'
}

/// A decimal digit.
pub fn is_digit(byte: u8) -> bool
    ensures { result ≡ is_digit byte }
{
    b'0' <= byte && byte <= b'9'
}

/// `'` or `"`.
pub fn is_quote(byte: u8) -> bool
    ensures { result ≡ is_quote byte }
{
    byte == b'\'' || byte == b'"'
}

/// A letter, `_` or a digit.
fn is_word_byte(byte: u8) -> bool
    ensures { result ≡ is_word_byte byte }
{
    is_letter(byte) || is_digit(byte)
}

/// Whether this byte is at the front.
pub fn begins_with(bytes: &[u8], wanted: u8) -> bool
    ensures { result ≡ first_passes (λ b. b == wanted) bytes.now }
{
    match bytes {
        [] => false,
        [first, ..] => *first == wanted,
    }
}

/// Whether a letter or `_` is at the front.
pub fn begins_letter(bytes: &[u8]) -> bool
    ensures { result ≡ first_passes is_letter bytes.now }
{
    match bytes {
        [] => false,
        [first, ..] => is_letter(*first),
    }
}

/// Whether a byte of a word is at the front.
pub fn begins_word_byte(bytes: &[u8]) -> bool
    ensures { result ≡ first_passes is_word_byte bytes.now }
{
    match bytes {
        [] => false,
        [first, ..] => is_word_byte(*first),
    }
}

/// Whether something other than a blank is at the front.
pub fn begins_no_blank(bytes: &[u8]) -> bool
    ensures { result ≡ first_passes (λ b. not (is_blank b)) bytes.now }
{
    match bytes {
        [] => false,
        [first, ..] => !is_blank(*first),
    }
}

/// `<`, `=`, `>`, `!`, `&` or `|`.
pub fn is_operator_byte(byte: u8) -> bool
    ensures { result ≡ is_operator_byte byte }
{
    byte == b'<' || byte == b'=' || byte == b'>' || byte == b'!' || byte == b'&' || byte == b'|'
}

/// How many bytes of a word are at the front.
pub fn word_len(bytes: &[u8]) -> usize
    ensures value { result ≡ run is_word_byte bytes.now }
    ensures within { result ≤ length bytes.now }
{
    let mut count = 0;
    for byte in bytes {
        if !is_word_byte(*byte) {
            return count;
        }
        count += 1;
    }
    count
}

/// How many digits are at the front.
pub fn number_len(bytes: &[u8]) -> usize
    ensures value { result ≡ run is_digit bytes.now }
    ensures within { result ≤ length bytes.now }
{
    let mut count = 0;
    for byte in bytes {
        if !is_digit(*byte) {
            return count;
        }
        count += 1;
    }
    count
}

/// How many operator bytes are at the front.
pub fn operator_len(bytes: &[u8]) -> usize
    ensures value { result ≡ run is_operator_byte bytes.now }
    ensures within { result ≤ length bytes.now }
{
    let mut count = 0;
    for byte in bytes {
        if !is_operator_byte(*byte) {
            return count;
        }
        count += 1;
    }
    count
}

/// How many bytes come before the next backquote.
pub fn name_len(bytes: &[u8]) -> usize
    ensures value { result ≡ run in_name bytes.now }
    ensures within { result ≤ length bytes.now }
{
    let mut count = 0;
    for byte in bytes {
        if *byte == b'`' {
            return count;
        }
        count += 1;
    }
    count
}

/// How many bytes come before the end of the line.
pub fn line_len(bytes: &[u8]) -> usize
    ensures value { result ≡ run in_line bytes.now }
    ensures within { result ≤ length bytes.now }
{
    let mut count = 0;
    for byte in bytes {
        if *byte == b'\n' {
            return count;
        }
        count += 1;
    }
    count
}

/// The bytes from a position on.
pub fn rest_from(bytes: &[u8], at: usize) -> &[u8]
    requires { at ≤ length bytes.now }
    ensures { result.now ≡ drop at bytes.now }
{
    &bytes[at..]
}
