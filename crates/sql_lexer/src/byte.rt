//! The classes of bytes, and how far they reach.
ghost use Rattle.std.specs.Prelude.{◌≡◌, ◌≤◌, length};
ghost use Rattle.sql_lexer.specs.Lexemes.{is_blank, is_letter, is_digit, is_word_byte};
ghost use Rattle.sql_lexer.specs.inner.Scanning.{run, first_passes, upper_at, code_with, code_from};

/// The bytes of words, in upper case, each at its place and at that of its lower case. All other places have a comma.
static UPPER: [u8; 256] = *b"\
    ,,,,,,,,,,,,,,,,,,,,,,,,,,,,,,,,\
    ,,,,,,,,,,,,,,,,0123456789,,,,,,\
    ,ABCDEFGHIJKLMNOPQRSTUVWXYZ,,,,_\
    ,ABCDEFGHIJKLMNOPQRSTUVWXYZ,,,,,\
    ,,,,,,,,,,,,,,,,,,,,,,,,,,,,,,,,\
    ,,,,,,,,,,,,,,,,,,,,,,,,,,,,,,,,\
    ,,,,,,,,,,,,,,,,,,,,,,,,,,,,,,,,\
    ,,,,,,,,,,,,,,,,,,,,,,,,,,,,,,,,";

/// A blank, tab, line feed, vertical tab, form feed or carriage return.
fn is_blank(byte: u8) -> bool
    ensures { result ≡ is_blank byte }
{
    byte == b' ' || (b'\t' <= byte && byte <= b'\r')
}

/// An ASCII letter or `_`.
pub fn is_letter(byte: u8) -> bool
    ensures { result ≡ is_letter byte }
{
    (b'A' <= byte && byte <= b'Z') || (b'a' <= byte && byte <= b'z') || byte == b'_'
}

/// A decimal digit.
pub fn is_digit(byte: u8) -> bool
    ensures { result ≡ is_digit byte }
{
    b'0' <= byte && byte <= b'9'
}

/// A letter, `_` or a digit.
pub fn is_word_byte(byte: u8) -> bool
    ensures { result ≡ is_word_byte byte }
{
    is_letter(byte) || is_digit(byte)
}

/// Whether a blank is at the front.
pub fn begins_blank(bytes: &[u8]) -> bool
    ensures { result ≡ first_passes is_blank bytes.now }
{
    match bytes {
        [] => false,
        [first, ..] => is_blank(*first),
    }
}

/// Whether a letter or `_` is at the front.
pub fn begins_letter(bytes: &[u8]) -> bool
    ensures { result ≡ first_passes is_letter bytes.now }
{
    match bytes {
        [] => false,
        [first, ..] => is_letter(*first),
    }
}

/// Whether a byte of a word is at the front.
pub fn begins_word_byte(bytes: &[u8]) -> bool
    ensures { result ≡ first_passes is_word_byte bytes.now }
{
    match bytes {
        [] => false,
        [first, ..] => is_word_byte(*first),
    }
}

/// A byte of a word in upper case.
fn upper_of(byte: u8) -> Option<u8>
    ensures { result ≡ upper_at byte }
{
    let upper = UPPER[byte as usize];
    if upper == b',' { None } else { Some(upper) }
}

/// The code of a word with one byte more.
fn code_with(code: u64, upper: u8) -> u64
    ensures { result ≡ code_with code upper }
{
    code.wrapping_mul(0x100).wrapping_add(u64::from(upper))
}

/// How many bytes of a word are at the front, and their code.
pub fn word_code(bytes: &[u8]) -> (usize, u64)
    ensures value { result.0 ≡ run is_word_byte bytes.now }
    ensures within { result.0 ≤ length bytes.now }
    ensures code { result.1 ≡ code_from 0 bytes.now }
{
    let mut code = 0;
    for (count, byte) in bytes.iter().enumerate() {
        let Some(upper) = upper_of(*byte) else {
            return (count, code);
        };
        code = code_with(code, upper);
    }
    (bytes.len(), code)
}

/// How many bytes of a word are at the front.
pub fn word_len(bytes: &[u8]) -> usize
    ensures value { result ≡ run is_word_byte bytes.now }
    ensures within { result ≤ length bytes.now }
{
    let mut count = 0;
    for byte in bytes {
        if !is_word_byte(*byte) {
            return count;
        }
        count += 1;
    }
    count
}

/// How many digits are at the front.
pub fn number_len(bytes: &[u8]) -> usize
    ensures value { result ≡ run is_digit bytes.now }
    ensures within { result ≤ length bytes.now }
{
    let mut count = 0;
    for byte in bytes {
        if !is_digit(*byte) {
            return count;
        }
        count += 1;
    }
    count
}
