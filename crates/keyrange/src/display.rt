//! Key ranges and their edges as text: `40-80`.
ghost use Rattle.std.specs.Prelude.{◌≡◌, ◌<◌, ◌∷◌, [], Some, encode_utf8};
ghost use Rattle.keyrange.specs.declared.KeyRange.{KeyRange};
ghost use Rattle.keyrange.specs.Names.{hex_digit, hex, range_text};

use crate::{Edge, KeyRange};
use std::fmt;

// A value's lower-case hexadecimal digit.
fn digit_of(value: u8) -> char
    requires { value < 16 }
    ensures { encode_utf8 result ≡ hex_digit value ∷ [] }
{
    let digit = if value < 10 {
        b'0' + value
    } else {
        b'a' + (value - 10)
    };
    digit as char
}

/// Two lower-case hexadecimal digits a byte.
impl fmt::Display for Edge {
    ghost output = { λ edge. Some (hex edge) };

    fn fmt<W: fmt::Write>(&self, f: &mut fmt::Formatter<W>) -> fmt::Result {
        for byte in self.as_slice() {
            f.write_char(digit_of(byte / 16))?;
            f.write_char(digit_of(byte % 16))?;
        }
        Ok(())
    }
}

/// The range's name, as `40-80`, `-80` or `-`.
impl fmt::Display for KeyRange {
    ghost output = { λ range. Some (range_text range) };

    fn fmt<W: fmt::Write>(&self, f: &mut fmt::Formatter<W>) -> fmt::Result {
        write!(f, "{}-", self.begin)?;
        if let Some(end) = &self.end {
            write!(f, "{end}")?;
        }
        Ok(())
    }
}
