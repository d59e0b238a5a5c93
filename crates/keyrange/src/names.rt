//! Reads a key range from its name, and the law that a name means one range.
ghost use Rattle.std.specs.Prelude.{◌≡◌, ◌≢◌, ◌<◌, ◌≤◌, ℕ, List, length, IfSome, IfNone, Some};
ghost use Rattle.keyrange.specs.Ranges.{IsByteString};
ghost use Rattle.keyrange.specs.declared.KeyRange.{KeyRange};
ghost use Rattle.keyrange.specs.Names.{hex_digit, hex, IsEdge, IsNameOf};

use crate::ranges::is_before;
use crate::{Edge, KeyRange};

// The value of a lower-case hexadecimal digit.
fn digit_value(digit: u8) -> Option<u8>
    ensures found { IfSome result (λ value. (value < 16) × (hex_digit value ≡ digit)) }
    ensures none { IfNone result ((value : ℕ) → value < 16 → hex_digit value ≢ digit) }
{
    match digit {
        b'0'..=b'9' => Some(digit - b'0'),
        b'a'..=b'f' => Some(digit - b'a' + 10),
        _ => None,
    }
}

// The bytes that digits spell, two digits a byte, if they are at most eight.
fn read_bytes(digits: &[u8]) -> Option<Edge>
    ensures found { IfSome result (λ edge. hex edge ≡ digits.now) }
    ensures spelled { (edge : List ℕ) → IsByteString edge → length edge ≤ 8 → hex edge ≡ digits.now → result ≡ Some edge }
{
    let mut edge = Edge::empty();
    let mut rest = digits;
    while let [high, low, more @ ..] = rest {
        if edge.len() == 8 {
            return None;
        }
        edge.push(digit_value(*high)? * 16 + digit_value(*low)?);
        rest = more;
    }
    if rest.is_empty() { Some(edge) } else { None }
}

// The edge that digits spell: at most eight bytes, of which the last isn't 0.
fn read_edge(digits: &[u8]) -> Option<Edge>
    ensures found { IfSome result (λ edge. IsEdge edge × (hex edge ≡ digits.now)) }
    ensures spelled { (edge : List ℕ) → IsEdge edge → hex edge ≡ digits.now → result ≡ Some edge }
{
    let edge = read_bytes(digits)?;
    match edge.as_slice().last() {
        Some(0) => None,
        _ => Some(edge),
    }
}

impl KeyRange {
    // Promise: A text names one range at most; it is read exactly when it names one, and what a range prints is its name
    // With: KeyRange::fmt, Edge::fmt, one_range
    /// The range that has this text as its name, as `40-80`, `-80` or `-`: an edge has up to 16 lower-case hexadecimal
    /// digits, two a byte, and doesn't end in `00`; an end comes after the begin. `None` if no range has that name.
    /// It takes no memory, and gives back the range of which `Display` wrote the name.
    pub fn read(text: &str) -> Option<KeyRange>
        ensures found { IfSome result (λ range. IsNameOf text.now range) }
        ensures named { (range : KeyRange) → IsNameOf text.now range → result ≡ Some range }
    {
        let (begin, end) = text.split_once('-')?;
        let begin = read_edge(begin.as_bytes())?;
        if end.is_empty() {
            return Some(KeyRange { begin, end: None });
        }
        let end = read_edge(end.as_bytes())?;
        if is_before(begin.as_slice(), end.as_slice()) {
            Some(KeyRange {
                begin,
                end: Some(end),
            })
        } else {
            None
        }
    }
}

/// A text is the name of one range at most.
pub fn one_range()
    ensures { (text : List ℕ) (a b : KeyRange) → IsNameOf text a → IsNameOf text b → a ≡ b }
{}
