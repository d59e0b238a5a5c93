//! Which character sets hold.
ghost use Rattle.std.specs.Prelude.{◌≡◌, ◌≤◌, ◌==◌, not, length};
ghost use Rattle.std.specs.List.{list_any};
ghost use Rattle.sql_lexer.specs.inner.Scanning.{run};
ghost use Rattle.client_statements.specs.tokens.Keywords.{same_in_any_case};
ghost use Rattle.client_statements.specs.Settings.{refused_sets, set_of, is_held_set};

use crate::tokens::same_in_any_case;

/// How many bytes come before the first `_`.
fn set_len(name: &[u8]) -> usize
    ensures value { result ≡ run (λ b. not (b == 0x5F)) name.now }
    ensures within { result ≤ length name.now }
{
    let mut count = 0;
    for byte in name {
        if *byte == b'_' {
            return count;
        }
        count += 1;
    }
    count
}

/// The character set that a name tells.
fn set_of(name: &[u8]) -> &[u8]
    ensures { result.now ≡ set_of name.now }
{
    &name[..set_len(name)]
}

/// Whether texts can't be read by a character set.
fn is_refused(set: &[u8]) -> bool
    ensures { result ≡ list_any (same_in_any_case set.now) refused_sets }
{
    same_in_any_case(set, b"big5")
        || same_in_any_case(set, b"cp932")
        || same_in_any_case(set, b"gb18030")
        || same_in_any_case(set, b"gbk")
        || same_in_any_case(set, b"sjis")
        || same_in_any_case(set, b"ucs2")
        || same_in_any_case(set, b"utf16")
        || same_in_any_case(set, b"utf16le")
        || same_in_any_case(set, b"utf32")
}

/// Whether texts are read rightly by a character set, or by that of a collation.
pub fn is_held_set(name: &[u8]) -> bool
    ensures { result ≡ is_held_set name.now }
{
    !is_refused(set_of(name))
}
