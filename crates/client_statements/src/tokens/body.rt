//! Where a text in quotes ends.
ghost use Rattle.std.specs.Prelude.{◌≡◌, ◌≤◌, length, IfSome};
ghost use Rattle.client_statements.specs.declared.tokens.body.TextState.TheVariants.{Inside};
ghost use Rattle.client_statements.specs.tokens.inner.Scanning.{after_byte, text_len};

/// The state of a scan of a text in quotes.
#[derive(Clone, Copy, Debug, PartialEq, Eq)]
pub enum TextState {
    Inside,
    /// After a quote, which closes the text or is the first of a pair.
    AfterQuote,
    /// After a backslash, which escapes the next byte.
    AfterBackslash,
}

/// The state after a byte, unless the text ended before it.
fn after_byte(quote: u8, state: TextState, byte: u8) -> Option<TextState>
    ensures { result ≡ after_byte quote state byte }
{
    match state {
        TextState::Inside if byte == quote => Some(TextState::AfterQuote),
        TextState::Inside if byte == b'\\' => Some(TextState::AfterBackslash),
        TextState::AfterQuote if byte != quote => None,
        _ => Some(TextState::Inside),
    }
}

/// How many bytes a text has after its first quote, if it is closed.
#[tactic(auto, unfolding(crate::specs::tokens::inner::Scanning::text_len))]
pub fn text_len(quote: u8, bytes: &[u8]) -> Option<usize>
    ensures value { result ≡ text_len quote 0 Inside bytes.now }
    ensures within { IfSome result (λ n. n ≤ length bytes.now) }
{
    let mut state = TextState::Inside;
    for (count, byte) in bytes.iter().enumerate() {
        let Some(next) = after_byte(quote, state, *byte) else {
            return Some(count);
        };
        state = next;
    }
    if state == TextState::AfterQuote {
        Some(bytes.len())
    } else {
        None
    }
}
