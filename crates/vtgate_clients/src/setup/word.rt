//! The words of a command line.
ghost use Rattle.std.specs.Prelude.{◌≡◌, Some, None, IfSome, IfNone};
ghost use Rattle.std.specs.Str.{IsUtf8};
ghost use Rattle.vtgate_clients.specs.setup.Words.{word_bytes, word_text};

/// A word of the command line: a text, or bytes that aren't UTF-8.
#[derive(Drop)]
pub enum Word {
    Text(String),
    Bytes(Vec<u8>),
}

impl Word {
    /// The word that these bytes are.
    pub fn new(bytes: Vec<u8>) -> Word
        ensures bytes { word_bytes result ≡ bytes.items }
        ensures text { IsUtf8 bytes.items → word_text result ≡ Some bytes.items }
    {
        match String::from_utf8(bytes) {
            Ok(text) => Word::Text(text),
            Err(error) => Word::Bytes(error.into_bytes()),
        }
    }

    /// The text, unless it isn't UTF-8.
    pub fn text(&self) -> Option<&str>
        ensures some { IfSome result (λ t. word_text self.now ≡ Some t.now) }
        ensures none { IfNone result (word_text self.now ≡ None) }
    {
        match self {
            Word::Text(text) => Some(text.as_str()),
            Word::Bytes(_) => None,
        }
    }

    pub fn as_bytes(&self) -> &[u8]
        ensures { result.now ≡ word_bytes self.now }
    {
        match self {
            Word::Text(text) => text.as_bytes(),
            Word::Bytes(bytes) => bytes,
        }
    }
}
