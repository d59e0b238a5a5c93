//! What a statement is, by its first word.
ghost use Rattle.std.specs.Prelude.{◌≡◌, take_while};
ghost use Rattle.std.specs.Char.{is_ascii_alphanumeric};
ghost use Rattle.std.specs.Str.{str_eq_ignore_ascii_case};
ghost use Rattle.status_figures.specs.Words.{BeginsWithWord, kind_besides_rows, kind_named, kind_over_rows};

/// What a statement is.
#[derive(Clone, Copy)]
pub enum Kind {
    Select,
    Insert,
    Update,
    Delete,
    Begin,
    Commit,
    Rollback,
    Set,
    Show,
    /// A text with holes that is prepared.
    Prepare,
    /// A prepared one that is executed.
    Execute,
    Other,
}

/// All kinds, by number.
pub const KINDS: [Kind; 12] = [
    Kind::Select,
    Kind::Insert,
    Kind::Update,
    Kind::Delete,
    Kind::Begin,
    Kind::Commit,
    Kind::Rollback,
    Kind::Set,
    Kind::Show,
    Kind::Prepare,
    Kind::Execute,
    Kind::Other,
];

/// How many comments before a statement are passed over.
const COMMENTS: u32 = 8;

impl Kind {
    ghost use Rattle.std.specs.Prelude.{◌≡◌, ◌<◌};
    ghost use Rattle.status_figures.specs.Layout.{kind_name, kind_number};

    /// Its position among all kinds.
    pub fn number(self) -> usize
        ensures number { result ≡ kind_number self }
        ensures few { result < 12 }
    {
        match self {
            Kind::Select => 0,
            Kind::Insert => 1,
            Kind::Update => 2,
            Kind::Delete => 3,
            Kind::Begin => 4,
            Kind::Commit => 5,
            Kind::Rollback => 6,
            Kind::Set => 7,
            Kind::Show => 8,
            Kind::Prepare => 9,
            Kind::Execute => 10,
            Kind::Other => 11,
        }
    }

    /// Its name.
    pub fn name(self) -> &'static str
        ensures { result.now ≡ kind_name self }
    {
        match self {
            Kind::Select => "select",
            Kind::Insert => "insert",
            Kind::Update => "update",
            Kind::Delete => "delete",
            Kind::Begin => "begin",
            Kind::Commit => "commit",
            Kind::Rollback => "rollback",
            Kind::Set => "set",
            Kind::Show => "show",
            Kind::Prepare => "prepare",
            Kind::Execute => "execute",
            Kind::Other => "other",
        }
    }
}

// The bytes after the blanks in front.
fn after_blanks(text: &[u8]) -> &[u8] {
    text.trim_ascii_start()
}

// The bytes after the comment that these begin with, if they do.
fn after_comment(text: &[u8]) -> Option<&[u8]> {
    let [b'/', b'*', rest @ ..] = text else {
        return None;
    };
    for end in 0..rest.len() {
        if let Some([b'*', b'/', after @ ..]) = rest.get(end..) {
            return Some(after);
        }
    }
    Some(&[])
}

// The statement without the blanks and comments before it.
fn statement_in(text: &[u8]) -> &[u8] {
    let mut rest = after_blanks(text);
    for _ in 0..COMMENTS {
        match after_comment(rest) {
            Some(after) => rest = after_blanks(after),
            None => return rest,
        }
    }
    rest
}

// The letters and digits that a text begins with.
fn first_word(text: &[u8]) -> &[u8]
    ensures { result.now ≡ take_while is_ascii_alphanumeric text.now }
{
    for end in 0..text.len() {
        if !text[end].is_ascii_alphanumeric() {
            return &text[..end];
        }
    }
    text
}

// Whether a word is another, in any case.
fn is_word(word: &[u8], other: &[u8]) -> bool
    ensures { result ≡ str_eq_ignore_ascii_case word.now other.now }
{
    word.eq_ignore_ascii_case(other)
}

// The kind of a statement that changes or reads rows, by its first word.
fn kind_of_rows(word: &[u8]) -> Option<Kind>
    ensures { result ≡ kind_over_rows word.now }
{
    if is_word(word, b"select") {
        return Some(Kind::Select);
    }
    if is_word(word, b"insert") {
        return Some(Kind::Insert);
    }
    if is_word(word, b"update") {
        return Some(Kind::Update);
    }
    if is_word(word, b"delete") {
        return Some(Kind::Delete);
    }
    None
}

// The kind of another statement, by its first word.
fn kind_of_other(word: &[u8]) -> Kind
    ensures { result ≡ kind_besides_rows word.now }
{
    if is_word(word, b"begin") || is_word(word, b"start") {
        return Kind::Begin;
    }
    if is_word(word, b"commit") {
        return Kind::Commit;
    }
    if is_word(word, b"rollback") {
        return Kind::Rollback;
    }
    if is_word(word, b"set") {
        return Kind::Set;
    }
    if is_word(word, b"show") {
        return Kind::Show;
    }
    Kind::Other
}

// The kind of a statement, by its first word.
fn kind_of_word(word: &[u8]) -> Kind
    ensures { result ≡ kind_named word.now }
{
    match kind_of_rows(word) {
        Some(kind) => kind,
        None => kind_of_other(word),
    }
}

// The text without the blanks and comments before it, if it begins with any.
fn from_first_word(text: &[u8]) -> &[u8]
    ensures { BeginsWithWord text.now → result.now ≡ text.now }
{
    match text.first() {
        Some(byte) if byte.is_ascii_alphanumeric() => text,
        _ => statement_in(text),
    }
}

// Promise: A statement is counted as the kind that its first word names, in any case
/// What the text of a statement is, by its first word. Blanks and some comments before it are passed over.
pub fn kind_of(text: &[u8]) -> Kind
    ensures word { BeginsWithWord text.now → result ≡ kind_named (take_while is_ascii_alphanumeric text.now) }
{
    kind_of_word(first_word(from_first_word(text)))
}
