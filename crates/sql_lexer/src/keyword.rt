//! The keywords, in any case.
ghost use Rattle.std.specs.Prelude.{◌≡◌, true};
ghost use Rattle.std.specs.List.{find, list_all};
ghost use Rattle.sql_lexer.specs.Keywords.{keyword_text};
ghost use Rattle.sql_lexer.specs.Lexemes.{is_word_byte, is_spelling_of, is_keyword};
ghost use Rattle.sql_lexer.specs.inner.Scanning.{keyword_at, code_from, has_code, short_keywords};

use crate::token::Keyword;

const KEYWORDS: [Keyword; 35] = [
    Keyword::And,
    Keyword::Asc,
    Keyword::Begin,
    Keyword::By,
    Keyword::Commit,
    Keyword::Count,
    Keyword::Delete,
    Keyword::Desc,
    Keyword::From,
    Keyword::Group,
    Keyword::In,
    Keyword::Inner,
    Keyword::Insert,
    Keyword::Into,
    Keyword::Is,
    Keyword::Join,
    Keyword::Limit,
    Keyword::Max,
    Keyword::Min,
    Keyword::Names,
    Keyword::Not,
    Keyword::Null,
    Keyword::Offset,
    Keyword::On,
    Keyword::Or,
    Keyword::Order,
    Keyword::Rollback,
    Keyword::Select,
    Keyword::Set,
    Keyword::Start,
    Keyword::Sum,
    Keyword::Transaction,
    Keyword::Update,
    Keyword::Values,
    Keyword::Where,
];

/// How many bytes a word has at most whose code is that of no other word.
const MAX_CODED: usize = 8;

/// The keyword in upper case.
fn text_of(keyword: Keyword) -> &'static str
    ensures { result.now ≡ keyword_text keyword }
{
    match keyword {
        Keyword::And => "AND",
        Keyword::Asc => "ASC",
        Keyword::Begin => "BEGIN",
        Keyword::By => "BY",
        Keyword::Commit => "COMMIT",
        Keyword::Count => "COUNT",
        Keyword::Delete => "DELETE",
        Keyword::Desc => "DESC",
        Keyword::From => "FROM",
        Keyword::Group => "GROUP",
        Keyword::In => "IN",
        Keyword::Inner => "INNER",
        Keyword::Insert => "INSERT",
        Keyword::Into => "INTO",
        Keyword::Is => "IS",
        Keyword::Join => "JOIN",
        Keyword::Limit => "LIMIT",
        Keyword::Max => "MAX",
        Keyword::Min => "MIN",
        Keyword::Names => "NAMES",
        Keyword::Not => "NOT",
        Keyword::Null => "NULL",
        Keyword::Offset => "OFFSET",
        Keyword::On => "ON",
        Keyword::Or => "OR",
        Keyword::Order => "ORDER",
        Keyword::Rollback => "ROLLBACK",
        Keyword::Select => "SELECT",
        Keyword::Set => "SET",
        Keyword::Start => "START",
        Keyword::Sum => "SUM",
        Keyword::Transaction => "TRANSACTION",
        Keyword::Update => "UPDATE",
        Keyword::Values => "VALUES",
        Keyword::Where => "WHERE",
    }
}

fn is_spelling_of(word: &[u8], keyword: Keyword) -> bool
    ensures { result ≡ is_spelling_of word.now keyword }
{
    word.eq_ignore_ascii_case(text_of(keyword).as_bytes())
}

/// The keyword of at most 8 bytes that has this code: its bytes, the first the highest.
#[inline(always)]
fn with_code(code: u64) -> Option<Keyword>
    ensures { result ≡ find (has_code code) short_keywords }
{
    match code {
        0x41_4E_44 => Some(Keyword::And),
        0x41_53_43 => Some(Keyword::Asc),
        0x42_45_47_49_4E => Some(Keyword::Begin),
        0x42_59 => Some(Keyword::By),
        0x43_4F_4D_4D_49_54 => Some(Keyword::Commit),
        0x43_4F_55_4E_54 => Some(Keyword::Count),
        0x44_45_4C_45_54_45 => Some(Keyword::Delete),
        0x44_45_53_43 => Some(Keyword::Desc),
        0x46_52_4F_4D => Some(Keyword::From),
        0x47_52_4F_55_50 => Some(Keyword::Group),
        0x49_4E => Some(Keyword::In),
        0x49_4E_4E_45_52 => Some(Keyword::Inner),
        0x49_4E_53_45_52_54 => Some(Keyword::Insert),
        0x49_4E_54_4F => Some(Keyword::Into),
        0x49_53 => Some(Keyword::Is),
        0x4A_4F_49_4E => Some(Keyword::Join),
        0x4C_49_4D_49_54 => Some(Keyword::Limit),
        0x4D_41_58 => Some(Keyword::Max),
        0x4D_49_4E => Some(Keyword::Min),
        0x4E_41_4D_45_53 => Some(Keyword::Names),
        0x4E_4F_54 => Some(Keyword::Not),
        0x4E_55_4C_4C => Some(Keyword::Null),
        0x4F_46_46_53_45_54 => Some(Keyword::Offset),
        0x4F_4E => Some(Keyword::On),
        0x4F_52 => Some(Keyword::Or),
        0x4F_52_44_45_52 => Some(Keyword::Order),
        0x52_4F_4C_4C_42_41_43_4B => Some(Keyword::Rollback),
        0x53_45_4C_45_43_54 => Some(Keyword::Select),
        0x53_45_54 => Some(Keyword::Set),
        0x53_54_41_52_54 => Some(Keyword::Start),
        0x53_55_4D => Some(Keyword::Sum),
        0x55_50_44_41_54_45 => Some(Keyword::Update),
        0x56_41_4C_55_45_53 => Some(Keyword::Values),
        0x57_48_45_52_45 => Some(Keyword::Where),
        _ => None,
    }
}

/// The keyword that the word with this code is in some case.
#[inline(always)]
pub fn keyword_of(word: &[u8], code: u64) -> Option<Keyword>
    requires bytes { list_all is_word_byte word.now ≡ true }
    requires code { code ≡ code_from 0 word.now }
    ensures { result ≡ keyword_at word.now }
{
    if word.len() <= MAX_CODED {
        with_code(code)
    } else if is_spelling_of(word, Keyword::Transaction) {
        Some(Keyword::Transaction)
    } else {
        None
    }
}

// Promise: A word is a keyword exactly when it is one in some case
/// Whether the word is a keyword in some case, so that as an identifier it is in backquotes.
pub fn is_keyword(word: &[u8]) -> bool
    ensures { result ≡ is_keyword word.now }
{
    KEYWORDS
        .iter()
        .any(|keyword| is_spelling_of(word, *keyword))
}
