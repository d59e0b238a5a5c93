//! The kinds of tokens that patterns name.
use client_statements::tokens::{Keyword, Sign, TokenKind};

pub const AND: TokenKind = TokenKind::Word(Some(Keyword::And));

pub const AS: TokenKind = TokenKind::Word(Some(Keyword::As));

pub const BEGIN: TokenKind = TokenKind::Word(Some(Keyword::Begin));

pub const BETWEEN: TokenKind = TokenKind::Word(Some(Keyword::Between));

pub const COMMIT: TokenKind = TokenKind::Word(Some(Keyword::Commit));

pub const COUNT: TokenKind = TokenKind::Word(Some(Keyword::Count));

pub const DISTINCT: TokenKind = TokenKind::Word(Some(Keyword::Distinct));

pub const IN: TokenKind = TokenKind::Word(Some(Keyword::In));

pub const INNER: TokenKind = TokenKind::Word(Some(Keyword::Inner));

pub const INSERT: TokenKind = TokenKind::Word(Some(Keyword::Insert));

pub const INTO: TokenKind = TokenKind::Word(Some(Keyword::Into));

pub const JOIN: TokenKind = TokenKind::Word(Some(Keyword::Join));

pub const LIMIT: TokenKind = TokenKind::Word(Some(Keyword::Limit));

pub const NOT: TokenKind = TokenKind::Word(Some(Keyword::Not));

pub const NULL: TokenKind = TokenKind::Word(Some(Keyword::Null));

pub const ROLLBACK: TokenKind = TokenKind::Word(Some(Keyword::Rollback));

pub const VALUE: TokenKind = TokenKind::Word(Some(Keyword::Value));

pub const VALUES: TokenKind = TokenKind::Word(Some(Keyword::Values));

pub const WORK: TokenKind = TokenKind::Word(Some(Keyword::Work));

pub const DELETE: TokenKind = TokenKind::Word(Some(Keyword::Delete));

pub const FROM: TokenKind = TokenKind::Word(Some(Keyword::From));

pub const GROUP: TokenKind = TokenKind::Word(Some(Keyword::Group));

pub const ORDER: TokenKind = TokenKind::Word(Some(Keyword::Order));

pub const SELECT: TokenKind = TokenKind::Word(Some(Keyword::Select));

pub const SET: TokenKind = TokenKind::Word(Some(Keyword::Set));

pub const UPDATE: TokenKind = TokenKind::Word(Some(Keyword::Update));

pub const WHERE: TokenKind = TokenKind::Word(Some(Keyword::Where));

pub const COMMA: TokenKind = TokenKind::Sign(Sign::Comma);

pub const EQUAL: TokenKind = TokenKind::Sign(Sign::Equal);

pub const DOT: TokenKind = TokenKind::Sign(Sign::Dot);

pub const OPEN: TokenKind = TokenKind::Sign(Sign::LeftParenthesis);

pub const CLOSE: TokenKind = TokenKind::Sign(Sign::RightParenthesis);

pub const MINUS: TokenKind = TokenKind::Sign(Sign::Minus);

pub const SEMICOLON: TokenKind = TokenKind::Sign(Sign::Semicolon);

pub const STAR: TokenKind = TokenKind::Sign(Sign::Star);
