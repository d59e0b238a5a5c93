//! The kinds of tokens that patterns name.
use crate::tokens::{Keyword, Sign, TokenKind};

pub const AS: TokenKind = TokenKind::Word(Some(Keyword::As));

pub const CHARACTER: TokenKind = TokenKind::Word(Some(Keyword::Character));

pub const CHARSET: TokenKind = TokenKind::Word(Some(Keyword::Charset));

pub const COLLATE: TokenKind = TokenKind::Word(Some(Keyword::Collate));

pub const COLUMNS: TokenKind = TokenKind::Word(Some(Keyword::Columns));

pub const COMMITTED: TokenKind = TokenKind::Word(Some(Keyword::Committed));

pub const CONCAT: TokenKind = TokenKind::Word(Some(Keyword::Concat));

pub const CONNECTION_ID: TokenKind = TokenKind::Word(Some(Keyword::ConnectionId));

pub const CONSISTENT: TokenKind = TokenKind::Word(Some(Keyword::Consistent));

pub const CURRENT_USER: TokenKind = TokenKind::Word(Some(Keyword::CurrentUser));

pub const DATABASE: TokenKind = TokenKind::Word(Some(Keyword::Database));

pub const DATABASES: TokenKind = TokenKind::Word(Some(Keyword::Databases));

pub const DESC: TokenKind = TokenKind::Word(Some(Keyword::Desc));

pub const DESCRIBE: TokenKind = TokenKind::Word(Some(Keyword::Describe));

pub const FIELDS: TokenKind = TokenKind::Word(Some(Keyword::Fields));

pub const FROM: TokenKind = TokenKind::Word(Some(Keyword::From));

pub const FULL: TokenKind = TokenKind::Word(Some(Keyword::Full));

pub const GLOBAL: TokenKind = TokenKind::Word(Some(Keyword::Global));

pub const IN: TokenKind = TokenKind::Word(Some(Keyword::In));

pub const ISOLATION: TokenKind = TokenKind::Word(Some(Keyword::Isolation));

pub const LEVEL: TokenKind = TokenKind::Word(Some(Keyword::Level));

pub const LIKE: TokenKind = TokenKind::Word(Some(Keyword::Like));

pub const LIMIT: TokenKind = TokenKind::Word(Some(Keyword::Limit));

pub const LOCAL: TokenKind = TokenKind::Word(Some(Keyword::Local));

pub const NAMES: TokenKind = TokenKind::Word(Some(Keyword::Names));

pub const OFF: TokenKind = TokenKind::Word(Some(Keyword::Off));

pub const ON: TokenKind = TokenKind::Word(Some(Keyword::On));

pub const ONLY: TokenKind = TokenKind::Word(Some(Keyword::Only));

pub const READ: TokenKind = TokenKind::Word(Some(Keyword::Read));

pub const REPEATABLE: TokenKind = TokenKind::Word(Some(Keyword::Repeatable));

pub const SCHEMA: TokenKind = TokenKind::Word(Some(Keyword::Schema));

pub const SCHEMAS: TokenKind = TokenKind::Word(Some(Keyword::Schemas));

pub const SELECT: TokenKind = TokenKind::Word(Some(Keyword::Select));

pub const SESSION: TokenKind = TokenKind::Word(Some(Keyword::Session));

pub const SESSION_USER: TokenKind = TokenKind::Word(Some(Keyword::SessionUser));

pub const SET: TokenKind = TokenKind::Word(Some(Keyword::Set));

pub const SHOW: TokenKind = TokenKind::Word(Some(Keyword::Show));

pub const SNAPSHOT: TokenKind = TokenKind::Word(Some(Keyword::Snapshot));

pub const START: TokenKind = TokenKind::Word(Some(Keyword::Start));

pub const SYSTEM_USER: TokenKind = TokenKind::Word(Some(Keyword::SystemUser));

pub const TABLES: TokenKind = TokenKind::Word(Some(Keyword::Tables));

pub const TRANSACTION: TokenKind = TokenKind::Word(Some(Keyword::Transaction));

pub const UNCOMMITTED: TokenKind = TokenKind::Word(Some(Keyword::Uncommitted));

pub const USE: TokenKind = TokenKind::Word(Some(Keyword::Use));

pub const USER: TokenKind = TokenKind::Word(Some(Keyword::User));

pub const VARIABLES: TokenKind = TokenKind::Word(Some(Keyword::Variables));

pub const VERSION: TokenKind = TokenKind::Word(Some(Keyword::Version));

pub const WARNINGS: TokenKind = TokenKind::Word(Some(Keyword::Warnings));

pub const WITH: TokenKind = TokenKind::Word(Some(Keyword::With));

pub const WRITE: TokenKind = TokenKind::Word(Some(Keyword::Write));

pub const ASSIGN: TokenKind = TokenKind::Sign(Sign::Assign);

pub const EQUAL: TokenKind = TokenKind::Sign(Sign::Equal);

pub const COMMA: TokenKind = TokenKind::Sign(Sign::Comma);

pub const DOT: TokenKind = TokenKind::Sign(Sign::Dot);

pub const OPEN: TokenKind = TokenKind::Sign(Sign::LeftParenthesis);

pub const CLOSE: TokenKind = TokenKind::Sign(Sign::RightParenthesis);

pub const SEMICOLON: TokenKind = TokenKind::Sign(Sign::Semicolon);
