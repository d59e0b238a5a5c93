//! The kinds of tokens that patterns name.
use sql_lexer::{Keyword, Sign, TokenKind};
use vt_value::Comparison;

pub const AND: TokenKind = TokenKind::Keyword(Keyword::And);

pub const ASC: TokenKind = TokenKind::Keyword(Keyword::Asc);

pub const BEGIN: TokenKind = TokenKind::Keyword(Keyword::Begin);

pub const BY: TokenKind = TokenKind::Keyword(Keyword::By);

pub const CLOSE: TokenKind = TokenKind::Sign(Sign::RightParenthesis);

pub const COMMA: TokenKind = TokenKind::Sign(Sign::Comma);

pub const COMMIT: TokenKind = TokenKind::Keyword(Keyword::Commit);

pub const COUNT: TokenKind = TokenKind::Keyword(Keyword::Count);

pub const DELETE: TokenKind = TokenKind::Keyword(Keyword::Delete);

pub const DESC: TokenKind = TokenKind::Keyword(Keyword::Desc);

pub const DOT: TokenKind = TokenKind::Sign(Sign::Dot);

pub const EQUAL: TokenKind = TokenKind::Operator(Comparison::Eq);

pub const FROM: TokenKind = TokenKind::Keyword(Keyword::From);

pub const GROUP: TokenKind = TokenKind::Keyword(Keyword::Group);

pub const IN: TokenKind = TokenKind::Keyword(Keyword::In);

pub const INNER: TokenKind = TokenKind::Keyword(Keyword::Inner);

pub const INSERT: TokenKind = TokenKind::Keyword(Keyword::Insert);

pub const INTO: TokenKind = TokenKind::Keyword(Keyword::Into);

pub const IS: TokenKind = TokenKind::Keyword(Keyword::Is);

pub const JOIN: TokenKind = TokenKind::Keyword(Keyword::Join);

pub const LIMIT: TokenKind = TokenKind::Keyword(Keyword::Limit);

pub const MAX: TokenKind = TokenKind::Keyword(Keyword::Max);

pub const MIN: TokenKind = TokenKind::Keyword(Keyword::Min);

pub const MINUS: TokenKind = TokenKind::Sign(Sign::Minus);

pub const NAMES: TokenKind = TokenKind::Keyword(Keyword::Names);

pub const NOT: TokenKind = TokenKind::Keyword(Keyword::Not);

pub const NULL: TokenKind = TokenKind::Keyword(Keyword::Null);

pub const OFFSET: TokenKind = TokenKind::Keyword(Keyword::Offset);

pub const ON: TokenKind = TokenKind::Keyword(Keyword::On);

pub const OPEN: TokenKind = TokenKind::Sign(Sign::LeftParenthesis);

pub const OR: TokenKind = TokenKind::Keyword(Keyword::Or);

pub const ORDER: TokenKind = TokenKind::Keyword(Keyword::Order);

pub const ROLLBACK: TokenKind = TokenKind::Keyword(Keyword::Rollback);

pub const SELECT: TokenKind = TokenKind::Keyword(Keyword::Select);

pub const SEMICOLON: TokenKind = TokenKind::Sign(Sign::Semicolon);

pub const SET: TokenKind = TokenKind::Keyword(Keyword::Set);

pub const STAR: TokenKind = TokenKind::Sign(Sign::Star);

pub const START: TokenKind = TokenKind::Keyword(Keyword::Start);

pub const SUM: TokenKind = TokenKind::Keyword(Keyword::Sum);

pub const TRANSACTION: TokenKind = TokenKind::Keyword(Keyword::Transaction);

pub const UPDATE: TokenKind = TokenKind::Keyword(Keyword::Update);

pub const VALUES: TokenKind = TokenKind::Keyword(Keyword::Values);

pub const WHERE: TokenKind = TokenKind::Keyword(Keyword::Where);
