//! Whether a text ends after a statement, which is within its limits.
ghost use Rattle.std.specs.Prelude.{◌≡◌, ◌+◌, ◌&&◌, not, nat_le, ℕ, List, length, sum_by};
ghost use Rattle.sql_lexer.specs.Endings.{is_end};
ghost use Rattle.sql_lexer.specs.Lexemes.{lexemes_of};
ghost use Rattle.sql_tree.specs.Literals.{filter_literals};
ghost use Rattle.sql_parser.specs.Grammar.{max_literals};
ghost use Rattle.sql_parser.specs.Qualifiers.{filter_is_qualified};

use crate::counting::{filter_has_few_literals, rows_have_few_literals};
use crate::qualifiers::filter_is_qualified;
use sql_lexer::{Token, is_end};
use sql_tree::{ColumnName, Condition};
use vt_value::{Items, Value};

/// Whether a SELECT with this filter and with this after it is a whole text.
pub fn ends_select(filter: &Option<Condition<ColumnName>>, rest: &[Token]) -> bool
    ensures { (text : List ℕ)
        → result ≡ (is_end (lexemes_of text rest.now) && nat_le (filter_literals filter.now) max_literals) }
{
    is_end(rest) && filter_has_few_literals(filter, 0)
}

/// Whether an INSERT of these rows with this after it is a whole text.
pub fn ends_insert(rows: &[Items<Value>], rest: &[Token]) -> bool
    ensures { (text : List ℕ)
        → result ≡ (is_end (lexemes_of text rest.now) && nat_le (sum_by length rows.now) max_literals) }
{
    is_end(rest) && rows_have_few_literals(rows)
}

/// Whether an UPDATE or a DELETE with so many literals before its filter, and with this after it, is a whole text. No column
/// of the filter is qualified.
pub fn ends_change(before: usize, filter: &Option<Condition<ColumnName>>, rest: &[Token]) -> bool
    ensures { (text : List ℕ)
        → result
        ≡ (is_end (lexemes_of text rest.now)
        && nat_le (before + filter_literals filter.now) max_literals
        && not (filter_is_qualified filter.now)) }
{
    is_end(rest) && filter_has_few_literals(filter, before) && !filter_is_qualified(filter)
}
