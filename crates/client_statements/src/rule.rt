//! Which settings a client may make, and with which values.
ghost use Rattle.std.specs.Prelude.{◌≡◌, ◌+◌, ◌<◌, ◌≤◌, ◌==◌, not, length, drop};
ghost use Rattle.sql_lexer.specs.inner.Scanning.{run};
ghost use Rattle.std.specs.List.{list_any};
ghost use Rattle.client_statements.specs.tokens.Keywords.{same_in_any_case};
ghost use Rattle.client_statements.specs.Settings.{free_settings, set_settings, held_modes, is_held_mode, are_held_modes, rule_of};

use crate::tokens::same_in_any_case;
use crate::variable::{Variable, variable_of};

/// The values of a setting that hold.
#[derive(Clone, Copy, Debug, PartialEq, Eq)]
pub enum Rule {
    /// Of `autocommit`: on and off.
    Switch,
    /// Of `sql_mode`: modes whose rule holds.
    Modes,
    /// Of a character set or a collation: those by which texts are read rightly.
    CharacterSet,
    /// Any.
    AnyValue,
    /// The value of the variable.
    ItsValue(Variable),
}

/// Whether a setting is one of a character set or of a collation.
fn is_of_set(name: &[u8]) -> bool
    ensures { result ≡ list_any (same_in_any_case name.now) set_settings }
{
    same_in_any_case(name, b"character_set_client")
        || same_in_any_case(name, b"character_set_connection")
        || same_in_any_case(name, b"character_set_results")
        || same_in_any_case(name, b"character_set_server")
        || same_in_any_case(name, b"collation_connection")
        || same_in_any_case(name, b"collation_server")
}

/// Whether any value of a setting holds.
fn is_free(name: &[u8]) -> bool
    ensures { result ≡ list_any (same_in_any_case name.now) free_settings }
{
    same_in_any_case(name, b"session_track_gtids")
        || same_in_any_case(name, b"session_track_schema")
        || same_in_any_case(name, b"session_track_state_change")
        || same_in_any_case(name, b"session_track_system_variables")
        || same_in_any_case(name, b"session_track_transaction_info")
}

/// Whether the rule of a mode holds.
fn is_mode(mode: &[u8]) -> bool
    ensures { result ≡ list_any (same_in_any_case mode.now) held_modes }
{
    same_in_any_case(mode, b"STRICT_TRANS_TABLES")
        || same_in_any_case(mode, b"STRICT_ALL_TABLES")
        || same_in_any_case(mode, b"TRADITIONAL")
        || same_in_any_case(mode, b"ONLY_FULL_GROUP_BY")
        || same_in_any_case(mode, b"NO_ZERO_IN_DATE")
        || same_in_any_case(mode, b"NO_ZERO_DATE")
        || same_in_any_case(mode, b"ERROR_FOR_DIVISION_BY_ZERO")
        || same_in_any_case(mode, b"NO_ENGINE_SUBSTITUTION")
        || same_in_any_case(mode, b"NO_AUTO_VALUE_ON_ZERO")
        || same_in_any_case(mode, b"NO_AUTO_CREATE_USER")
}

/// Whether no mode is named, or one whose rule holds.
fn is_held_mode(mode: &[u8]) -> bool
    ensures { result ≡ is_held_mode mode.now }
{
    mode.is_empty() || is_mode(mode)
}

/// How many bytes come before the first comma.
fn part_len(text: &[u8]) -> usize
    ensures value { result ≡ run (λ b. not (b == 0x2C)) text.now }
    ensures within { result ≤ length text.now }
{
    let mut count = 0;
    for byte in text {
        if *byte == b',' {
            return count;
        }
        count += 1;
    }
    count
}

/// The bytes after the one at a position.
fn text_after(text: &[u8], at: usize) -> &[u8]
    requires { at < length text.now }
    ensures { result.now ≡ drop (at + 1) text.now }
{
    &text[at + 1..]
}

/// Whether the rule of each mode of a text holds.
pub fn are_held_modes(text: &[u8]) -> bool
    ensures { result ≡ are_held_modes text.now }
{
    let mut rest = text;
    loop {
        let count = part_len(rest);
        if !is_held_mode(&rest[..count]) {
            return false;
        }
        if count >= rest.len() {
            return true;
        }
        rest = text_after(rest, count);
    }
}

/// Which values of a setting hold.
#[tactic(auto, unfolding(crate::specs::Settings::rule_of))]
pub fn rule_of(name: &[u8]) -> Option<Rule>
    ensures { result ≡ rule_of name.now }
{
    if same_in_any_case(name, b"autocommit") {
        Some(Rule::Switch)
    } else if same_in_any_case(name, b"sql_mode") {
        Some(Rule::Modes)
    } else if is_of_set(name) {
        Some(Rule::CharacterSet)
    } else if is_free(name) {
        Some(Rule::AnyValue)
    } else {
        let variable = variable_of(name)?;
        Some(Rule::ItsValue(variable))
    }
}
