//! The level that the environment asks for.
ghost use Rattle.std.specs.Prelude.{◌≡◌, Some, None, Err, IfOk};
ghost use Rattle.program_log.specs.lines.Levels.{level_asked};

use log::LevelFilter;
use std::env::FillError;
use std::rt::Env;
use std::str;

/// The variable of the environment that asks for a level.
pub const VARIABLE: &str = "VTGATE_LOG";

/// More bytes than the name of a level has.
const LONGEST_VALUE: usize = 16;

// Promise: The value of `VTGATE_LOG` asks for the level that it names, in any case; the empty value asks for `off`, and any other for none
/// The level that a value of the variable asks for, if it names one.
pub fn asked_level(value: &str) -> Option<LevelFilter>
    ensures { result ≡ level_asked value.now }
{
    if value.is_empty() {
        return Some(LevelFilter::Off);
    }
    match value.parse::<LevelFilter>() {
        Ok(level) => Some(level),
        Err(_) => None,
    }
}

// Promise: The log's level is the one that `VTGATE_LOG` names, if what the environment told of it is handed on: `off` if it isn't set, and none
// if its value is too long
/// The level that was asked for, by what was found of the variable: `off` if it isn't set, and none if its value is too long or names no level.
pub fn found_level(found: Result<&str, FillError>) -> Option<LevelFilter>
    ensures set { IfOk found.entry (λ value. result ≡ level_asked value.now) }
    ensures unset { found.entry ≡ Err FillError.NotPresent → result ≡ Some LevelFilter.Off }
    ensures long { found.entry ≡ Err FillError.TooLong → result ≡ None }
{
    match found {
        Ok(value) => asked_level(value),
        Err(FillError::NotPresent) => Some(LevelFilter::Off),
        Err(FillError::TooLong) => None,
    }
}

/// The level that the environment asks for. A value that isn't UTF-8 names none, as one that is too long.
pub fn environment_level<R: Env>(rt: &R) -> Option<LevelFilter> {
    let mut value = [0u8; LONGEST_VALUE];
    let found = match rt.var(VARIABLE, &mut value) {
        Ok(len) => str::from_utf8(&value[..len]).map_err(|_| FillError::TooLong),
        Err(error) => Err(error),
    };
    found_level(found)
}
