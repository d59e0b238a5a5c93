//! Lines of records.
use jiff::Timestamp;
use log::kv::With;
use log::{Level, LevelFilter, Metadata, Record};
use program_log::lines::{LogLine, asked_level, line_of};
use std::alloc::Global;
use vt_value::Refusal;

/// Milliseconds from the beginning of 1970 to 2026-11-27T22:46:05.120Z.
const MOMENT: i64 = 1_795_819_565_120;

/// The instant of the scenes.
pub(crate) fn moment() -> Timestamp {
    Timestamp::from_millisecond(MOMENT).unwrap_or(Timestamp::UNIX_EPOCH)
}

/// The line of a login by this user.
pub(crate) fn login(alloc: Global, user: &str) -> Result<LogLine, Refusal> {
    let number = With {
        before: (),
        key: "number",
        value: 7u32,
    };
    let pairs = With {
        before: number,
        key: "user",
        value: user,
    };
    let told = Record::new(Metadata::new(Level::Info, ""), "login", pairs, ());
    Ok(line_of(alloc, moment(), &told)?)
}

fn is_line(line: &LogLine, wanted: &str) -> bool {
    line.as_bytes() == wanted.as_bytes()
}

/// A line has its time, its level, its event and its fields.
pub(crate) fn line_tells_its_fields(alloc: Global) -> Result<bool, Refusal> {
    let line = login(alloc, "app")?;
    Ok(is_line(
        &line,
        "2026-11-27T22:46:05.120Z info login number=7 user=app\n",
    ))
}

/// A user whose name has a break, a blank, a quote, `=`, a backslash and a byte outside ASCII, and one without a name.
pub(crate) fn no_value_ends_a_line(alloc: Global) -> Result<bool, Refusal> {
    let hostile = login(alloc, "a\n b=\"\\\u{e9}")?;
    let empty = login(alloc, "")?;
    let is_shown = is_line(
        &hostile,
        "2026-11-27T22:46:05.120Z info login number=7 user=\"a\\u000a b=\\\"\\\\\\u00c3\\u00a9\"\n",
    );
    let is_quoted = is_line(
        &empty,
        "2026-11-27T22:46:05.120Z info login number=7 user=\"\"\n",
    );
    Ok(is_shown && is_quoted)
}

/// Levels by their names, in any case; no other word names one.
pub(crate) fn values_name_their_levels() -> bool {
    asked_level("") == Some(LevelFilter::Off)
        && asked_level("off") == Some(LevelFilter::Off)
        && asked_level("error") == Some(LevelFilter::Error)
        && asked_level("Warn") == Some(LevelFilter::Warn)
        && asked_level("INFO") == Some(LevelFilter::Info)
        && asked_level("debug") == Some(LevelFilter::Debug)
        && asked_level("loud") == None
        && asked_level("info ") == None
}
