//! Finding the part of a VSchema that has a fault: a small VSchema that has this part alone has the fault too.

use crate::places::place::Place;
use crate::places::texts::{fault_of, of_keyspace, of_table, with_table, without_tables};
use serde_json::Value;
use std::alloc::{AllocError, Global};

/// The members of a keyspace and of a table.
const OF_KEYSPACE: [&str; 3] = ["sharded", "vindexes", "tables"];

const OF_TABLE: [&str; 3] = ["columns", "primary_key", "column_vindexes"];

/// A column, a primary key and a list that have no fault.
const SOUND_COLUMNS: &str = "[{\"name\":\"x\",\"type\":\"BIGINT\"}]";

const SOUND_KEY: &str = "[\"x\"]";

/// The numbers of faults that lie in one member.
const ILL_FORMED: u8 = 2;

const MISSING_COLUMN: u8 = 4;

const NULLABLE_KEY: u8 = 6;

const NAMED_TWICE: u8 = 8;

const ABOVE_LIMIT: u8 = 9;

/// The most columns of a table.
const MOST_COLUMNS: usize = 64;

fn is_among(name: &str, known: &[&str]) -> bool {
    for word in known {
        if name.as_bytes() == word.as_bytes() {
            return true;
        }
    }
    false
}

/// The first member of an object that is none of these.
fn unknown_member<'v>(value: &'v Value, known: &[&str]) -> Option<&'v str> {
    for (name, _) in value.as_object()? {
        if !is_among(name.as_str(), known) {
            return Some(name.as_str());
        }
    }
    None
}

/// The text of a member; an empty array if there is none.
fn member_text(alloc: Global, value: &Value, name: &str) -> Result<String, AllocError> {
    match value.get(name) {
        Some(member) => member.to_string(alloc),
        None => String::from_str(alloc, "[]"),
    }
}

/// Whether the columns and the primary key of a table have a fault by themselves.
fn has_alone(alloc: Global, number: u8, columns: &str, key: &str) -> Result<bool, AllocError> {
    Ok(fault_of(alloc, &of_table(alloc, columns, key)?) == Some(number))
}

/// How many elements a member has.
fn len_of(value: &Value, name: &str) -> usize {
    match value.get(name).and_then(Value::as_array) {
        Some(elements) => elements.len(),
        None => 0,
    }
}

/// Which member of a table has the fault.
fn member_of_table(alloc: Global, number: u8, table: &Value) -> Result<&'static str, AllocError> {
    let columns = member_text(alloc, table, "columns")?;
    let key = member_text(alloc, table, "primary_key")?;
    let in_columns = match number {
        ILL_FORMED => has_alone(alloc, number, &columns, SOUND_KEY)?,
        NAMED_TWICE => true,
        ABOVE_LIMIT => len_of(table, "columns") > MOST_COLUMNS,
        _ => false,
    };
    let in_key = match number {
        ILL_FORMED => has_alone(alloc, number, SOUND_COLUMNS, &key)?,
        MISSING_COLUMN | NULLABLE_KEY => has_alone(alloc, number, &columns, &key)?,
        _ => false,
    };
    Ok(if in_columns {
        "columns"
    } else if in_key {
        "primary_key"
    } else {
        "column_vindexes"
    })
}

/// Which member of a keyspace has the fault, with or without its tables.
fn member_of_keyspace(number: u8, keyspace: &Value) -> &'static str {
    let has_flag = keyspace.get("sharded").is_some_and(Value::is_boolean);
    if number == ILL_FORMED && !has_flag {
        "sharded"
    } else if number == ILL_FORMED && !keyspace.get("tables").is_some_and(Value::is_object) {
        "tables"
    } else {
        "vindexes"
    }
}

fn put(text: &mut String, name: &str) -> Result<(), AllocError> {
    text.push_str(name)
}

/// Finds the table of a keyspace that has the fault, and its member.
fn find_in_keyspace(
    alloc: Global,
    number: u8,
    name: &str,
    keyspace: &Value,
    place: &mut Place,
) -> Result<(), AllocError> {
    put(&mut place.keyspace, name)?;
    let bare = of_keyspace(alloc, name, &without_tables(alloc, keyspace)?)?;
    let tables = keyspace.get("tables").and_then(Value::as_object);
    let Some(tables) = tables else {
        return put(&mut place.member, member_of_keyspace(number, keyspace));
    };
    if fault_of(alloc, &bare) == Some(number) {
        let unknown = unknown_member(keyspace, &OF_KEYSPACE);
        return put(
            &mut place.member,
            unknown.unwrap_or(member_of_keyspace(number, keyspace)),
        );
    }
    // Whether a table is ill-formed doesn't depend on vindexes. With any other number all vindexes have a known type, whose word is short.
    let has_vindexes = number != ILL_FORMED;
    for (table, value) in tables {
        let alone = with_table(alloc, keyspace, table.as_str(), value, has_vindexes)?;
        if fault_of(alloc, &of_keyspace(alloc, "k", &alone)?) == Some(number) {
            put(&mut place.table, table.as_str())?;
            let member = match unknown_member(value, &OF_TABLE) {
                Some(unknown) if number == ILL_FORMED => unknown,
                _ => member_of_table(alloc, number, value)?,
            };
            return put(&mut place.member, member);
        }
    }
    Ok(())
}

/// What a text means, if it is JSON; else where it stops to be.
fn find_end(alloc: Global, text: &str, place: &mut Place) -> Option<Value> {
    match Value::from_str(alloc, text) {
        Ok(value) => Some(value),
        Err(error) => {
            place.line = error.line() as u64;
            place.column = error.column() as u64;
            None
        }
    }
}

/// Where the fault with this number lies in a VSchema's text, found in time n log n: in the first keyspace that has it alone, and there in the
/// first table; else in no keyspace, as that of two keyspaces with a table of one name.
pub fn place_of(alloc: Global, text: &str, number: u8) -> Result<Place, AllocError> {
    let mut place = Place::whole(alloc);
    let Some(value) = find_end(alloc, text, &mut place) else {
        return Ok(place);
    };
    let Some(keyspaces) = value.get("keyspaces").and_then(Value::as_object) else {
        put(&mut place.member, "keyspaces")?;
        return Ok(place);
    };
    for (name, keyspace) in keyspaces {
        let alone = of_keyspace(alloc, name.as_str(), &keyspace.to_string(alloc)?)?;
        if fault_of(alloc, &alone) == Some(number) {
            find_in_keyspace(alloc, number, name.as_str(), keyspace, &mut place)?;
            return Ok(place);
        }
    }
    Ok(place)
}
