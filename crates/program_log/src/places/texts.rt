//! The texts of small VSchemas, which have one part of a larger one.

use serde_json::{Map, Value};
use std::alloc::{AllocError, Global};
use vschema_json::{first_fault, parse, read_document};

/// The number of the fault of a text; none if it has none, or there is no memory.
pub(crate) fn fault_of(alloc: Global, text: &str) -> Option<u8> {
    let value = parse(alloc, text).ok()?;
    match read_document(alloc, &value) {
        Ok(keyspaces) => first_fault(alloc, keyspaces.as_slice()).ok()??.number(),
        Err(fault) => fault.number(),
    }
}

/// A member of an object as a text.
fn member(alloc: Global, name: &str, value: &str) -> Result<String, AllocError> {
    let name = Value::String(String::from_str(alloc, name)?).to_string(alloc)?;
    format!(in alloc; "{name}:{value}")
}

/// A VSchema of one keyspace.
pub(crate) fn of_keyspace(alloc: Global, name: &str, keyspace: &str) -> Result<String, AllocError> {
    let keyspace = member(alloc, name, keyspace)?;
    format!(in alloc; "{{\"keyspaces\":{{{keyspace}}}}}")
}

/// A keyspace with the other members of one and no table.
pub(crate) fn without_tables(alloc: Global, keyspace: &Value) -> Result<String, AllocError> {
    let mut text = String::from_str(alloc, "{\"tables\":{}")?;
    if let Some(members) = keyspace.as_object() {
        for (name, value) in members {
            if name.as_str() != "tables" {
                text.push_str(",")?;
                text.push_str(&member(alloc, name.as_str(), &value.to_string(alloc)?)?)?;
            }
        }
    }
    text.push_str("}")?;
    Ok(text)
}

/// The vindexes that a table names, each once, as an object. An element that names none that is there is left out.
fn named_vindexes(alloc: Global, vindexes: &Value, table: &Value) -> Result<Value, AllocError> {
    let mut named = Map::new(alloc);
    let elements = table.get("column_vindexes").and_then(Value::as_array);
    if let Some(elements) = elements {
        for element in elements.as_slice() {
            if let Some(name) = element.get("name").and_then(Value::as_str) {
                if let Some(vindex) = vindexes.get(name) {
                    named.insert(String::from_str(alloc, name)?, vindex.clone()?)?;
                }
            }
        }
    }
    Ok(Value::Object(named))
}

/// A keyspace with one of its tables alone, and with the vindexes that this table names, or none of them. So what is written for all tables
/// together is about as long as the keyspace.
pub(crate) fn with_table(
    alloc: Global,
    keyspace: &Value,
    name: &str,
    table: &Value,
    has_vindexes: bool,
) -> Result<String, AllocError> {
    let alone = member(alloc, name, &table.to_string(alloc)?)?;
    let mut text = format!(in alloc; "{{\"tables\":{{{alone}}}")?;
    if let Some(flag) = keyspace.get("sharded") {
        text.push_str(",\"sharded\":")?;
        text.push_str(&flag.to_string(alloc)?)?;
    }
    if let Some(vindexes) = keyspace.get("vindexes") {
        let named = if has_vindexes {
            named_vindexes(alloc, vindexes, table)?
        } else {
            Value::Object(Map::new(alloc))
        };
        text.push_str(",\"vindexes\":")?;
        text.push_str(&named.to_string(alloc)?)?;
    }
    text.push_str("}")?;
    Ok(text)
}

/// A VSchema of one table in an unsharded keyspace, with these columns and this primary key.
pub(crate) fn of_table(alloc: Global, columns: &str, key: &str) -> Result<String, AllocError> {
    let table = format!(in alloc; "{{\"columns\":{columns},\"primary_key\":{key}}}")?;
    let keyspace = format!(in alloc; "{{\"sharded\":false,\"tables\":{{\"t\":{table}}}}}")?;
    of_keyspace(alloc, "k", &keyspace)
}
