//! A text's JSON value, and what it declares.
ghost use Rattle.std.specs.Prelude.{◌≡◌, ◌⊎◌, Some, None, IfOk, IfErr, map, false};
ghost use Rattle.serde_json.specs.Read.{read as read_json};
ghost use Rattle.serde_json.specs.View.{view};
ghost use Rattle.vschema_json.specs.Documents.{document};
ghost use Rattle.vschema_json.specs.Twice.{has_twice};
ghost use Rattle.vschema_json.specs.Refused.{IsFaultOf};

use crate::document::DeclaredKeyspace;
use crate::fault::SchemaFault;
use crate::json::{has_only, needed, read_object};
use serde_json::Value;
use std::alloc::Global;
use vindex::Items;

/// The JSON value that a text is.
pub fn parse(alloc: Global, text: &str) -> Result<Value, SchemaFault>
    ensures ok { IfOk result (λ v. read_json text.now ≡ Some (view v)) }
    ensures err { IfErr result (λ e. (e ≡ SchemaFault.OutOfMemory) ⊎ ((e ≡ SchemaFault.NotJson) × (read_json text.now ≡ None))) }
{
    match Value::from_str(alloc, text) {
        Ok(value) => Ok(value),
        Err(error) if error.is_memory() => Err(SchemaFault::OutOfMemory),
        Err(_) => Err(SchemaFault::NotJson),
    }
}

/// The keyspaces that a JSON value declares. An object has each name once.
pub fn read_document(alloc: Global, value: &Value) -> Result<Items<DeclaredKeyspace>, SchemaFault>
    ensures ok { IfOk result (λ ks. document (view value.now) ≡ Some ks) }
    ensures err { IfErr result (λ e. IsFaultOf e (document (view value.now))) }
    ensures distinct { IfOk result (λ ks. has_twice (map (λ k. k.name) ks) ≡ false) }
{
    if !has_only(value, &["keyspaces"]) {
        return Err(SchemaFault::IllFormed);
    }
    read_object(alloc, needed(value, "keyspaces")?)
}
