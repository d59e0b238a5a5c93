//! Reads arrays, objects and flags of JSON values. A member of another name than those that are known is a fault.
ghost use Rattle.std.specs.Prelude.{◌≡◌, List, ℕ, Option, Some, None, IfOk, IfErr, map, bytes_eq, false};
ghost use Rattle.std.specs.List.{list_all, list_any};
ghost use Rattle.serde_json.specs.Data.{Data};
ghost use Rattle.serde_json.specs.Find.{get, as_bool};
ghost use Rattle.serde_json.specs.View.{view, members_view};
ghost use Rattle.vschema_json.specs.Json.{all_some, array_of, object_of, named_values, members_in, has_only, needed_member, optional};
ghost use Rattle.vschema_json.specs.Twice.{has_twice};
ghost use Rattle.vschema_json.specs.Refused.{IsFaultOf};

use crate::fault::SchemaFault;
use serde_json::{Map, Value};
use std::alloc::Global;
use vindex::Items;

/// What is read from an element of an array.
pub trait Element: Sized + Drop {
    ghost reads: { Data → Option Self };

    fn read(alloc: Global, value: &Value) -> Result<Self, SchemaFault>
        ensures ok { IfOk result (λ x. reads (view value.now) ≡ Some x) }
        ensures err { IfErr result (λ e. IsFaultOf e (reads (view value.now))) };
}

/// What is read from a member of an object.
pub trait Member: Sized + Drop {
    ghost reads: { List ℕ → Data → Option Self };

    fn read(alloc: Global, name: &str, value: &Value) -> Result<Self, SchemaFault>
        ensures ok { IfOk result (λ x. reads name.now (view value.now) ≡ Some x) }
        ensures err { IfErr result (λ e. IsFaultOf e (reads name.now (view value.now))) };
}

fn read_elements<T: Element>(alloc: Global, elements: &[Value]) -> Result<Items<T>, SchemaFault>
    ensures ok { IfOk result (λ xs. all_some (map (λ v. T.reads (view v)) elements.now) ≡ Some xs) }
    ensures err { IfErr result (λ e. IsFaultOf e (all_some (map (λ v. T.reads (view v)) elements.now))) }
{
    let mut found = Items::new(alloc);
    for element in elements {
        found.push(T::read(alloc, element)?)?;
    }
    Ok(found)
}

/// An array, element by element.
pub fn read_array<T: Element>(alloc: Global, value: &Value) -> Result<Items<T>, SchemaFault>
    ensures ok { IfOk result (λ xs. array_of T.reads (view value.now) ≡ Some xs) }
    ensures err { IfErr result (λ e. IsFaultOf e (array_of T.reads (view value.now))) }
{
    match value.as_array() {
        Some(elements) => read_elements(alloc, elements.as_slice()),
        None => Err(SchemaFault::IllFormed),
    }
}

fn read_members<T: Member>(
    alloc: Global,
    members: &Map<String, Value>,
) -> Result<Items<T>, SchemaFault>
    ensures ok { IfOk result (λ xs. all_some (map (λ m. T.reads m.0 m.1) (named_values (members_view members.now.entries))) ≡ Some xs) }
    ensures err { IfErr result (λ e. IsFaultOf e (all_some (map (λ m. T.reads m.0 m.1) (named_values (members_view members.now.entries))))) }
    ensures distinct { has_twice (map (λ m. m.0) (named_values (members_view members.now.entries))) ≡ false }
{
    let mut found = Items::new(alloc);
    for (name, value) in members.iter() {
        found.push(T::read(alloc, name.as_str(), value)?)?;
    }
    Ok(found)
}

/// An object, member by member.
pub fn read_object<T: Member>(alloc: Global, value: &Value) -> Result<Items<T>, SchemaFault>
    ensures ok { IfOk result (λ xs. object_of T.reads (view value.now) ≡ Some xs) }
    ensures err { IfErr result (λ e. IsFaultOf e (object_of T.reads (view value.now))) }
    ensures distinct { has_twice (map (λ m. m.0) (members_in (view value.now))) ≡ false }
{
    match value.as_object() {
        Some(members) => read_members(alloc, members),
        None => Err(SchemaFault::IllFormed),
    }
}

fn is_one_of(name: &str, names: &[&str]) -> bool
    ensures { result ≡ list_any (λ n. bytes_eq name.now n.now) names.now }
{
    names.iter().any(|other| name == *other)
}

#[tactic(auto, using(crate::proofs::Lists::list_any_map))]
fn all_named(members: &Map<String, Value>, names: &[&str]) -> bool
    ensures { result ≡ list_all (λ m. list_any (bytes_eq m.0) (map (λ n. n.now) names.now))
        (named_values (members_view members.now.entries)) }
{
    for (name, _) in members.iter() {
        if !is_one_of(name.as_str(), names) {
            return false;
        }
    }
    true
}

/// Whether no member has another name than these.
pub fn has_only(value: &Value, names: &[&str]) -> bool
    ensures { result ≡ has_only (map (λ n. n.now) names.now) (view value.now) }
{
    match value.as_object() {
        Some(members) => all_named(members, names),
        None => true,
    }
}

/// A member that has to be there.
pub fn needed<'v>(value: &'v Value, name: &str) -> Result<&'v Value, SchemaFault>
    ensures ok { IfOk result (λ v. get name.now (view value.now) ≡ Some (view v.now)) }
    ensures err { IfErr result (λ e. (e ≡ SchemaFault.IllFormed) × (get name.now (view value.now) ≡ None)) }
{
    match value.get(name) {
        Some(found) => Ok(found),
        None => Err(SchemaFault::IllFormed),
    }
}

/// True or false.
pub fn read_flag(value: &Value) -> Result<bool, SchemaFault>
    ensures ok { IfOk result (λ b. as_bool (view value.now) ≡ Some b) }
    ensures err { IfErr result (λ e. (e ≡ SchemaFault.IllFormed) × (as_bool (view value.now) ≡ None)) }
{
    match value.as_bool() {
        Some(flag) => Ok(flag),
        None => Err(SchemaFault::IllFormed),
    }
}

/// True or false, if there is such a member.
pub fn optional_flag(value: &Value, name: &str) -> Result<Option<bool>, SchemaFault>
    ensures ok { IfOk result (λ b. optional as_bool name.now (view value.now) ≡ Some b) }
    ensures err { IfErr result (λ e. IsFaultOf e (optional as_bool name.now (view value.now))) }
{
    match value.get(name) {
        Some(flag) => Ok(Some(read_flag(flag)?)),
        None => Ok(None),
    }
}

/// An array that has to be there.
pub fn needed_array<T: Element>(
    alloc: Global,
    value: &Value,
    name: &str,
) -> Result<Items<T>, SchemaFault>
    ensures ok { IfOk result (λ xs. needed_member (array_of T.reads) name.now (view value.now) ≡ Some xs) }
    ensures err { IfErr result (λ e. IsFaultOf e (needed_member (array_of T.reads) name.now (view value.now))) }
{
    read_array(alloc, needed(value, name)?)
}

/// An array, if there is such a member.
pub fn optional_array<T: Element>(
    alloc: Global,
    value: &Value,
    name: &str,
) -> Result<Option<Items<T>>, SchemaFault>
    ensures ok { IfOk result (λ xs. optional (array_of T.reads) name.now (view value.now) ≡ Some xs) }
    ensures err { IfErr result (λ e. IsFaultOf e (optional (array_of T.reads) name.now (view value.now))) }
{
    match value.get(name) {
        Some(found) => Ok(Some(read_array(alloc, found)?)),
        None => Ok(None),
    }
}

/// An object that has to be there.
pub fn needed_object<T: Member>(
    alloc: Global,
    value: &Value,
    name: &str,
) -> Result<Items<T>, SchemaFault>
    ensures ok { IfOk result (λ xs. needed_member (object_of T.reads) name.now (view value.now) ≡ Some xs) }
    ensures err { IfErr result (λ e. IsFaultOf e (needed_member (object_of T.reads) name.now (view value.now))) }
{
    read_object(alloc, needed(value, name)?)
}

/// An object, if there is such a member.
pub fn optional_object<T: Member>(
    alloc: Global,
    value: &Value,
    name: &str,
) -> Result<Option<Items<T>>, SchemaFault>
    ensures ok { IfOk result (λ xs. optional (object_of T.reads) name.now (view value.now) ≡ Some xs) }
    ensures err { IfErr result (λ e. IsFaultOf e (optional (object_of T.reads) name.now (view value.now))) }
{
    match value.get(name) {
        Some(found) => Ok(Some(read_object(alloc, found)?)),
        None => Ok(None),
    }
}
