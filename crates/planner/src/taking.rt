ghost use Rattle.std.specs.Prelude.{◌≡◌, ◌&&◌, [], List, IsTrue, false, Some, IfOk, IfNone, IfSome};
ghost use Rattle.std.specs.List.{list_any};
ghost use Rattle.keyrange.specs.declared.KeyRange.{KeyRange};
ghost use Rattle.keyrange.specs.Ranges.{has_id};
ghost use Rattle.vindex.specs.Ksids.{ksid_bytes};
ghost use Rattle.vt_value.specs.declared.value.Value.{Value};
ghost use Rattle.planner.specs.inner.Spans.{AllIn};
ghost use Rattle.planner.specs.declared.routes.Route.{Route};
ghost use Rattle.planner.specs.Routes.{id_of, is_sharded, takes, taken_ordinals};

use crate::members::{InValue, InValues, KnownId};
use crate::needed::{Kept, NeededValues};
use crate::routes::Route;
use crate::spans::{Span, misses};
use keyrange::KeyRange;
use std::alloc::{AllocError, Global};
use vindex::Ksid;
use vschema::{ColumnVindex, Table};
use vt_value::Value;

/// Whether the keyspace id of a value of the vindex column lies in the range.
pub fn has_value(table: &Table, range: &KeyRange, value: &Value) -> bool
    ensures { result ≡ has_id range.now (id_of table.now value.now) }
{
    let Some(vindex) = table.vindex else {
        return range.contains(&[]);
    };
    match vindex.vindex.map(value) {
        Some(id) => range.contains(id.as_slice()),
        None => range.contains(&[]),
    }
}

/// Whether the keyspace id of a member of IN, which may be known already, lies in the range.
pub fn has_member(table: &Table, range: &KeyRange, member: &InValue) -> bool
    ensures { result ≡ has_id range.now (id_of table.now member.now.value) }
{
    match (table.vindex, &member.id) {
        (Some(vindex), KnownId::Eight(id)) if vindex.vindex == member.vindex => range.contains(id),
        (Some(vindex), KnownId::Sixteen(id)) if vindex.vindex == member.vindex => {
            range.contains(id)
        }
        _ => has_value(table, range, &member.value),
    }
}

fn has_one_of(table: &Table, range: &KeyRange, members: &[InValue]) -> bool
    ensures { result ≡ list_any (λ m. has_id range.now (id_of table.now m.value)) members.now }
{
    members
        .iter()
        .any(|member| has_member(table, range, member))
}

// Whether a range holds no id of the span by the table's vindex.
fn lies_outside(table: &Table, range: &KeyRange, span: Option<Span>) -> bool
    ensures { IsTrue result → (values : List Value) → IfSome span (AllIn values) → list_any (λ v. has_id range.now (id_of table.now v)) values ≡ false }
{
    match (table.vindex, &span) {
        (Some(vindex), Some(span)) if vindex.vindex == span.vindex => misses(span, range),
        _ => false,
    }
}

fn has_one_among(table: &Table, range: &KeyRange, values: &InValues) -> bool
    ensures { result ≡ list_any (λ v. has_id range.now (id_of table.now v)) values.now }
{
    if lies_outside(table, range, values.span()) {
        return false;
    }
    has_one_of(table, range, values.as_slice())
}

fn needs_range(table: &Table, range: &KeyRange, values: &NeededValues) -> bool
    ensures { result ≡ list_any (λ v. has_id range.now (id_of table.now v)) values.now }
{
    match values.kept() {
        Kept::One(value) => has_value(table, range, value),
        Kept::Many(values) => has_one_among(table, range, values),
    }
}

/// Whether the route of a statement on the table takes the shard of a range.
pub fn takes(table: &Table, route: &Route, range: &KeyRange) -> bool
    ensures { result ≡ takes table.now route.now range.now }
{
    match route {
        Route::Unsharded => range.contains(&[]),
        Route::None => false,
        Route::Scatter => true,
        Route::EqualUnique(value) => has_value(table, range, value),
        Route::In(values) => needs_range(table, range, values),
    }
}

fn lone_member_id<'r>(table: &Table, vindex: ColumnVindex, values: &'r InValues) -> Option<Ksid<'r>>
    requires vindex { table.now.vindex ≡ Some vindex }
    ensures { IfSome result (λ id. (range : KeyRange) → list_any (λ v. has_id range (id_of table.now v)) values.now ≡ has_id range (ksid_bytes id)) }
{
    match values.as_slice() {
        [member] => vindex.vindex.map(&member.value),
        _ => None,
    }
}

// The keyspace id of a value that is the only one, if it has one.
fn lone_id<'r>(table: &Table, vindex: ColumnVindex, values: &'r NeededValues) -> Option<Ksid<'r>>
    requires vindex { table.now.vindex ≡ Some vindex }
    ensures { IfSome result (λ id. (range : KeyRange) → list_any (λ v. has_id range (id_of table.now v)) values.now ≡ has_id range (ksid_bytes id)) }
{
    match values.kept() {
        Kept::One(value) => vindex.vindex.map(value),
        Kept::Many(values) => lone_member_id(table, vindex, values),
    }
}

/// The keyspace id of the one value that the route needs, made once for all shards; `None` where it needs another number of values, and
/// where that value has no id of its own.
pub fn single_id<'r>(table: &Table, route: &'r Route) -> Option<Ksid<'r>>
    ensures id { IfSome result (λ id. (range : KeyRange) → takes table.now route.now range ≡ has_id range (ksid_bytes id)) }
    ensures none { IfNone result ((value : Value) → route.now ≡ Route.EqualUnique value → id_of table.now value ≡ []) }
{
    match (table.vindex, route) {
        (Some(vindex), Route::EqualUnique(value)) => vindex.vindex.map(value),
        (Some(vindex), Route::In(values)) => lone_id(table, vindex, values),
        _ => None,
    }
}

/// `takes`, by the id that `single_id` gave for the table and the route.
pub fn takes_by(table: &Table, route: &Route, id: &Option<Ksid>, range: &KeyRange) -> bool
    requires { IfSome id.now (λ id. (range : KeyRange) → takes table.now route.now range ≡ has_id range (ksid_bytes id)) }
    ensures { result ≡ takes table.now route.now range.now }
{
    match id {
        Some(id) => range.contains(id.as_slice()),
        None => takes(table, route, range),
    }
}

fn takes_sharded(table: &Table, route: &Route, range: &KeyRange) -> bool
    ensures { result ≡ is_sharded route.now && takes table.now route.now range.now }
{
    match route {
        Route::Unsharded => false,
        _ => takes(table, route, range),
    }
}

/// The ordinals of the sharded keyspace's ranges that the route of a statement on the table takes, in their order: none for a table of the
/// unsharded keyspace. Refuses only for want of memory.
pub fn shards(
    alloc: Global,
    table: &Table,
    route: &Route,
    ranges: &[KeyRange],
) -> Result<Vec<usize>, AllocError>
    ensures ok { IfOk result (λ ordinals. ordinals.items ≡ taken_ordinals table.now route.now ranges.now) }
    ensures unsharded { IfOk result (λ ordinals. route.now ≡ Route.Unsharded → ordinals.items ≡ []) }
{
    let mut ordinals = Vec::new(alloc);
    for (ordinal, range) in ranges.iter().enumerate() {
        if takes_sharded(table, route, range) {
            ordinals.push(ordinal)?;
        }
    }
    Ok(ordinals)
}
