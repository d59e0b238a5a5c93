//! The values of an IN, each with its keyspace id, which is made once for all ranges.
ghost use Rattle.std.specs.Prelude.{◌≡◌, ◌++◌, ◌∷◌, [], ◌↔◌, map, IsTrue, IfOk, IfSome, OnOk};
ghost use Rattle.planner.specs.inner.Spans.{AllIn};
ghost use Rattle.planner.specs.KnownIds.{IsIdOf};

use crate::spans::{Span, span_with};
use std::alloc::{AllocError, Global};
use std::marker::Model;
use vindex::{AnyVindex, Ksid};
use vt_value::Value;

/// The keyspace id of a value, where it was made before.
#[derive(Clone, Copy)]
pub enum KnownId {
    Eight([u8; 8]),
    Sixteen([u8; 16]),
    /// The value's own bytes, or that of no key.
    Unknown,
}

/// A value of the vindex column, with its keyspace id by a vindex.
#[derive(Drop)]
pub struct InValue {
    pub(crate) value: Value,
    pub(crate) vindex: AnyVindex,
    pub(crate) id: KnownId,
    ghost right: { IsIdOf vindex value id },
}

fn known_id(vindex: AnyVindex, value: &Value) -> KnownId
    ensures { IsIdOf vindex value.now result }
{
    match vindex.map(value) {
        Some(Ksid::Eight(bytes)) => KnownId::Eight(bytes),
        Some(Ksid::Sixteen(bytes)) => KnownId::Sixteen(bytes),
        _ => KnownId::Unknown,
    }
}

/// The values of an IN on the vindex column. Contracts see the list of the values.
pub struct InValues {
    list: Vec<InValue>,
    /// Where all their ids lie, if this is known.
    span: Option<Span>,
}

impl Drop for InValues {
    // Who drops one calls this, and need not know what it owns.
    fn drop(self) {
        let InValues { list, span } = self;
        drop(list);
        drop(span);
    }
}

impl Model for InValues {
    ghost use Rattle.std.specs.Prelude.{List, map, IfSome};
    ghost use Rattle.planner.specs.inner.Spans.{AllIn};
    ghost use Rattle.std.specs.Coded.{coded_list};
    ghost use Rattle.vt_value.specs.declared.value.Value.{Value as V};
    ghost use Rattle.vt_value.specs.contracts.value.Value as value;

    ghost Value = { List V };

    ghost coded = { coded_list value.the_row.coded };

    ghost view = { λ m. map (λ x. x.value) m.list.items };

    ghost invariant = { λ m. IfSome m.span (AllIn (map (λ x. x.value) m.list.items)) };
}

impl InValues {
    /// No values.
    pub fn new(alloc: Global) -> InValues
        ensures { result ≡ [] }
    {
        InValues {
            list: Vec::new(alloc),
            span: None,
        }
    }

    /// No values, with room for so many. Refuses only for want of memory.
    pub(crate) fn with_capacity(alloc: Global, capacity: usize) -> Result<InValues, AllocError>
        ensures { IfOk result (λ values. values ≡ []) }
    {
        Ok(InValues {
            list: Vec::with_capacity(alloc, capacity)?,
            span: None,
        })
    }

    /// Adds a value of the column that this vindex is on. Refuses only for want of memory.
    pub fn push(&mut self, vindex: AnyVindex, value: Value) -> Result<(), AllocError>
        ensures { OnOk result (self.new ≡ self.old ++ value ∷ []) }
    {
        let id = known_id(vindex, &value);
        let span = span_with(self.span, self.list.is_empty(), vindex, id);
        self.list.push(InValue { value, vindex, id })?;
        self.span = span;
        Ok(())
    }

    pub fn is_empty(&self) -> bool
        ensures { IsTrue result ↔ (self.now ≡ []) }
    {
        self.list.is_empty()
    }

    /// Where all their ids lie, if this is known.
    pub(crate) fn span(&self) -> Option<Span>
        ensures { IfSome result (AllIn self.now) }
    {
        self.span
    }

    /// The values with their ids.
    pub(crate) fn as_slice(&self) -> &[InValue]
        ensures { map (λ m. m.value) result.now ≡ self.now }
    {
        self.list.as_slice()
    }
}
