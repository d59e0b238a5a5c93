//! The values whose shards a statement needs, of which an INSERT of one row has one.
ghost use Rattle.std.specs.Prelude.{◌≡◌, ◌⊎◌, ◌∷◌, [], map};
ghost use Rattle.planner.specs.inner.Needed.{kept_values};

use crate::members::{InValue, InValues};
use std::marker::Model;
use vt_value::Value;

/// One value, which takes no allocation, or those of an IN or of rows.
#[derive(Drop)]
pub(crate) enum Kept {
    One(Value),
    Many(InValues),
}

/// The values of the vindex column whose shards a statement needs. Contracts see the list of the values.
pub struct NeededValues {
    kept: Kept,
}

impl Drop for NeededValues {
    // Who drops one calls this, and need not know what it owns.
    fn drop(self) {
        let NeededValues { kept } = self;
        drop(kept);
    }
}

impl Model for NeededValues {
    ghost use Rattle.std.specs.Prelude.{List};
    ghost use Rattle.std.specs.Coded.{coded_list};
    ghost use Rattle.vt_value.specs.declared.value.Value.{Value as V};
    ghost use Rattle.vt_value.specs.contracts.value.Value as value;
    ghost use Rattle.planner.specs.inner.Needed.{kept_values};

    ghost Value = { List V };

    ghost coded = { coded_list value.the_row.coded };

    ghost view = { λ n. kept_values n.kept };
}

impl NeededValues {
    pub(crate) fn one(value: Value) -> NeededValues
        ensures { result ≡ value ∷ [] }
    {
        NeededValues {
            kept: Kept::One(value),
        }
    }

    pub(crate) fn many(values: InValues) -> NeededValues
        ensures { result ≡ values }
    {
        NeededValues {
            kept: Kept::Many(values),
        }
    }

    /// The one value, or the list of them.
    pub(crate) fn kept(&self) -> &Kept
        ensures { kept_values result.now ≡ self.now }
    {
        &self.kept
    }

    /// The values with their ids, which one value has not.
    pub(crate) fn members(&self) -> &[InValue]
        ensures { (map (λ m. m.value) result.now ≡ self.now) ⊎ (result.now ≡ []) }
    {
        match &self.kept {
            Kept::One(_) => &[],
            Kept::Many(values) => values.as_slice(),
        }
    }
}
