//! A table's columns, found by name without a walk over all.
ghost use Rattle.std.specs.Prelude.{◌≡◌, not, ◌++◌, ◌∷◌, [], bytes_eq, length, IfOk, OnOk, OnErr, OnSome, if◌then◌else◌};
ghost use Rattle.std.specs.List.{list_any};
ghost use Rattle.std.specs.Option.{option_copied};
ghost use Rattle.vschema.specs.Schema.{ordinal_from};

use indexmap::IndexSet;
use sql_tree::Name;
use std::alloc::{AllocError, Global};
use std::marker::Model;
use vschema_json::{Column, ordinal_among};

/// Up to so many columns a name is compared with each, which takes less time than its hash.
const FEW: usize = 8;

/// The columns of a table in their order, each name once, found by name. Contracts see the list of the columns.
#[derive(Drop)]
pub struct Columns {
    by_name: IndexSet<Column>,
}

impl Model for Columns {
    ghost use Rattle.std.specs.Prelude.{List};
    ghost use Rattle.std.specs.Coded.{coded_list};
    ghost use Rattle.vschema_json.specs.declared.column.Column.{Column};
    ghost use Rattle.vschema_json.specs.contracts.column.Column as column;

    ghost Value = { List Column };

    ghost coded = { coded_list column.the_row.coded };

    ghost view = { λ c. c.by_name.keys };
}

impl Columns {
    // Promise: The columns of a table are kept in their order and found by name; one whose name is there isn't added; only memory refuses
    // one
    // With: Columns::{insert, as_slice, len, ordinal_of}
    /// No columns.
    pub fn new(alloc: Global) -> Columns
        ensures { result ≡ [] }
    {
        Columns {
            by_name: IndexSet::new(alloc),
        }
    }

    /// Adds a column after the others, unless one has its name, and returns whether it did. Refuses for want of memory; then nothing
    /// has changed.
    pub fn insert(&mut self, column: Column) -> Result<bool, AllocError>
        ensures columns { OnOk result (self.new ≡ (if list_any (λ c. bytes_eq column.name c.name) self.old then self.old else self.old ++ column ∷ [])) }
        ensures added { IfOk result (λ added. added ≡ not (list_any (λ c. bytes_eq column.name c.name) self.old)) }
        ensures err { OnErr result (self.new ≡ self.old) }
    {
        Ok(self.by_name.insert(column)?)
    }

    /// The columns, in their order.
    pub fn as_slice(&self) -> &[Column]
        ensures { result.now ≡ self.now }
    {
        self.by_name.as_slice()
    }

    /// How many columns there are.
    pub fn len(&self) -> usize
        ensures { result ≡ length self.now }
    {
        self.by_name.len()
    }

    /// The ordinal of the column with this name.
    pub fn ordinal_of(&self, name: &Name) -> Option<usize>
        ensures { result ≡ ordinal_from (λ c. bytes_eq c.name name.now) 0 self.now }
    {
        if self.by_name.len() <= FEW {
            return ordinal_among(self.by_name.as_slice(), name);
        }
        self.by_name.get_index_of(name.as_slice())
    }
}
