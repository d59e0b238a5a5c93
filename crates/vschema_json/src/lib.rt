//! The document that declares a VSchema, read from JSON, and the faults that a VSchema may have.
#![tactic(auto)]

mod column;
mod document;
mod fault;
mod faults;
mod indexes;
mod json;
mod lookups;
mod name_ordinals;
mod names;
mod parts;
mod reading;
mod twice;
mod whole;
mod words;

pub use column::{Column, ColumnType};
pub use document::{DeclaredKey, DeclaredKeyspace, DeclaredTable, DeclaredVindex};
pub use fault::SchemaFault;
pub use faults::first_fault;
pub use lookups::{keys, ordinal_of, vindex_of, vindexes};
pub use names::{is_name, ordinal_among};
pub use reading::{parse, read_document};
pub use twice::{has_twice, is_one_twice};
pub use vindex::{AnyVindex, is_one_vindex};
pub use words::is_word;
