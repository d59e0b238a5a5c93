//! Reads a VSchema from its JSON text: the document, its first fault, then what it means.
use crate::meaning::meant;
use crate::schema::VSchema;
use std::alloc::Global;
use vschema_json::{SchemaFault, first_fault, parse, read_document};

impl VSchema {
    ghost use Rattle.std.specs.Prelude.{◌≡◌, ◌⊎◌, Ok, Err, IfOk, IfErr, IsTrue};
    ghost use Rattle.vschema.specs.Meant.{contents, schema_read};
    ghost use Rattle.vschema.specs.WellFormed.{is_vschema};

    // Promise: A text is the VSchema that it declares, or the fault with the least number that applies; every VSchema is well-formed, as
    // its type keeps
    // With: VSchema::formed, vschema_json::{parse, read_document, first_fault, SchemaFault::number}
    /// The VSchema that a JSON text declares, or the fault with the least number that applies. Besides these it refuses only
    /// for want of memory. Keyspaces, and the tables of each, are in the order of their names.
    pub fn read(alloc: Global, text: &str) -> Result<VSchema, SchemaFault>
        ensures ok { IfOk result (λ schema. schema_read text.now ≡ Ok (contents schema)) }
        ensures err { IfErr result (λ e. (e ≡ SchemaFault.OutOfMemory) ⊎ (schema_read text.now ≡ Err e)) }
        ensures well_formed { IfOk result (λ schema. IsTrue (is_vschema schema)) }
    {
        let value = parse(alloc, text)?;
        let declared = read_document(alloc, &value)?;
        match first_fault(alloc, declared.as_slice())? {
            Some(fault) => Err(fault),
            None => meant(alloc, declared.as_slice()),
        }
    }
}
