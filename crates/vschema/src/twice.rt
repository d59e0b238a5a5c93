//! Whether SET names a column twice, in time n log n, whatever the names are.
ghost use Rattle.std.specs.Prelude.{◌≡◌, map, IfOk};
ghost use Rattle.vschema.specs.WriteChecks.{sets_twice};

use sql_tree::{Assignment, Name};
use std::alloc::{AllocError, Global};
use vschema_json::is_one_twice;

fn columns_of(alloc: Global, assignments: &[Assignment<Name>]) -> Result<Vec<&[u8]>, AllocError>
    ensures { IfOk result (λ texts. map (λ n. n.now) texts.items ≡ map (λ a. a.column) assignments.now) }
{
    let mut texts = Vec::new(alloc);
    for assignment in assignments {
        texts.push(assignment.column.as_slice())?;
    }
    Ok(texts)
}

fn is_column_twice(alloc: Global, assignments: &[Assignment<Name>]) -> Result<bool, AllocError>
    ensures { IfOk result (λ twice. twice ≡ sets_twice assignments.now) }
{
    let texts = columns_of(alloc, assignments)?;
    is_one_twice(alloc, &texts)
}

/// Whether SET names a column twice. Refuses only for want of memory, and takes none for one column.
pub fn sets_twice(alloc: Global, assignments: &[Assignment<Name>]) -> Result<bool, AllocError>
    ensures { IfOk result (λ twice. twice ≡ sets_twice assignments.now) }
{
    match assignments {
        [_] => Ok(false),
        _ => is_column_twice(alloc, assignments),
    }
}
