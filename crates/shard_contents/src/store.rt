ghost use Rattle.std.specs.Prelude.{◌≡◌};
ghost use Rattle.vschema.specs.Database.{changed_table};

use vschema::RowChange;

/// The ordinal of the table that a change is of.
pub fn changed_table(change: &RowChange) -> usize
    ensures { result ≡ changed_table change.now }
{
    match change {
        RowChange::Added(ordinal, _) => *ordinal,
        RowChange::Replaced(ordinal, _, _) => *ordinal,
        RowChange::Removed(ordinal, _) => *ordinal,
    }
}
