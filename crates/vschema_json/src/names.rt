//! Names, which are compared byte by byte.
ghost use Rattle.std.specs.Prelude.{◌≡◌, bytes_eq};
ghost use Rattle.vschema_json.specs.Places.{ordinal_from};

use crate::column::Column;
use sql_tree::Name;

/// Whether the name is this one.
pub fn is_name(name: &Name, wanted: &Name) -> bool
    ensures { result ≡ bytes_eq name.now wanted.now }
{
    name.as_slice() == wanted.as_slice()
}

/// The ordinal of the first column with this name.
pub fn ordinal_among(columns: &[Column], name: &Name) -> Option<usize>
    ensures { result ≡ ordinal_from (λ c. bytes_eq c.name name.now) 0 columns.now }
{
    for (ordinal, column) in columns.iter().enumerate() {
        if is_name(&column.name, name) {
            return Some(ordinal);
        }
    }
    None
}
