//! How much is held.
ghost use Rattle.std.specs.Prelude.{◌≡◌, ◌-◌};
ghost use Rattle.prepared_statements.specs.Held.{size_of};

use vt_value::Items;

/// What all texts may count that are held, and what all long data may: as much as one payload has.
pub const MAX_SIZE: usize = 1 << 20;

/// What a piece counts besides its bytes.
const PIECE_SIZE: usize = 32;

/// What is left of so much after these pieces.
pub(crate) fn left_after(pieces: &[Items<u8>], left: usize) -> usize
    ensures { result ≡ left - size_of pieces.now }
{
    let mut left = left;
    for piece in pieces {
        left = left.saturating_sub(piece.len()).saturating_sub(PIECE_SIZE);
    }
    left
}
