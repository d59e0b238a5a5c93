//! The lines that pieces of an input end.
ghost use Rattle.std.specs.Prelude.{◌≡◌, ◌++◌, IfSome, IfNone};
ghost use Rattle.vtgate_lines.specs.Lines.{HasNoEnd};
ghost use Rattle.vtgate_lines.specs.Printed.{line};

use vtgate_lines::next_line;

/// The first line that a piece ends, without the byte 0A that ends it, and what follows it. `None` if the piece ends none.
pub(crate) fn ended_line(piece: &[u8]) -> Option<(&[u8], &[u8])>
    ensures inner { IfSome result (λ x. HasNoEnd x.0.now) }
    ensures found { IfSome result (λ x. piece.now ≡ line x.0.now ++ x.1.now) }
    ensures none { IfNone result (HasNoEnd piece.now) }
{
    let (front, rest) = next_line(piece)?;
    if front.len() == piece.len() {
        return None;
    }
    Some((front, rest))
}
