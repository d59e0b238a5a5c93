//! Cuts a text at its holes.
ghost use Rattle.std.specs.Prelude.{◌≡◌, ℕ, List, [], ◌∷◌, ◌++◌, IfOk, OnOk};
ghost use Rattle.prepared_statements.specs.declared.cutting.Place.{Place};
ghost use Rattle.prepared_statements.specs.Texts.{place_after, is_outside, is_hole, pieces_of};
ghost use Rattle.prepared_statements.specs.inner.Cutting.{cut_onto};

use crate::bytes::first_byte;
use std::alloc::{AllocError, Global};
use std::mem;
use vt_value::Items;

/// Where a byte of a text stands: outside of quotes, between them, or after a backslash there.
#[derive(Clone, Copy, Debug, PartialEq, Eq)]
pub enum Place {
    Outside,
    Inside,
    Escaped,
}

fn place_after(place: Place, byte: u8) -> Place
    ensures { result ≡ place_after place byte }
{
    match place {
        Place::Outside => {
            if byte == b'\'' {
                Place::Inside
            } else {
                Place::Outside
            }
        }
        Place::Inside => {
            if byte == b'\'' {
                Place::Outside
            } else if byte == b'\\' {
                Place::Escaped
            } else {
                Place::Inside
            }
        }
        Place::Escaped => Place::Inside,
    }
}

fn is_outside(place: Place) -> bool
    ensures { result ≡ is_outside place }
{
    match place {
        Place::Outside => true,
        Place::Inside | Place::Escaped => false,
    }
}

fn is_hole(place: Place, byte: u8) -> bool
    ensures { result ≡ is_hole place byte }
{
    is_outside(place) && byte == b'?'
}

/// The pieces that are cut off, the first bytes of the next, and where the byte after them stands.
#[derive(Drop)]
struct Cutting {
    pieces: Items<Items<u8>>,
    piece: Items<u8>,
    place: Place,
}

impl Cutting {
    /// Takes the next byte.
    fn take(&mut self, alloc: Global, byte: u8) -> Result<(), AllocError>
        ensures ok { OnOk result ((bytes : List ℕ) → cut_onto self.new.pieces self.new.piece self.new.place bytes
            ≡ cut_onto self.old.pieces self.old.piece self.old.place (byte ∷ bytes)) }
    {
        if is_hole(self.place, byte) {
            let piece = mem::replace(&mut self.piece, Items::new(alloc));
            self.pieces.push(piece)?;
            self.place = Place::Outside;
            return Ok(());
        }
        self.piece.push(byte)?;
        self.place = place_after(self.place, byte);
        Ok(())
    }
}

/// The bytes before, between and after the holes of a text.
#[tactic(auto, using(crate::proofs::Cuttings::cut_end))]
pub(crate) fn pieces_of(alloc: Global, text: &[u8]) -> Result<Items<Items<u8>>, AllocError>
    ensures ok { IfOk result (λ pieces. pieces ≡ pieces_of text.now) }
{
    let mut cutting = Cutting {
        pieces: Items::new(alloc),
        piece: Items::new(alloc),
        place: Place::Outside,
    };
    let mut rest = text;
    while let Some((byte, more)) = first_byte(rest) {
        cutting.take(alloc, byte)?;
        rest = more;
    }
    let Cutting { pieces, piece, .. } = cutting;
    let mut pieces = pieces;
    pieces.push(piece)?;
    Ok(pieces)
}
