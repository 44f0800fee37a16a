// Lines put together from pieces, at the end of a growing buffer. Not by `write!`, nor by a text of
// its own: that the buffer has no room is to be the only reason to fail.
ghost use Rattle.std.specs.List.{flat_map};
ghost use Rattle.lines.specs.Appended.{Appends};
ghost use Rattle.listing.specs.Pieces.{piece_text};

use itoa::Buffer;
use job::Named;
use lines::append;
use std::alloc::AllocError;

// A piece of a line: bytes as they are, a number in decimal, or a cell's name, if it has one.
#[derive(Clone, Copy)]
pub(crate) enum Piece<'a> {
    Bytes(&'a [u8]),
    Number(u32),
    Name(Option<Named<'a>>),
}

// Adds a piece.
#[tactic(auto, using(crate::proofs::Appending::appending))]
fn put_piece(out: &mut Vec<u8>, piece: Piece<'_>) -> Result<(), AllocError>
    ensures { Appends out.old result (piece_text piece.entry) out.new }
{
    match piece {
        Piece::Bytes(bytes) => append(out, bytes),
        Piece::Number(number) => append(out, Buffer::new().format(number).as_bytes()),
        Piece::Name(None) => Ok(()),
        Piece::Name(Some(named)) => {
            append(out, b" name ")?;
            append(out, named.name.bytes())
        }
    }
}

// Adds pieces, one after another.
pub(crate) fn put_pieces(out: &mut Vec<u8>, pieces: &[Piece<'_>]) -> Result<(), AllocError>
    ensures { Appends out.old result (flat_map piece_text pieces.now) out.new }
{
    for piece in pieces {
        put_piece(out, *piece)?;
    }
    Ok(())
}
