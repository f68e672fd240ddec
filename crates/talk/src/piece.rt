//! Pieces of a text that are written one after another.

ghost use Rattle.talk.specs.Pieces.{piece_text, pieces_text};
ghost use Rattle.talk.specs.Writes.{Writes};

use dt_core::fault::Failed;
use dt_io::outside::{Sink, write_all};
use itoa::Buffer;

/// A piece of a text.
#[derive(Clone, Copy)]
pub(crate) enum Piece<'a> {
    /// These bytes.
    Bytes(&'a [u8]),
    /// The decimal digits of a number.
    Number(u64),
}

// Writes a piece.
fn write_piece<T: Sink>(report: &mut T, piece: &Piece<'_>) -> Result<(), Failed>
    ensures { Writes (piece_text piece.now) result (T.held report.old) (T.held report.new) (T.faults report.old)
        (T.faults report.new) }
{
    match piece {
        Piece::Bytes(bytes) => write_all(report, bytes),
        Piece::Number(number) => write_all(report, Buffer::new().format(*number).as_bytes()),
    }
}

/// Writes pieces one after another.
pub(crate) fn write_pieces<T: Sink>(report: &mut T, pieces: &[Piece<'_>]) -> Result<(), Failed>
    ensures { Writes (pieces_text pieces.now) result (T.held report.old) (T.held report.new) (T.faults report.old)
        (T.faults report.new) }
{
    for piece in pieces {
        write_piece(report, piece)?;
    }
    Ok(())
}
