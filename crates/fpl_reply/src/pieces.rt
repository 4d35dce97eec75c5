//! The pieces of a line. They are put one by one and take no memory.
ghost use Rattle.std.specs.Prelude.{◌≡◌, ◌≤◌, true, OnOk, OnErr};
ghost use Rattle.fpl_outside.specs.Outside.{Rose, Takes};
ghost use Rattle.fpl_outside.specs.Whole.{WrotePrefix};
ghost use Rattle.fpl_spelling.specs.Spelling.{below_text, magnitude_text, number_text, sign_text, is_below_nought};
ghost use Rattle.fpl_reply.specs.Line.{piece_text, pieces_text};

use fpl_numbers::Num;
use fpl_outside::{Sink, WriteFault, write_whole};
use itoa::{Buffer, Integer};

/// A piece of a line.
#[derive(Clone, Copy)]
pub(crate) enum Piece {
    Text(&'static [u8]),
    /// In decimal.
    Count(u64),
    /// A `-` where it is below 0, its numerator, and `/` and its denominator where that isn't 1.
    Number(Num),
}

fn put_decimal<E: Sink, N: Integer>(err: &mut E, n: N) -> Result<(), WriteFault>
    ensures whole { OnOk result (Takes (E.taken err.old) (E.taken err.new) (N.text n)) }
    ensures part { OnErr result (WrotePrefix (E.taken err.old) (E.taken err.new) (N.text n)) }
    ensures fault { OnErr result (Rose (E.faults err.old) (E.faults err.new)) }
    ensures later { E.faults err.old ≤ E.faults err.new }
{
    let mut buffer = Buffer::new();
    write_whole(err, buffer.format(n).as_bytes())
}

fn put_below<E: Sink>(err: &mut E, denominator: u128) -> Result<(), WriteFault>
    ensures whole { OnOk result (Takes (E.taken err.old) (E.taken err.new) (below_text denominator)) }
    ensures part { OnErr result (WrotePrefix (E.taken err.old) (E.taken err.new) (below_text denominator)) }
    ensures fault { OnErr result (Rose (E.faults err.old) (E.faults err.new)) }
    ensures later { E.faults err.old ≤ E.faults err.new }
{
    if denominator == 1 {
        return write_whole(err, b"");
    }
    write_whole(err, b"/")?;
    put_decimal(err, denominator)
}

fn put_magnitude<E: Sink>(err: &mut E, c: Num) -> Result<(), WriteFault>
    ensures whole { OnOk result (Takes (E.taken err.old) (E.taken err.new) (magnitude_text c)) }
    ensures part { OnErr result (WrotePrefix (E.taken err.old) (E.taken err.new) (magnitude_text c)) }
    ensures fault { OnErr result (Rose (E.faults err.old) (E.faults err.new)) }
    ensures later { E.faults err.old ≤ E.faults err.new }
{
    put_decimal(err, c.numerator.unsigned_abs())?;
    put_below(err, c.denominator.unsigned_abs())
}

fn sign_of(c: Num) -> &'static [u8]
    ensures { result.now ≡ sign_text true (is_below_nought c) }
{
    if c.numerator < 0 { b"-" } else { b"" }
}

fn put_number<E: Sink>(err: &mut E, c: Num) -> Result<(), WriteFault>
    ensures whole { OnOk result (Takes (E.taken err.old) (E.taken err.new) (number_text c)) }
    ensures part { OnErr result (WrotePrefix (E.taken err.old) (E.taken err.new) (number_text c)) }
    ensures fault { OnErr result (Rose (E.faults err.old) (E.faults err.new)) }
    ensures later { E.faults err.old ≤ E.faults err.new }
{
    write_whole(err, sign_of(c))?;
    put_magnitude(err, c)
}

fn put_piece<E: Sink>(err: &mut E, piece: &Piece) -> Result<(), WriteFault>
    ensures whole { OnOk result (Takes (E.taken err.old) (E.taken err.new) (piece_text piece.now)) }
    ensures part { OnErr result (WrotePrefix (E.taken err.old) (E.taken err.new) (piece_text piece.now)) }
    ensures fault { OnErr result (Rose (E.faults err.old) (E.faults err.new)) }
    ensures later { E.faults err.old ≤ E.faults err.new }
{
    match piece {
        Piece::Text(text) => write_whole(err, text),
        Piece::Count(n) => put_decimal(err, *n),
        Piece::Number(c) => put_number(err, *c),
    }
}

pub(crate) fn put_pieces<E: Sink>(err: &mut E, pieces: &[Piece]) -> Result<(), WriteFault>
    ensures whole { OnOk result (Takes (E.taken err.old) (E.taken err.new) (pieces_text pieces.now)) }
    ensures part { OnErr result (WrotePrefix (E.taken err.old) (E.taken err.new) (pieces_text pieces.now)) }
    ensures fault { OnErr result (Rose (E.faults err.old) (E.faults err.new)) }
    ensures later { E.faults err.old ≤ E.faults err.new }
{
    for piece in pieces {
        put_piece(err, piece)?;
    }
    Ok(())
}
