//! What is wrong with a checkpoint, piece by piece.
ghost use Rattle.std.specs.Prelude.{◌≡◌, ◌≤◌, ◌++◌, codes, OnOk, OnErr};
ghost use Rattle.fpl_outside.specs.Outside.{Rose, Takes};
ghost use Rattle.fpl_outside.specs.Whole.{WrotePrefix};
ghost use Rattle.fpl_reply.specs.Faults.{origin_text, spot_text, why_text};

use crate::pieces::{Piece, put_pieces};
use fpl_check::{Spot, Why};
use fpl_log::Origin;
use fpl_outside::{Sink, WriteFault};

fn put_origin<E: Sink>(err: &mut E, origin: Origin) -> Result<(), WriteFault>
    ensures whole { OnOk result (Takes (E.taken err.old) (E.taken err.new) (origin_text origin)) }
    ensures part { OnErr result (WrotePrefix (E.taken err.old) (E.taken err.new) (origin_text origin)) }
    ensures fault { OnErr result (Rose (E.faults err.old) (E.faults err.new)) }
    ensures later { E.faults err.old ≤ E.faults err.new }
{
    match origin {
        Origin::Relation(r) => put_pieces(err, &[Piece::Text(b"R"), Piece::Count(r as u64)]),
        Origin::Jacobi(i, j, k) => put_pieces(
            err,
            &[
                Piece::Text(b"J("),
                Piece::Count(i as u64),
                Piece::Text(b","),
                Piece::Count(j as u64),
                Piece::Text(b","),
                Piece::Count(k as u64),
                Piece::Text(b")"),
            ],
        ),
        Origin::Cube(i) => put_pieces(
            err,
            &[
                Piece::Text(b"C("),
                Piece::Count(i as u64),
                Piece::Text(b")"),
            ],
        ),
        Origin::Row(n) => put_pieces(err, &[Piece::Text(b"row "), Piece::Count(n)]),
    }
}

fn put_spot_origin<E: Sink>(err: &mut E, origin: Origin) -> Result<(), WriteFault>
    ensures whole { OnOk result (Takes (E.taken err.old) (E.taken err.new) (codes ", origin " ++ origin_text origin)) }
    ensures part { OnErr result (WrotePrefix (E.taken err.old) (E.taken err.new) (codes ", origin " ++ origin_text origin)) }
    ensures fault { OnErr result (Rose (E.faults err.old) (E.faults err.new)) }
    ensures later { E.faults err.old ≤ E.faults err.new }
{
    put_pieces(err, &[Piece::Text(b", origin ")])?;
    put_origin(err, origin)
}

pub(crate) fn put_spot<E: Sink>(err: &mut E, spot: Spot) -> Result<(), WriteFault>
    ensures whole { OnOk result (Takes (E.taken err.old) (E.taken err.new) (spot_text spot)) }
    ensures part { OnErr result (WrotePrefix (E.taken err.old) (E.taken err.new) (spot_text spot)) }
    ensures fault { OnErr result (Rose (E.faults err.old) (E.faults err.new)) }
    ensures later { E.faults err.old ≤ E.faults err.new }
{
    match spot {
        Spot::Step(n) => put_pieces(err, &[Piece::Text(b", step "), Piece::Count(n)]),
        Spot::Whole => put_pieces(err, &[]),
        Spot::Closed(k) => put_pieces(
            err,
            &[Piece::Text(b", closed row "), Piece::Count(k as u64)],
        ),
        Spot::Origin(origin) => put_spot_origin(err, origin),
    }
}

pub(crate) fn put_why<E: Sink>(err: &mut E, why: Why) -> Result<(), WriteFault>
    ensures whole { OnOk result (Takes (E.taken err.old) (E.taken err.new) (why_text why)) }
    ensures part { OnErr result (WrotePrefix (E.taken err.old) (E.taken err.new) (why_text why)) }
    ensures fault { OnErr result (Rose (E.faults err.old) (E.faults err.new)) }
    ensures later { E.faults err.old ≤ E.faults err.new }
{
    match why {
        Why::BadOrigin => put_pieces(err, &[Piece::Text(b"bad origin")]),
        Why::BadCite(m) => put_pieces(
            err,
            &[Piece::Text(b"bad citation of step "), Piece::Count(m)],
        ),
        Why::Remainder { symbol, number } => put_pieces(
            err,
            &[
                Piece::Text(b"remainder "),
                Piece::Number(number),
                Piece::Text(b" at symbol "),
                Piece::Count(symbol as u64),
            ],
        ),
        Why::Count { closes, rows } => put_pieces(
            err,
            &[
                Piece::Count(closes),
                Piece::Text(b" close steps, "),
                Piece::Count(rows),
                Piece::Text(b" closed rows"),
            ],
        ),
        Why::OriginCount { stored, found } => put_pieces(
            err,
            &[
                Piece::Count(stored),
                Piece::Text(b" origins stored, "),
                Piece::Count(found),
                Piece::Text(b" found"),
            ],
        ),
        Why::RowForm => put_pieces(err, &[Piece::Text(b"row form")]),
        Why::Differs {
            symbol,
            stored,
            concluded,
        } => put_pieces(
            err,
            &[
                Piece::Text(b"stored "),
                Piece::Number(stored),
                Piece::Text(b", concluded "),
                Piece::Number(concluded),
                Piece::Text(b" at symbol "),
                Piece::Count(symbol as u64),
            ],
        ),
        Why::NotClosed { symbol } => put_pieces(
            err,
            &[
                Piece::Text(b"not closed at symbol "),
                Piece::Count(symbol as u64),
            ],
        ),
    }
}
