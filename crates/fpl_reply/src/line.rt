//! The line that says why the text wasn't written, or not whole.
ghost use Rattle.std.specs.Prelude.{◌≡◌, ◌≤◌, ◌++◌, codes, decimal, OnOk, OnErr};
ghost use Rattle.fpl_outside.specs.Outside.{Rose, Takes};
ghost use Rattle.fpl_outside.specs.Whole.{WrotePrefix};
ghost use Rattle.fpl_reply.specs.Reply.{Reply, line_of, fault_line, view_fault_line, op_text, refused, unsupported};
ghost use Rattle.fpl_complete.specs.State.{unfit_of};
ghost use Rattle.fpl_walk.specs.Walk.{too_many, bad_bytes, bad_section, overflow};
ghost use Rattle.fpl_reply.specs.Faults.{spot_text, why_text};
ghost use Rattle.fpl_reply.specs.Outcome.{refusal_text, reply_of};

use crate::fault_line::{put_spot, put_why};
use crate::outcome::{Outcome, Refusal};
use crate::pieces::{Piece, put_pieces};
use crate::view_fault::ViewFault;
use fpl_bytes::BadBytes;
use fpl_check::{Spot, Why};
use fpl_numbers::{Num, Op, Unfit};
use fpl_outside::{Sink, WriteFault, write_whole};

fn op_text(op: Op) -> &'static [u8]
    ensures { result.now ≡ op_text op }
{
    match op {
        Op::Add => b" + ",
        Op::Mul => b" * ",
    }
}

fn put_refused<E: Sink>(err: &mut E, place: u64, why: Refusal) -> Result<(), WriteFault>
    ensures whole { OnOk result (Takes (E.taken err.old) (E.taken err.new) (line_of (refused place (refusal_text why)))) }
    ensures part { OnErr result (WrotePrefix (E.taken err.old) (E.taken err.new) (line_of (refused place (refusal_text why)))) }
    ensures fault { OnErr result (Rose (E.faults err.old) (E.faults err.new)) }
    ensures later { E.faults err.old ≤ E.faults err.new }
{
    put_pieces(
        err,
        &[
            Piece::Text(b"refused at byte "),
            Piece::Count(place),
            Piece::Text(b": "),
            Piece::Text(why.text()),
            Piece::Text(b"\n"),
        ],
    )
}

fn put_unsupported<E: Sink>(err: &mut E, name: &'static [u8]) -> Result<(), WriteFault>
    ensures whole { OnOk result (Takes (E.taken err.old) (E.taken err.new) (line_of (unsupported name.now))) }
    ensures part { OnErr result (WrotePrefix (E.taken err.old) (E.taken err.new) (line_of (unsupported name.now))) }
    ensures fault { OnErr result (Rose (E.faults err.old) (E.faults err.new)) }
    ensures later { E.faults err.old ≤ E.faults err.new }
{
    put_pieces(
        err,
        &[
            Piece::Text(b"unsupported: "),
            Piece::Text(name),
            Piece::Text(b" over fractions\n"),
        ],
    )
}

fn put_bad_bytes<E: Sink>(err: &mut E, bad: BadBytes) -> Result<(), WriteFault>
    ensures whole { OnOk result (Takes (E.taken err.old) (E.taken err.new) (fault_line (bad_bytes bad))) }
    ensures part { OnErr result (WrotePrefix (E.taken err.old) (E.taken err.new) (fault_line (bad_bytes bad))) }
    ensures fault { OnErr result (Rose (E.faults err.old) (E.faults err.new)) }
    ensures later { E.faults err.old ≤ E.faults err.new }
{
    put_pieces(
        err,
        &[
            Piece::Text(b"bad checkpoint at byte "),
            Piece::Count(bad.place),
            Piece::Text(b": "),
            Piece::Text(bad.why.text()),
            Piece::Text(b"\n"),
        ],
    )
}

// The line of a section that fails a test, up to the colon.
fn put_spotted<E: Sink>(err: &mut E, weight: u32, spot: Spot) -> Result<(), WriteFault>
    ensures whole { OnOk result (Takes (E.taken err.old) (E.taken err.new) (codes "bad checkpoint in weight " ++ decimal weight ++ spot_text spot)) }
    ensures part { OnErr result (WrotePrefix (E.taken err.old) (E.taken err.new) (codes "bad checkpoint in weight " ++ decimal weight ++ spot_text spot)) }
    ensures fault { OnErr result (Rose (E.faults err.old) (E.faults err.new)) }
    ensures later { E.faults err.old ≤ E.faults err.new }
{
    put_pieces(
        err,
        &[
            Piece::Text(b"bad checkpoint in weight "),
            Piece::Count(weight as u64),
        ],
    )?;
    put_spot(err, spot)
}

fn put_colon<E: Sink>(err: &mut E, weight: u32, spot: Spot) -> Result<(), WriteFault>
    ensures whole { OnOk result (Takes (E.taken err.old) (E.taken err.new) (codes "bad checkpoint in weight " ++ decimal weight ++ spot_text spot ++ codes ": ")) }
    ensures part { OnErr result (WrotePrefix (E.taken err.old) (E.taken err.new) (codes "bad checkpoint in weight " ++ decimal weight ++ spot_text spot ++ codes ": ")) }
    ensures fault { OnErr result (Rose (E.faults err.old) (E.faults err.new)) }
    ensures later { E.faults err.old ≤ E.faults err.new }
{
    put_spotted(err, weight, spot)?;
    write_whole(err, b": ")
}

fn put_reasoned<E: Sink>(err: &mut E, weight: u32, spot: Spot, why: Why) -> Result<(), WriteFault>
    ensures whole { OnOk result (Takes (E.taken err.old) (E.taken err.new) (codes "bad checkpoint in weight " ++ decimal weight ++ spot_text spot ++ codes ": "
        ++ why_text why)) }
    ensures part { OnErr result (WrotePrefix (E.taken err.old) (E.taken err.new) (codes "bad checkpoint in weight " ++ decimal weight ++ spot_text spot
        ++ codes ": " ++ why_text why)) }
    ensures fault { OnErr result (Rose (E.faults err.old) (E.faults err.new)) }
    ensures later { E.faults err.old ≤ E.faults err.new }
{
    put_colon(err, weight, spot)?;
    put_why(err, why)
}

fn put_bad_section<E: Sink>(
    err: &mut E,
    weight: u32,
    spot: Spot,
    why: Why,
) -> Result<(), WriteFault>
    ensures whole { OnOk result (Takes (E.taken err.old) (E.taken err.new) (fault_line (bad_section weight spot why))) }
    ensures part { OnErr result (WrotePrefix (E.taken err.old) (E.taken err.new) (fault_line (bad_section weight spot why))) }
    ensures fault { OnErr result (Rose (E.faults err.old) (E.faults err.new)) }
    ensures later { E.faults err.old ≤ E.faults err.new }
{
    put_reasoned(err, weight, spot, why)?;
    write_whole(err, b"\n")
}

fn put_limit<E: Sink>(err: &mut E, weight: u32, count: u64) -> Result<(), WriteFault>
    ensures whole { OnOk result (Takes (E.taken err.old) (E.taken err.new) (fault_line (too_many weight count))) }
    ensures part { OnErr result (WrotePrefix (E.taken err.old) (E.taken err.new) (fault_line (too_many weight count))) }
    ensures fault { OnErr result (Rose (E.faults err.old) (E.faults err.new)) }
    ensures later { E.faults err.old ≤ E.faults err.new }
{
    put_pieces(
        err,
        &[
            Piece::Text(b"limit at weight "),
            Piece::Count(weight as u64),
            Piece::Text(b": "),
            Piece::Count(count),
            Piece::Text(b" symbols\n"),
        ],
    )
}

fn put_overflow<E: Sink>(err: &mut E, weight: u32, op: Op, a: Num, b: Num) -> Result<(), WriteFault>
    ensures whole { OnOk result (Takes (E.taken err.old) (E.taken err.new) (fault_line (overflow weight (unfit_of op a b)))) }
    ensures part { OnErr result (WrotePrefix (E.taken err.old) (E.taken err.new) (fault_line (overflow weight (unfit_of op a b)))) }
    ensures fault { OnErr result (Rose (E.faults err.old) (E.faults err.new)) }
    ensures later { E.faults err.old ≤ E.faults err.new }
{
    put_pieces(
        err,
        &[
            Piece::Text(b"overflow at weight "),
            Piece::Count(weight as u64),
            Piece::Text(b": "),
            Piece::Number(a),
            Piece::Text(op_text(op)),
            Piece::Number(b),
            Piece::Text(b"\n"),
        ],
    )
}

fn put_unfit<E: Sink>(err: &mut E, u: Unfit) -> Result<(), WriteFault>
    ensures whole { OnOk result (Takes (E.taken err.old) (E.taken err.new) (view_fault_line (ViewFault.Overflow u))) }
    ensures part { OnErr result (WrotePrefix (E.taken err.old) (E.taken err.new) (view_fault_line (ViewFault.Overflow u))) }
    ensures fault { OnErr result (Rose (E.faults err.old) (E.faults err.new)) }
    ensures later { E.faults err.old ≤ E.faults err.new }
{
    put_pieces(
        err,
        &[
            Piece::Text(b"overflow in the view: "),
            Piece::Number(u.a),
            Piece::Text(op_text(u.op)),
            Piece::Number(u.b),
            Piece::Text(b"\n"),
        ],
    )
}

fn put_words<E: Sink>(err: &mut E, weight: u32, count: u64) -> Result<(), WriteFault>
    ensures whole { OnOk result (Takes (E.taken err.old) (E.taken err.new) (view_fault_line (ViewFault.TooManyWords weight count))) }
    ensures part { OnErr result (WrotePrefix (E.taken err.old) (E.taken err.new) (view_fault_line (ViewFault.TooManyWords weight count))) }
    ensures fault { OnErr result (Rose (E.faults err.old) (E.faults err.new)) }
    ensures later { E.faults err.old ≤ E.faults err.new }
{
    put_pieces(
        err,
        &[
            Piece::Text(b"limit at weight "),
            Piece::Count(weight as u64),
            Piece::Text(b": "),
            Piece::Count(count),
            Piece::Text(b" words\n"),
        ],
    )
}

fn put_view_fault<E: Sink>(err: &mut E, fault: ViewFault) -> Result<(), WriteFault>
    ensures whole { OnOk result (Takes (E.taken err.old) (E.taken err.new) (view_fault_line fault)) }
    ensures part { OnErr result (WrotePrefix (E.taken err.old) (E.taken err.new) (view_fault_line fault)) }
    ensures fault { OnErr result (Rose (E.faults err.old) (E.faults err.new)) }
    ensures later { E.faults err.old ≤ E.faults err.new }
{
    match fault {
        ViewFault::Overflow(u) => put_unfit(err, u),
        ViewFault::TooManyWords { weight, count } => put_words(err, weight, count),
    }
}

/// Puts the line of an outcome, and nothing where its text was written.
pub fn put_line<E: Sink>(err: &mut E, outcome: &Outcome) -> Result<(), WriteFault>
    ensures whole { OnOk result (Takes (E.taken err.old) (E.taken err.new) (line_of (reply_of outcome.now))) }
    ensures part { OnErr result (WrotePrefix (E.taken err.old) (E.taken err.new) (line_of (reply_of outcome.now))) }
    ensures fault { OnErr result (Rose (E.faults err.old) (E.faults err.new)) }
    ensures later { E.faults err.old ≤ E.faults err.new }
{
    match outcome {
        Outcome::Done => write_whole(err, b""),
        Outcome::Usage => write_whole(err, b"usage: fplsa VIEW LIMIT [ENTRIES]\n"),
        Outcome::Refused { place, why } => put_refused(err, *place, *why),
        Outcome::Unsupported(name) => put_unsupported(err, name),
        Outcome::BadBytes(bad) => put_bad_bytes(err, *bad),
        Outcome::BadSection { weight, spot, why } => put_bad_section(err, *weight, *spot, *why),
        Outcome::Limit { weight, count } => put_limit(err, *weight, *count),
        Outcome::Overflow { weight, op, a, b } => put_overflow(err, *weight, *op, *a, *b),
        Outcome::InView(fault) => put_view_fault(err, *fault),
        Outcome::NoMemory => write_whole(err, b"no memory\n"),
        Outcome::ReadFault => write_whole(err, b"read fault\n"),
        Outcome::WriteFault => write_whole(err, b"write fault\n"),
    }
}
