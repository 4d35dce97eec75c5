//! Numbers in decimal, and their signs.
ghost use Rattle.std.specs.Prelude.{◌≡◌, ◌++◌, List, ℕ, OnOk, decimal, unsigned_abs};
ghost use Rattle.fpl_spelling.specs.Fronts.{KeepsFront};
ghost use Rattle.fpl_spelling.specs.Spelling.{below_text, magnitude_text, number_text, sign_text, is_below_nought};

use crate::names::push_text;
use fpl_numbers::Num;
use itoa::{Buffer, Integer};
use std::alloc::AllocError;

/// Appends a whole number in decimal.
pub fn push_number<N: Integer>(out: &mut Vec<u8>, n: N) -> Result<(), AllocError>
    ensures text { OnOk result (out.new.items ≡ out.old.items ++ N.text n) }
    ensures front { KeepsFront out.old.items out.new.items }
{
    let mut buffer = Buffer::new();
    push_text(out, buffer.format(n).as_bytes())
}

fn push_below(out: &mut Vec<u8>, denominator: u128) -> Result<(), AllocError>
    ensures text { OnOk result (out.new.items ≡ out.old.items ++ below_text denominator) }
    ensures front { KeepsFront out.old.items out.new.items }
{
    if denominator == 1 {
        return Ok(());
    }
    push_text(out, b"/")?;
    push_number(out, denominator)
}

/// Appends a number without its sign.
pub fn push_magnitude(out: &mut Vec<u8>, c: Num) -> Result<(), AllocError>
    ensures text { OnOk result (out.new.items ≡ out.old.items ++ magnitude_text c) }
    ensures front { KeepsFront out.old.items out.new.items }
{
    push_number(out, c.numerator.unsigned_abs())?;
    push_below(out, c.denominator.unsigned_abs())
}

/// Whether a number is below 0, which residues never are.
pub fn is_below_nought(c: Num) -> bool
    ensures { result ≡ is_below_nought c }
{
    c.numerator < 0
}

/// Appends what stands before a term of a sum.
pub fn push_sign(out: &mut Vec<u8>, first: bool, below: bool) -> Result<(), AllocError>
    ensures text { OnOk result (out.new.items ≡ out.old.items ++ sign_text first below) }
    ensures front { KeepsFront out.old.items out.new.items }
{
    let sign: &[u8] = match (first, below) {
        (true, false) => b"",
        (true, true) => b"-",
        (false, false) => b" + ",
        (false, true) => b" - ",
    };
    push_text(out, sign)
}

/// Appends a number of a field: `-` where it is below 0, and its magnitude.
pub fn push_num(out: &mut Vec<u8>, c: Num) -> Result<(), AllocError>
    ensures text { OnOk result (out.new.items ≡ out.old.items ++ number_text c) }
    ensures front { KeepsFront out.old.items out.new.items }
{
    push_sign(out, true, is_below_nought(c))?;
    push_magnitude(out, c)
}
