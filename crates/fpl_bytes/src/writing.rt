ghost use Rattle.std.specs.Prelude.{◌≡◌, ◌++◌, OnOk};
ghost use Rattle.std.specs.Io.{StartsWith};
ghost use Rattle.fpl_numbers.specs.declared.number.Kind.TheVariants.{Rational};
ghost use Rattle.fpl_numbers.specs.Numbers.{IsElement};
ghost use Rattle.fpl_bytes.specs.declared.version.Version.TheVariants.{Two};
ghost use Rattle.fpl_bytes.specs.Numbers.{IsStored, number_bytes};

use fpl_scalar::{Kind, Num};
use std::alloc::AllocError;

// The numerator in two's complement, and the denominator.
fn push_fraction(out: &mut Vec<u8>, number: &Num) -> Result<(), AllocError>
    requires { IsElement Rational number.now }
    ensures bytes { OnOk result (out.new.items ≡ out.old.items ++ number_bytes Two Rational number.now) }
    ensures front { StartsWith out.new.items out.old.items }
{
    let above = number.numerator;
    let below = number.denominator;
    out.extend_from_slice(&above.to_be_bytes())?;
    out.extend_from_slice(&below.unsigned_abs().to_be_bytes())?;
    Ok(())
}

/// Adds a number as version 2 writes it.
pub fn push_number(out: &mut Vec<u8>, kind: Kind, number: &Num) -> Result<(), AllocError>
    requires { IsElement kind number.now }
    ensures bytes { OnOk result (out.new.items ≡ out.old.items ++ number_bytes Two kind number.now) }
    ensures front { StartsWith out.new.items out.old.items }
    ensures stored { OnOk result (IsStored Two kind number.now) }
{
    match kind {
        Kind::Rational => push_fraction(out, number),
        Kind::Prime(_) => out.extend_from_slice(&(number.numerator as u32).to_be_bytes()),
    }
}
