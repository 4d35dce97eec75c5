ghost use Rattle.std.specs.Prelude.{◌≡◌, ◌≤◌, ◌≤ℤ◌, ◌↔◌, Option, IsTrue, pos, unsigned_abs, option_map, if◌then◌else◌};
ghost use Rattle.std.specs.Int.{w64, w128};
ghost use Rattle.fpl_numbers.specs.declared.number.Kind.TheVariants.{Rational};
ghost use Rattle.fpl_numbers.specs.Numbers.{most_number};
ghost use Rattle.fpl_numbers.specs.Quotients.{quotient_of};
ghost use Rattle.fpl_bytes.specs.Reading.{Gives};
ghost use Rattle.fpl_bytes.specs.Numbers.{fraction_of, parts_at, part_width, is_stored, fraction_at, residue_at, number_at};

use crate::fault::{ByteWhy, ScanError, bad_bytes};
use crate::version::Version;
use crate::wholes::{u32_field, u64_at, u128_at};
use fpl_scalar::{Kind, Num, quotient};

// A denominator of 16 bytes may pass what a number holds.
fn short_parts(bytes: &[u8]) -> Option<((i128, u128), &[u8])>
    ensures { option_map (λ x. (fraction_of x.0.0 x.0.1, x.1.now)) result ≡ parts_at w64 bytes.now }
{
    let (above, rest) = u64_at(bytes)?;
    let (below, rest) = u64_at(rest)?;
    Some(((i128::from(above.cast_signed()), u128::from(below)), rest))
}

fn long_parts(bytes: &[u8]) -> Option<((i128, u128), &[u8])>
    ensures { option_map (λ x. (fraction_of x.0.0 x.0.1, x.1.now)) result ≡ parts_at w128 bytes.now }
{
    let (above, rest) = u128_at(bytes)?;
    let (below, rest) = u128_at(rest)?;
    Some(((above.cast_signed(), below), rest))
}

fn parts(version: Version, bytes: &[u8]) -> Option<((i128, u128), &[u8])>
    ensures { option_map (λ x. (fraction_of x.0.0 x.0.1, x.1.now)) result ≡ parts_at (part_width version) bytes.now }
{
    match version {
        Version::One => short_parts(bytes),
        Version::Two => long_parts(bytes),
    }
}

/// Whether a fraction within the bound is in lowest terms over a positive denominator.
fn is_lowest(number: Num) -> bool
    requires above { unsigned_abs number.numerator ≤ most_number }
    requires below { pos 0 ≤ℤ number.denominator }
    ensures { IsTrue result ↔ (quotient_of Rational number.numerator number.denominator ≡ Some number) }
{
    match quotient(Kind::Rational, number.numerator, number.denominator) {
        Some(lowest) => lowest == number,
        None => false,
    }
}

/// The fraction of these parts, where it is canonical and fits.
fn stored_fraction(version: Version, above: i128, below: u128) -> Option<Num>
    ensures { result ≡ (if is_stored version Rational (fraction_of above below) then Some (fraction_of above below) else None) }
{
    let limit = version.limit();
    if above.unsigned_abs() > limit || below > limit {
        return None;
    }
    let number = Num {
        numerator: above,
        denominator: below as i128,
    };
    if is_lowest(number) {
        Some(number)
    } else {
        None
    }
}

#[tactic(auto, unfolding(crate::specs::Numbers::fraction_at))]
fn fraction_field(version: Version, end: usize, bytes: &[u8]) -> Result<(Num, &[u8]), ScanError>
    ensures { Gives (λ x. (x.0, x.1.now)) result (fraction_at version end bytes.now) }
{
    let Some(((above, below), rest)) = parts(version, bytes) else {
        return Err(bad_bytes(end, bytes, ByteWhy::FieldCut));
    };
    match stored_fraction(version, above, below) {
        Some(number) => Ok((number, rest)),
        None => Err(bad_bytes(end, bytes, ByteWhy::BadNumber)),
    }
}

#[tactic(auto, unfolding(crate::specs::Numbers::residue_at))]
fn residue_field(p: u32, end: usize, bytes: &[u8]) -> Result<(Num, &[u8]), ScanError>
    ensures { Gives (λ x. (x.0, x.1.now)) result (residue_at p end bytes.now) }
{
    let (residue, rest) = u32_field(end, bytes)?;
    if residue >= p {
        return Err(bad_bytes(end, bytes, ByteWhy::BadNumber));
    }
    let number = Num {
        numerator: i128::from(residue),
        denominator: 1,
    };
    Ok((number, rest))
}

/// A number of the field, and the bytes after it. `BadNumber` comes where it isn't canonical or
/// a part passes what the version holds.
pub fn number_field(
    version: Version,
    kind: Kind,
    end: usize,
    bytes: &[u8],
) -> Result<(Num, &[u8]), ScanError>
    ensures { Gives (λ x. (x.0, x.1.now)) result (number_at version kind end bytes.now) }
{
    match kind {
        Kind::Rational => fraction_field(version, end, bytes),
        Kind::Prime(p) => residue_field(p, end, bytes),
    }
}
