ghost use Rattle.std.specs.Prelude.{◌≡◌, ◌<◌, ◌≤◌, ◌≤ℤ◌, pos, unsigned_abs, IfSome};
ghost use Rattle.fpl_numbers.specs.declared.number.Kind.TheVariants.{Prime, Rational};
ghost use Rattle.fpl_numbers.specs.Numbers.{IsElement, IsField, most_number};
ghost use Rattle.fpl_numbers.specs.Quotients.{quotient_of, residue_below};

use crate::divisor::gcd;
use crate::fraction::reduced_by;
use crate::{Field, Residue};
use fpl_numbers::{Kind, Num};

/// The number `a / b` of the kind, or `None` where `b` is 0 in its field. A prime has to be one
/// of `PRIMES`; `a` is from -(2^127 - 1) to 2^127 - 1, and `b` from 0 to 2^127 - 1.
pub fn quotient(kind: Kind, a: i128, b: i128) -> Option<Num>
    requires field { IsField kind }
    requires above { unsigned_abs a ≤ most_number }
    requires below { pos 0 ≤ℤ b }
    ensures value { result ≡ quotient_of kind a b }
    ensures element { IfSome result (λ q. IsElement kind q) }
{
    match kind {
        Kind::Rational => fraction_quotient(a, b),
        Kind::Prime(p) => match Residue::of(p) {
            Some(field) => residue_quotient(field, p, a, b),
            None => None,
        },
    }
}

fn fraction_quotient(a: i128, b: i128) -> Option<Num>
    requires above { unsigned_abs a ≤ most_number }
    requires below { pos 0 ≤ℤ b }
    ensures value { result ≡ quotient_of Rational a b }
    ensures element { IfSome result (λ q. IsElement Rational q) }
{
    if b == 0 {
        return None;
    }
    let below = b.unsigned_abs();
    let common = gcd(a.unsigned_abs(), below);
    Some(Num {
        numerator: reduced_by(a, common),
        denominator: (below / common) as i128,
    })
}

fn residue_quotient(field: Residue, p: u32, a: i128, b: i128) -> Option<Num>
    requires { ⟦<Residue as Field>⟧.kind_of field ≡ Prime p }
    ensures value { result ≡ quotient_of (Prime p) a b }
    ensures element { IfSome result (λ q. IsElement (Prime p) q) }
{
    let below = residue_of(p, b);
    if field.is_zero(below) {
        return None;
    }
    match field.mul(residue_of(p, a), field.inverse(below)) {
        Ok(c) => Some(field.num(c)),
        Err(_) => None,
    }
}

/// The residue of `a` modulo `p`.
fn residue_of(p: u32, a: i128) -> u32
    requires { 0 < p }
    ensures value { result ≡ residue_below p a }
    ensures below { result < p }
{
    a.rem_euclid(i128::from(p)) as u32
}
