ghost use Rattle.std.specs.Prelude.{◌≡◌, ◌≤◌, ◌<◌, ◌+◌, ◌*◌, ◌%◌, ◌/◌, ◌^◌, nat_lt, true, IsTrue, IsSome, IfSome, ◌↔◌};
ghost use Rattle.fpl_numbers.specs.declared.number.Kind.TheVariants.{Prime};
ghost use Rattle.fpl_numbers.specs.Numbers.{IsListed, is_listed, residue, residue_of};
ghost use Rattle.fpl_numbers.proofs.Listed.{listed_is};
ghost use Rattle.std.proofs.Common.{ap};

use crate::Field;
use fpl_lanes::{less_once, remainder, share_of, sum_below, wide_remainder, wide_share_of};
use fpl_numbers::{Kind, Num, Unfit, is_listed};

/// The residues modulo an accepted prime. An element is a number from 0 to the prime less 1.
#[derive(Clone, Copy, Debug)]
pub struct Residue {
    p: u32,
    // kept, so that a product is reduced without a division
    share: u32,
    wide_share: u64,
    ghost listed: { is_listed p ≡ true },
    ghost least: { 3 ≤ p },
    ghost most: { p ≤ 65521 },
    ghost quotient: { share ≡ 2 ^ 32 / p },
    ghost wide_quotient: { wide_share ≡ 2 ^ 64 / p },
}

impl Residue {
    /// The residues modulo `p`, where it is one of `PRIMES`.
    pub fn of(p: u32) -> Option<Residue>
        ensures listed { IsSome result ↔ IsListed p }
        ensures kind { IfSome result (λ r. ⟦<Residue as Field>⟧.kind_of r ≡ Prime p) }
    {
        if is_listed(u128::from(p)) {
            Some(Residue {
                p,
                share: share_of(p),
                wide_share: wide_share_of(p),
            })
        } else {
            None
        }
    }
}

impl Field for Residue {
    type Elem = u32;

    ghost kind_of = { λ r. Prime r.p };

    ghost number = { residue };

    type Sum = u64;

    ghost summed = { λ r sum. residue (sum % r.p) };

    ghost has_room = { λ r sum. nat_lt sum (2 ^ 40 * r.p) };

    ghost is_field = { λ r. listed_is r.p r.listed };

    ghost same_number = { λ r a b is_a is_b e. ap residue_of e };

    fn kind(&self) -> Kind {
        Kind::Prime(self.p)
    }

    fn zero(&self) -> u32 {
        0
    }

    fn one(&self) -> u32 {
        1
    }

    fn is_zero(&self, a: u32) -> bool {
        a == 0
    }

    fn same(&self, a: u32, b: u32) -> bool {
        a == b
    }

    fn add(&self, a: u32, b: u32) -> Result<u32, Unfit> {
        Ok(less_once(self.p, a + b))
    }

    // 65520 * 65520 is below 2^32
    fn mul(&self, a: u32, b: u32) -> Result<u32, Unfit> {
        Ok(remainder(self.p, self.share, a * b))
    }

    fn neg(&self, a: u32) -> u32 {
        if a == 0 { 0 } else { self.p - a }
    }

    // Keeps a * multiple congruent to rest. No rest above 1 divides the prime, so it falls to 1.
    fn inverse(&self, a: u32) -> u32 {
        let mut rest = a;
        let mut multiple = 1;
        while rest > 1 {
            multiple = remainder(self.p, self.share, multiple * (self.p - self.p / rest));
            rest = self.p % rest;
        }
        multiple
    }

    fn of(&self, n: &Num) -> u32 {
        n.numerator as u32
    }

    fn num(&self, a: u32) -> Num {
        Num {
            numerator: i128::from(a),
            denominator: 1,
        }
    }

    fn blank(&self) -> u64 {
        0
    }

    fn fuse(&self, sum: u64, c: u32, x: u32) -> Result<u64, Unfit> {
        Ok(sum_below(u64::from(self.p) << 40, sum, u64::from(c) * u64::from(x)))
    }

    fn settle(&self, sum: u64) -> u32 {
        wide_remainder(self.p, self.wide_share, sum)
    }

    fn axpy(&self, row: &mut [u32], c: u32, other: &[u32]) -> Result<(), Unfit> {
        fpl_lanes::axpy(self.p, row, c, other);
        Ok(())
    }

    fn scale(&self, row: &mut [u32], c: u32) -> Result<(), Unfit> {
        fpl_lanes::scale(self.p, row, c);
        Ok(())
    }

    fn first(&self, row: &[u32]) -> Option<usize> {
        fpl_lanes::first_nonzero(row)
    }
}
