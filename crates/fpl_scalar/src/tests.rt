ghost use Rattle.fpl_numbers.specs.declared.number.Kind.TheVariants.{Rational};
ghost use Rattle.fpl_numbers.specs.Numbers.{IsElement};

use crate::{Field, Fraction, Kind, Num, Op, Residue, Unfit, quotient};
use std::process::Abort;

const MOST: i128 = i128::MAX;

fn fraction(rt: &impl Abort, a: i128, b: i128) -> Num
    ensures { IsElement Rational result }
{
    assert!(rt; a != i128::MIN, "a numerator that fits");
    assert!(rt; b >= 0, "a denominator that is not below 0");
    match quotient(Kind::Rational, a, b) {
        Some(n) => n,
        None => panic!(rt; "a denominator of 0"),
    }
}

fn tested(rt: &impl Abort, kind: Kind, a: i128, b: i128) -> Option<Num> {
    assert!(rt; a != i128::MIN, "a numerator that fits");
    assert!(rt; b >= 0, "a denominator that is not below 0");
    match kind {
        Kind::Rational => quotient(Kind::Rational, a, b),
        Kind::Prime(p) => {
            assert!(rt; Residue::of(p).is_some(), "an accepted prime");
            quotient(Kind::Prime(p), a, b)
        }
    }
}

fn operate<F: Field>(field: F, op: Op, a: F::Elem, b: F::Elem) -> Result<F::Elem, Unfit>
    requires left { IsElement (F.kind_of field) (F.number a) }
    requires right { IsElement (F.kind_of field) (F.number b) }
{
    match op {
        Op::Add => field.add(a, b),
        Op::Mul => field.mul(a, b),
    }
}

#[test]
fn fractions_are_exact_or_do_not_fit(rt: HostRuntime) {
    let cases = [
        (Op::Add, (1, 2), (1, 3), Some((5, 6))),
        (Op::Add, (1, 6), (1, 3), Some((1, 2))),
        (Op::Add, (1, 4), (-1, 4), Some((0, 1))),
        (Op::Add, (MOST, 1), (-MOST, 1), Some((0, 1))),
        (Op::Add, (MOST, 1), (1, 1), None),
        (Op::Add, (MOST, 2), (-MOST, 3), None),
        (Op::Add, (1, MOST), (1, 2), None),
        (Op::Mul, (2, 3), (-9, 4), Some((-3, 2))),
        (Op::Mul, (MOST, 2), (2, MOST), Some((1, 1))),
        (Op::Mul, (MOST, 1), (-1, 1), Some((-MOST, 1))),
        (Op::Mul, (0, 1), (MOST, 2), Some((0, 1))),
        (Op::Mul, (MOST, 1), (2, 1), None),
        (Op::Mul, (1, MOST), (1, 2), None),
    ];
    for (op, (a, b), (c, d), want) in cases {
        let left = fraction(&rt, a, b);
        let right = fraction(&rt, c, d);
        let got = operate(Fraction, op, left, right);
        let want = match want {
            Some((n, m)) => Ok(fraction(&rt, n, m)),
            None => Err(Unfit {
                op,
                a: left,
                b: right,
            }),
        };
        assert!(rt; got == want, "{op:?} of {a}/{b} and {c}/{d}");
    }
}

#[test]
fn quotients_are_in_the_field(rt: HostRuntime) {
    let cases = [
        (Kind::Rational, -6, 4, Some((-3, 2))),
        (Kind::Rational, 0, 5, Some((0, 1))),
        (Kind::Rational, MOST, MOST, Some((1, 1))),
        (Kind::Rational, 5, 0, None),
        (Kind::Prime(7), 1, 7, None),
        (Kind::Prime(11), 1, 7, Some((8, 1))),
        (Kind::Prime(7), -1, 3, Some((2, 1))),
        (Kind::Prime(3), MOST, 1, Some((1, 1))),
    ];
    for (kind, a, b, want) in cases {
        let want = want.map(|(numerator, denominator)| Num {
            numerator,
            denominator,
        });
        assert!(rt; tested(&rt, kind, a, b) == want, "{a}/{b} in {kind:?}");
    }
}

#[test]
fn inverses_negatives_and_tests(rt: HostRuntime) {
    for (a, b) in [(3, 4), (-3, 4), (1, MOST), (-MOST, 2)] {
        let n = fraction(&rt, a, b);
        assert!(rt; !Fraction.is_zero(n));
        let inverse = Fraction.inverse(n);
        assert!(rt;
            operate(Fraction, Op::Mul, inverse, n) == Ok(Fraction.one()),
            "{a}/{b}"
        );
        let negative = Fraction.neg(n);
        assert!(rt;
            operate(Fraction, Op::Add, negative, n) == Ok(Fraction.zero()),
            "{a}/{b}"
        );
        assert!(rt; Fraction.same(Fraction.of(&n), n) && Fraction.num(n) == n);
    }
}
