//! Completions of small presentations, worked by hand.
#![tactic(auto)]

ghost use Rattle.std.specs.Prelude.{◌≡◌, ◌≤◌, ◌<◌, ◌^◌, length};
ghost use Rattle.fpl_model.specs.Sound.{IsSound};

#[cfg(test)]
mod tests {
    use fpl_complete::{RaiseFault, State};
    use fpl_log::{Coefficient, Origin, Section, Step};
    use fpl_model::Presentation;
    use fpl_numbers::{Kind, Num, Op};
    use fpl_reader::read;
    use fpl_scalar::{Field, Fraction, Residue};
    use fpl_steps::Steps;
    use std::alloc::Global;
    use std::marker::Brand;
    use std::sync::ledger::{Blank, Ledger};
    use std::test::Fail;

    const MOST: i128 = 170141183460469231731687303715884105727;

    /// What raising a state came to.
    #[derive(Clone, Copy, Debug, PartialEq, Eq)]
    struct Raised {
        fault: Option<RaiseFault>,
        weight: u32,
        sections: usize,
        // of the last section
        origins: Option<u64>,
        steps: usize,
        rows: usize,
        five_times_jacobi: bool,
    }

    /// Concludes the first symbol from 5 * J(1,1,1).
    fn is_five_times_jacobi(section: &Section) -> bool {
        let insert = match section.steps.get(0) {
            Some(
                Step::Insert {
                    origin: Origin::Jacobi(1, 1, 1),
                    terms,
                    scale,
                },
            ) => terms.len() == 0 && scale.numerator == 5 && scale.denominator == 1,
            _ => false,
        };
        let close = match section.steps.get(1) {
            Some(Step::Close { of: 1, terms }) => terms.len() == 0,
            _ => false,
        };
        let one = match section.closed.get(0) {
            Some(row) => {
                row.len() == 1
                    && match row.get(0) {
                        Some(c) => c.symbol == 1
                            && c.number.numerator == 1
                            && c.number.denominator == 1,
                        None => false,
                    }
            }
            None => false,
        };
        insert && close && one
    }

    fn raise_over<F: Field, L: Ledger>(
        blank: Blank,
        alloc: Global,
        field: F,
        p: Presentation,
        d: u32,
        entries: u64,
    ) -> Option<Raised>
        requires name { blank.name ≡ L.name }
        requires parts { blank.parts ≡ L.parts }
        requires some { 0 < blank.parts }
        requires kind { F.kind_of field ≡ p.field }
        requires sound { IsSound p }
        requires weight { d ≤ 1000 }
        requires entries { entries ≤ 2000000 }
    {
        let mut counter = Steps::<L>::new(blank);
        let Ok(mut state) = State::start(alloc, field, p) else {
            return None;
        };
        let fault = state.raise(d, entries, &mut counter).err();
        let weight = state.weight();
        let sections = state.sections();
        let count = sections.len();
        let (origins, steps, rows, five_times_jacobi) = match sections.get(count.saturating_sub(
            1,
        )) {
            Some(last) => (
                last.origins,
                last.steps.len(),
                last.closed.len(),
                is_five_times_jacobi(last),
            ),
            None => (None, 0, 0, false),
        };
        Some(Raised {
            fault,
            weight,
            sections: count,
            origins,
            steps,
            rows,
            five_times_jacobi,
        })
    }

    /// What raising the presentation of a text comes to.
    fn raise_from(alloc: Global, text: &[u8], d: u32, entries: u64) -> Option<Raised>
        requires text { length text.now < 2 ^ 32 }
        requires weight { d ≤ 1000 }
        requires entries { entries ≤ 2000000 }
    {
        let Ok(p) = read(alloc, text) else {
            return None;
        };
        match p.field {
            Kind::Rational => raise_over::<_, Brand>(Blank::new(1), alloc, Fraction, p, d, entries),
            Kind::Prime(prime) => match Residue::of(prime) {
                Some(field) => raise_over::<_, Brand>(Blank::new(1), alloc, field, p, d, entries),
                None => None,
            },
        }
    }

    #[test]
    fn raises(rt: HostRuntime) -> Result<(), Fail> {
        let alloc = rt.alloc();
        let plain = Raised {
            fault: None,
            weight: 3,
            sections: 3,
            origins: Some(1),
            steps: 2,
            rows: 1,
            five_times_jacobi: false,
        };
        let cube = raise_from(alloc, b"field 7; odd u;", 3, 100);
        assert!(rt;
            cube == Some(Raised {
                five_times_jacobi: true,
                ..plain
            })
        );
        let fractions = raise_from(alloc, b"field Q; odd u;", 3, 100);
        assert!(rt; fractions == Some(plain));
        let twice = raise_from(alloc, b"field 7; even x; relation x; relation 2*x;", 1, 100);
        assert!(rt;
            twice
                == Some(Raised {
                    weight: 1,
                    sections: 1,
                    origins: Some(2),
                    ..plain
                })
        );
        let limit = raise_from(alloc, b"field 11; even x, y;", 6, 5);
        let fault = Some(RaiseFault::Limit {
            weight: 4,
            count: 9,
        });
        assert!(rt;
            limit
                == Some(Raised {
                    fault,
                    origins: Some(4),
                    steps: 0,
                    rows: 0,
                    ..plain
                })
        );
        let overflow = raise_from(
            alloc,
            b"field Q; even x, y, z; relation y = 170141183460469231731687303715884105727*x; relation z = 170141183460469231731687303715884105727*y;",
            2,
            100,
        );
        let fault = Some(RaiseFault::Overflow {
            weight: 1,
            op: Op::Mul,
            a: Num {
                numerator: MOST,
                denominator: 1,
            },
            b: Num {
                numerator: -MOST,
                denominator: 1,
            },
        });
        assert!(rt;
            overflow
                == Some(Raised {
                    fault,
                    weight: 0,
                    sections: 0,
                    origins: None,
                    steps: 0,
                    rows: 0,
                    ..plain
                })
        );
        Ok(())
    }
}
