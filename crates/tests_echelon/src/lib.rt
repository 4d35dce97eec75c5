//! Eliminations over residues and fractions, worked by hand.
#![tactic(auto)]

ghost use Rattle.std.specs.Prelude.{◌≡◌, ◌<◌, length, IfOk};
ghost use Rattle.fpl_numbers.specs.Numbers.{IsElement};
ghost use Rattle.fpl_scalar.specs.Vectors.{AreElements};
ghost use Rattle.fpl_log.specs.Slim.{AllNameEarlier};

#[cfg(test)]
mod tests {
    use fpl_echelon::{Echelon, Outcome, sweep};
    use fpl_log::{
        ClosedList, ClosedRow, Coefficient, Origin, Section, Sections, Step, StepList, Term, Terms,
        conclude,
    };
    use fpl_rows::{Row, Rows};
    use fpl_scalar::{Fault, Field, Fraction, Kind, Num, PRIMES, Residue};
    use fpl_steps::Steps;
    use std::alloc::{AllocError, Global};
    use std::marker::Brand;
    use std::sync::ledger::{Blank, Ledger};
    use std::test::Fail;

    /// A whole number from 0 on.
    fn whole<F: Field>(field: &F, n: u32) -> Result<F::Elem, Fault>
        ensures { IfOk result (λ c. IsElement (F.kind_of field.now) (F.number c)) }
    {
        let mut sum = field.zero();
        for _ in 0..n {
            match field.add(sum, field.one()) {
                Ok(next) => sum = next,
                Err(unfit) => return Err(Fault::Unfit(unfit)),
            }
        }
        Ok(sum)
    }

    /// A row of three whole numbers.
    fn row<F: Field>(alloc: Global, field: &F, a: u32, b: u32, c: u32) -> Result<Row<F>, Fault>
        ensures elements { IfOk result (λ r. AreElements (F.kind_of field.now) r) }
        ensures length { IfOk result (λ r. length r ≡ 3) }
    {
        let mut row = Row::zero(alloc, field, 3)?;
        row.add_at(field, 1, whole(field, a)?)?;
        row.add_at(field, 2, whole(field, b)?)?;
        row.add_at(field, 3, whole(field, c)?)?;
        Ok(row)
    }

    /// Puts (1,2,3), (2,4,6) and (0,1,1) in and closes, which gives (-1,1,0) and (1,0,1) by five
    /// steps; (2,3,4) leaves (1,0,0), and (1,2,3) nothing.
    fn is_right<F: Field, L: Ledger>(blank: Blank, alloc: Global, field: F) -> Result<bool, Fault>
        requires name { blank.name ≡ L.name }
        requires parts { blank.parts ≡ L.parts }
        requires some { 0 < blank.parts }
    {
        let mut counter = Steps::<L>::new(blank);
        let steps = &mut counter;
        let mut echelon = Echelon::start(alloc, field, 3)?;
        let first = echelon.insert(row(alloc, &field, 1, 2, 3)?, Origin::Row(1), steps)?;
        let second = echelon.insert(row(alloc, &field, 2, 4, 6)?, Origin::Row(2), steps)?;
        let third = echelon.insert(row(alloc, &field, 0, 1, 1)?, Origin::Row(3), steps)?;
        let closed = echelon.close()?;
        let left = sweep(alloc, &field, &closed.rows, row(alloc, &field, 2, 3, 4)?)?;
        let none = sweep(alloc, &field, &closed.rows, row(alloc, &field, 1, 2, 3)?)?;
        let outcomes = first == Outcome::Pivot(3)
            && second == Outcome::Dependent
            && third == Outcome::Pivot(2);
        let low = match closed.rows.get(0) {
            Some(low) => low.lead() == Some(2) && low.next(0) == Some(1),
            None => false,
        };
        let high = match closed.rows.get(1) {
            Some(high) => high.lead() == Some(3) && high.next(1) == Some(3),
            None => false,
        };
        let counts = closed.rows.len() == 2 && closed.steps.len() == 5;
        let last = matches!(closed.steps.get(4), Some(Step::Close { of: 1, .. }));
        let remainders = left.lead() == Some(1) && none.is_zero();
        Ok(outcomes && low && high && counts && last && remainders)
    }

    /// Three steps: a row; a dependent one; and the first less both.
    fn section(alloc: Global) -> Result<Section, AllocError>
        ensures { IfOk result (λ s. AllNameEarlier 0 s.steps) }
    {
        let one = Num {
            numerator: 1,
            denominator: 1,
        };
        let zero = Num {
            numerator: 0,
            denominator: 1,
        };
        let mut terms = Terms::new(alloc);
        terms.push(Term {
            step: 1,
            factor: one,
        })?;
        terms.push(Term {
            step: 2,
            factor: one,
        })?;
        let mut steps = StepList::new(alloc);
        steps.push(Step::Insert {
            origin: Origin::Relation(1),
            terms: Terms::new(alloc),
            scale: one,
        })?;
        steps.push(Step::Insert {
            origin: Origin::Cube(2),
            terms: Terms::new(alloc),
            scale: zero,
        })?;
        steps.push(Step::Close { of: 1, terms })?;
        let mut row = ClosedRow::new(alloc);
        row.push(Coefficient {
            symbol: 3,
            number: one,
        })?;
        let mut closed = ClosedList::new(alloc);
        closed.push(row)?;
        Ok(Section {
            weight: 4,
            origins: None,
            steps,
            closed,
        })
    }

    #[test]
    fn slims_and_copies(rt: HostRuntime) -> Result<(), Fail> {
        let alloc = rt.alloc();
        let whole = section(alloc)?;
        let copied = whole.copy(alloc)?;
        assert!(rt; copied.steps.len() == 3 && copied.closed.len() == 1 && copied.weight == 4);
        let slim = whole.slim(alloc, 7)?;
        assert!(rt; slim.origins == Some(7));
        assert!(rt; slim.steps.len() == 2);
        let terms = match slim.steps.get(1) {
            Some(Step::Close { of: 1, terms }) => terms.len(),
            _ => 0,
        };
        assert!(rt; terms == 1);
        let mut sections = Sections::new(alloc);
        sections.push(slim)?;
        assert!(rt; sections.len() == 1 && sections.get(0).is_some());
        Ok(())
    }

    /// 2 * ((1,1,1) - 1 * (0,1,0)) is (2,0,2).
    fn concludes<F: Field>(alloc: Global, field: &F) -> Result<bool, Fault> {
        let mut terms = Terms::new(alloc);
        terms.push(Term {
            step: 1,
            factor: field.num(field.one()),
        })?;
        let mut earlier = Rows::new(alloc);
        earlier.push(row(alloc, field, 0, 1, 0)?)?;
        let start = row(alloc, field, 1, 1, 1)?.copy(alloc)?;
        let scale = whole(field, 2)?;
        let row = conclude(alloc, field, start, &terms, Some(scale), &earlier)?;
        Ok(
            row.len() == 3
                && field.same(row.at(1), scale)
                && row.next(1) == Some(3)
                && field.num(row.at(3)) == field.num(scale),
        )
    }

    #[test]
    fn accepts_its_primes_alone(rt: HostRuntime) {
        for p in PRIMES {
            let kind = Residue::of(p).map(|field| field.kind());
            assert!(rt; kind == Some(Kind::Prime(p)), "{p} is accepted");
        }
        for p in [0, 1, 2, 4, 9, 37, 10009, 65519, 65537, 4294967291] {
            assert!(rt; Residue::of(p).is_none(), "{p} is not accepted");
        }
    }

    #[test]
    fn eliminates(rt: HostRuntime) -> Result<(), Fail> {
        let alloc = rt.alloc();
        let residues = Residue::of(7).expect(&rt, "7 is accepted");
        let over_residues = is_right::<_, Brand>(Blank::new(1), alloc, residues);
        assert!(rt; matches!(over_residues, Ok(true)));
        let over_fractions = is_right::<_, Brand>(Blank::new(1), alloc, Fraction);
        assert!(rt; matches!(over_fractions, Ok(true)));
        assert!(rt; matches!(concludes(alloc, &residues), Ok(true)));
        assert!(rt; matches!(concludes(alloc, &Fraction), Ok(true)));
        Ok(())
    }
}
