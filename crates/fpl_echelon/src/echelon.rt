ghost use Rattle.std.specs.Prelude.{◌≡◌, ◌<◌, ◌≤◌, ◌+◌, [], length, replicate, All, IfOk, OnErr};
ghost use Rattle.fpl_numbers.specs.Numbers.{IsField, residue};
ghost use Rattle.fpl_numbers.specs.Results.{GivesBy, map_ok};
ghost use Rattle.fpl_scalar.specs.Vectors.{AreElements};
ghost use Rattle.plain_elimination.specs.Plain.{IsPivotRow, inserted_as, insert_of, close_of, rows_of};
ghost use Rattle.plain_elimination.specs.Spans.{SpansWith, ClosesTo};
ghost use Rattle.plain_lean.specs.Lean.{insert_lean};
ghost use Rattle.plain_spans.specs.Plain.{closed_of};
ghost use Rattle.fpl_echelon.specs.Outcomes.{lead_in, closed_as};

use crate::close::{Closed, close_all};
use crate::keep::put_in;
use crate::outcome::Outcome;
use crate::pivots::Pivots;
use crate::putting::{put_lean, put_work};
use fpl_log::{Origin, StepList, Term};
use fpl_rows::{Row, Work};
use fpl_scalar::{Fault, Field};
use fpl_steps::Steps;
use std::alloc::{AllocError, Global};
use std::marker::Model;
use std::sync::ledger::Ledger;

/// Rows in echelon form over a number of positions, and the steps that made them.
#[derive(Drop)]
pub struct Echelon<F: Field> {
    alloc: Global,
    field: F,
    size: u32,
    pivots: Pivots<F>,
    steps: StepList,
    // room for the terms that are taken off a row
    taken: Vec<Term>,
}

impl<F: Field> Model for Echelon<F> {
    ghost use Rattle.std.specs.Prelude.{All};
    ghost use Rattle.plain_elimination.specs.Plain.{Elimination, IsPivotRow};

    ghost Value = { Elimination };

    ghost view = { λ e. record { kind = F.kind_of e.field; size = e.size; held = record { pivots = e.pivots; steps = e.steps } } };

    ghost invariant = { λ e. All (IsPivotRow (F.kind_of e.field) e.size) e.pivots };
}

impl<F: Field> Echelon<F> {
    /// No rows, over `n` positions.
    pub fn start(alloc: Global, field: F, n: u32) -> Result<Echelon<F>, AllocError>
        ensures { IfOk result (λ e. e ≡ record { kind = F.kind_of field; size = n; held = record { pivots = []; steps = [] } }) }
    {
        Ok(Echelon {
            alloc,
            field,
            size: n,
            pivots: Pivots::new(alloc),
            steps: StepList::new(alloc),
            taken: Vec::new(alloc),
        })
    }

    /// Sweeps the row by the pivot rows present, scales the rest to lead 1 and keeps it, or
    /// finds it dependent; records one Insert step, with scale 0 where it is dependent.
    /// After a `Fault` the echelon is unchanged and the row is gone.
    pub fn insert<L: Ledger>(
        &mut self,
        row: Row<F>,
        origin: Origin,
        steps: &mut Steps<L>,
    ) -> Result<Outcome, Fault>
        requires size { length row ≡ self.old.size }
        requires elements { AreElements self.old.kind row }
        ensures value { GivesBy (λ outcome. inserted_as (lead_in outcome) self.new.held) result (insert_of self.old row origin) }
        ensures kind { self.new.kind ≡ self.old.kind }
        ensures size { self.new.size ≡ self.old.size }
        ensures unchanged { OnErr result (self.new ≡ self.old) }
        ensures spans { IfOk result (λ outcome. SpansWith self.old row self.new.held.pivots (lead_in outcome)) }
        ensures step { steps.new ≡ steps.old + 1 }
    {
        steps.tick();
        put_in(
            self.alloc,
            &self.field,
            self.size,
            &mut self.pivots,
            &mut self.steps,
            row,
            origin,
        )
    }

    /// As `insert`, of a row in work, which is emptied, also where it ends in a `Fault`.
    pub fn insert_work<L: Ledger>(
        &mut self,
        work: &mut Work<F>,
        origin: Origin,
        steps: &mut Steps<L>,
    ) -> Result<Outcome, Fault>
        requires size { length work.old.row ≡ self.old.size }
        requires kind { work.old.kind ≡ self.old.kind }
        ensures value { GivesBy (λ outcome. inserted_as (lead_in outcome) self.new.held) result (insert_of self.old work.old.row origin) }
        ensures kind { self.new.kind ≡ self.old.kind }
        ensures size { self.new.size ≡ self.old.size }
        ensures unchanged { OnErr result (self.new ≡ self.old) }
        ensures spans { IfOk result (λ outcome. SpansWith self.old work.old.row self.new.held.pivots (lead_in outcome)) }
        ensures emptied { work.new ≡ record { kind = work.old.kind; row = replicate (length work.old.row) (residue 0) } }
        ensures step { steps.new ≡ steps.old + 1 }
    {
        // its clauses say that the numbers are elements
        let _count = work.len();
        steps.tick();
        let outcome = put_work(
            self.alloc,
            &self.field,
            &mut self.pivots,
            &mut self.steps,
            work,
            &mut self.taken,
            origin,
        );
        work.clear();
        outcome
    }

    /// As `insert_work`, but that nothing is recorded of a dependent row.
    #[inline(always)]
    pub fn insert_lean<L: Ledger>(
        &mut self,
        row: &mut Work<F>,
        origin: Origin,
        steps: &mut Steps<L>,
    ) -> Result<Outcome, Fault>
        requires size { length row.old.row ≡ self.old.size }
        requires kind { row.old.kind ≡ self.old.kind }
        ensures value { GivesBy (λ outcome. inserted_as (lead_in outcome) self.new.held) result (insert_lean self.old row.old.row origin) }
        ensures kind { self.new.kind ≡ self.old.kind }
        ensures size { self.new.size ≡ self.old.size }
        ensures unchanged { OnErr result (self.new ≡ self.old) }
        ensures emptied { row.new ≡ record { kind = row.old.kind; row = replicate (length row.old.row) (residue 0) } }
        ensures step { steps.new ≡ steps.old + 1 }
    {
        // its clauses say that the numbers are elements
        let _count = row.len();
        steps.tick();
        let outcome = put_lean(
            self.alloc,
            &self.field,
            &mut self.pivots,
            &mut self.steps,
            row,
            &mut self.taken,
            origin,
        );
        row.clear();
        outcome
    }

    /// The closed rows of the same span by ascending pivot, and all steps: the Inserts first,
    /// then one Close step for each pivot.
    pub fn close(mut self) -> Result<Closed<F>, Fault>
        ensures value { GivesBy (λ closed. closed_as closed.rows closed.steps) result (map_ok (λ h. closed_as (rows_of h.pivots) h.steps) (close_of self)) }
        ensures form { IfOk result (λ closed. ClosesTo self closed.rows) }
    {
        let pivots = close_all(
            self.alloc,
            &self.field,
            &self.pivots,
            self.size,
            &mut self.steps,
        )?;
        let rows = pivots.into_rows(self.alloc)?;
        Ok(Closed {
            steps: self.steps,
            rows,
        })
    }

    /// The closed rows with their pivots, and no steps.
    pub fn close_pivots(mut self) -> Result<Pivots<F>, Fault>
        ensures value { GivesBy (λ pivots. pivots) result (closed_of self) }
        ensures pivots { IfOk result (λ pivots. All (IsPivotRow self.kind self.size) pivots) }
    {
        close_all(
            self.alloc,
            &self.field,
            &self.pivots,
            self.size,
            &mut self.steps,
        )
    }
}
