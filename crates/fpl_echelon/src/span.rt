ghost use Rattle.std.specs.Prelude.{◌≡◌, ◌≤◌, ◌<◌, ◌+◌, ℕ, List, map, take, length, All, Ok, IfOk, OnErr};
ghost use Rattle.fpl_numbers.specs.declared.number.Num.{Num};
ghost use Rattle.fpl_numbers.specs.Results.{Gives, GivesBy, map_ok};
ghost use Rattle.fpl_rows.specs.Meaning.{IsRowOf, AreRows};
ghost use Rattle.plain_elimination.specs.Plain.{IsPivotRow, rows_of};
ghost use Rattle.plain_elimination.specs.Spans.{ClosesTo};
ghost use Rattle.plain_spans.specs.Plain.{begin, put_row, put_rows, closed_of};

use crate::echelon::Echelon;
use crate::pivots::Pivots;
use fpl_log::Origin;
use fpl_rows::{Row, Rows, Work};
use fpl_scalar::{Fault, Field};
use fpl_steps::Steps;
use std::alloc::{AllocError, Global};
use std::marker::Model;
use std::sync::ledger::Ledger;

/// An elimination of rows for what they span, whatever they come from.
#[derive(Drop)]
pub struct Span<F: Field> {
    echelon: Echelon<F>,
    // 0 at each position, between calls
    work: Work<F>,
}

impl<F: Field> Model for Span<F> {
    ghost use Rattle.std.specs.Prelude.{◌≡◌, replicate};
    ghost use Rattle.fpl_numbers.specs.Numbers.{residue};
    ghost use Rattle.plain_elimination.specs.Plain.{Elimination};

    ghost Value = { Elimination };

    ghost view = { λ s. s.echelon };

    ghost invariant = { λ s. s.work ≡ record { kind = s.echelon.kind; row = replicate s.echelon.size (residue 0) } };
}

impl<F: Field> Span<F> {
    /// No rows, over `n` positions.
    pub fn start(alloc: Global, field: F, n: u32) -> Result<Span<F>, AllocError>
        ensures { IfOk result (λ s. s ≡ begin (F.kind_of field) n) }
    {
        let echelon = Echelon::start(alloc, field, n)?;
        let work = Work::new(alloc, field, n)?;
        Ok(Span { echelon, work })
    }

    /// The number of positions.
    pub fn len(&self) -> u32
        ensures { result ≡ self.now.size }
    {
        self.work.len()
    }

    /// Puts a row in. After a `Fault` the rows held are as before.
    pub fn put<L: Ledger>(&mut self, row: &Row<F>, steps: &mut Steps<L>) -> Result<(), Fault>
        requires row { IsRowOf self.old.kind self.old.size row.now }
        ensures value { Gives result self.new (put_row (Ok row.now) self.old) }
        ensures unchanged { OnErr result (self.new ≡ self.old) }
        ensures kind { self.new.kind ≡ self.old.kind }
        ensures size { self.new.size ≡ self.old.size }
        ensures step { steps.new ≡ steps.old + 1 }
    {
        self.work.load(row);
        match self
            .echelon
            .insert_work(&mut self.work, Origin::Row(0), steps)
        {
            Ok(_) => Ok(()),
            Err(fault) => Err(fault),
        }
    }

    /// Puts rows in, in order, up to the first whose `put` ends in a `Fault`; the rows before that one are held then.
    pub fn put_all<L: Ledger>(&mut self, rows: &Rows<F>, steps: &mut Steps<L>) -> Result<(), Fault>
        requires rows { AreRows self.old.kind self.old.size rows.now }
        ensures value { Gives result self.new (put_rows (map Ok rows.now) self.old) }
        ensures front { OnErr result ((k : ℕ) × (k < length rows.now) × (put_rows (map Ok (take k rows.now)) self.old ≡ Ok self.new)) }
        ensures kind { self.new.kind ≡ self.old.kind }
        ensures size { self.new.size ≡ self.old.size }
        ensures rises { steps.old ≤ steps.new }
    {
        for k in 0..rows.len() {
            if let Some(row) = rows.get(k) {
                match self.put(row, steps) {
                    Ok(()) => {}
                    Err(fault) => return Err(fault),
                }
            }
        }
        Ok(())
    }

    /// The closed rows of what the rows span, by ascending pivot.
    pub fn close(self) -> Result<Rows<F>, Fault>
        ensures value { GivesBy (λ (rows : List (List Num)). rows) result (map_ok rows_of (closed_of self)) }
        ensures form { IfOk result (λ rows. ClosesTo self rows) }
    {
        match self.echelon.close() {
            Ok(closed) => Ok(closed.rows),
            Err(fault) => Err(fault),
        }
    }

    /// The same with their pivots.
    pub fn close_pivots(self) -> Result<Pivots<F>, Fault>
        ensures value { GivesBy (λ pivots. pivots) result (closed_of self) }
        ensures pivots { IfOk result (λ pivots. All (IsPivotRow self.kind self.size) pivots) }
    {
        self.echelon.close_pivots()
    }
}
