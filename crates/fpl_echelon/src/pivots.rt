ghost use Rattle.std.specs.Prelude.{◌≡◌, ◌≤◌, ◌<◌, ◌^◌, ◌++◌, ◌∷◌, [], List, OnOk, OnErr, length, IfOk};
ghost use Rattle.std.specs.Option.{option_copied};
ghost use Rattle.std.specs.List.{find};
ghost use Rattle.plain_elimination.specs.Plain.{PivotRow, stands_at, rows_of};
ghost use Rattle.fpl_echelon.specs.Index.{place_at, noted_at};

use fpl_rows::{Row, Rows};
use fpl_scalar::Field;
use std::alloc::{AllocError, Global};
use std::marker::Model;

/// A row with its lead and the step that made it.
#[derive(Drop)]
pub struct Pivot<F: Field> {
    lead: u32,
    step: u64,
    row: Row<F>,
}

impl<F: Field> Model for Pivot<F> {
    ghost use Rattle.plain_elimination.specs.Plain.{PivotRow};

    ghost Value = { PivotRow };

    ghost view = { λ p. record { lead = p.lead; step = p.step; row = p.row } };
}

impl<F: Field> Pivot<F> {
    pub fn of(lead: u32, step: u64, row: Row<F>) -> Self
        ensures { result ≡ record { lead = lead; step = step; row = row } }
    {
        Pivot { lead, step, row }
    }

    pub fn step(&self) -> u64
        ensures { result ≡ self.now.step }
    {
        self.step
    }

    pub fn row(&self) -> &Row<F>
        ensures { result.now ≡ self.now.row }
    {
        &self.row
    }

    fn into_row(self) -> Row<F>
        ensures { result ≡ self.row }
    {
        self.row
    }
}

/// Pivot rows, in the order in which they were made, with an index by lead.
#[derive(Drop)]
pub struct Pivots<F: Field> {
    rows: Vec<Pivot<F>>,
    // at lead - 1, where the first row with that lead stands
    places: Vec<Option<usize>>,
}

impl<F: Field> Model for Pivots<F> {
    ghost use Rattle.std.specs.Prelude.{List};
    ghost use Rattle.plain_elimination.specs.Plain.{PivotRow};
    ghost use Rattle.fpl_echelon.specs.Index.{IsIndex};

    ghost Value = { List PivotRow };

    ghost view = { λ r. r.rows.items };

    ghost invariant = { λ r. IsIndex r.places.items r.rows.items };
}

impl<F: Field> Pivots<F> {
    pub fn new(alloc: Global) -> Self
        ensures { result ≡ [] }
    {
        Pivots {
            rows: Vec::new(alloc),
            places: Vec::new(alloc),
        }
    }

    /// The first row whose lead this is.
    #[inline(always)]
    pub fn find(&self, lead: u32) -> Option<&Pivot<F>>
        requires { 1 ≤ lead }
        ensures { option_copied result ≡ find (stands_at lead) self.now }
    {
        match self.places.get(lead as usize - 1) {
            Some(Some(place)) => self.rows.get(*place),
            _ => None,
        }
    }

    /// Puts a row last. On a refusal the list is unchanged and the row is gone.
    pub fn push(&mut self, row: Pivot<F>) -> Result<(), AllocError>
        requires { 1 ≤ row.lead }
        ensures ok { OnOk result (self.new ≡ self.old ++ row ∷ []) }
        ensures err { OnErr result (self.new ≡ self.old) }
    {
        let lead = row.lead as usize;
        widen(&mut self.places, lead)?;
        let count = self.rows.len();
        self.rows.push(row)?;
        note(&mut self.places, lead - 1, count);
        Ok(())
    }

    /// The rows alone.
    pub fn into_rows(self, alloc: Global) -> Result<Rows<F>, AllocError>
        ensures { IfOk result (λ rows. rows ≡ rows_of self) }
    {
        let mut rows = Rows::new(alloc);
        for pivot in self.rows {
            rows.push(pivot.into_row())?;
        }
        Ok(rows)
    }
}

/// Lengthens the index to `lead` places, with no row at the new ones.
fn widen(places: &mut Vec<Option<usize>>, lead: usize) -> Result<(), AllocError>
    ensures long { OnOk result (lead ≤ length places.new.items) }
    ensures same { (s : _) → place_at places.new.items s ≡ place_at places.old.items s }
{
    while places.len() < lead {
        places.push(None)?;
    }
    Ok(())
}

/// Notes that the row with lead `place + 1` stands at `count`, where no row has that lead yet.
fn note(places: &mut Vec<Option<usize>>, place: usize, count: usize)
    requires { place < length places.old.items }
    ensures length { length places.new.items ≡ length places.old.items }
    ensures noted { places.new.items ≡ noted_at places.old.items place count }
{
    if places[place].is_none() {
        places[place] = Some(count);
    }
}
