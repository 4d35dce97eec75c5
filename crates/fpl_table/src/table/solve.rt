ghost use Rattle.std.specs.Prelude.{◌≡◌, ◌≤◌, ◌<◌, ◌+◌, ◌-◌, ◌*◌, ◌++◌, suc, nat_eq, cond, [], length, map, get_or, All, IfOk, Some};
ghost use Rattle.fpl_rows.specs.Meaning.{IsRowOf};
ghost use Rattle.fpl_scalar.specs.Vectors.{AreElements};
ghost use Rattle.math_linear.specs.Lists.{joined};
ghost use Rattle.math_algebra.specs.Table.{of_generator};
ghost use Rattle.fpl_table.specs.Plain.{symbols_in, plain_basis, generator_at};
ghost use Rattle.fpl_table.specs.Cells.{generator_cell, generator_cells, pair_cells, pairs_to};
ghost use Rattle.fpl_table.specs.Shape.{HasShape, IsRowUpTo};
ghost use Rattle.fpl_table.specs.Value.{zero_row};
ghost use Rattle.fpl_table.specs.Push.{row_with_lead, solved, symbol_row, row_of_symbol, new_images, new_partners, new_entries};
ghost use Rattle.fpl_table.specs.Leads.{IsSolved};

use super::Table;
use super::leads::ClosedRows;
use fpl_rows::Row;
use fpl_scalar::Field;
use std::alloc::{AllocError, Global};

/// How many numbers a packed row tells beside its lead: so much room is asked for.
fn room_of<F: Field>(row: &Row<F>) -> usize {
    match row.cells() {
        Some((places, _)) => places.len().saturating_sub(1),
        None => 0,
    }
}

impl<F: Field> Table<F> {
    /// How many basis elements there are with those of the next weight.
    pub(super) fn size_with(&self, closed: &ClosedRows<F>) -> u32
        requires { IsSolved self.now closed.now }
        ensures value { result ≡ length self.now.basis + length closed.now.free.items }
        ensures shape { HasShape self.now }
    {
        self.basis_len() + closed.free.len() as u32
    }

    /// The symbol at the free place `s`, over the basis with the new elements: the one that
    /// stands for it.
    fn free_symbol(
        &self,
        alloc: Global,
        closed: &ClosedRows<F>,
        s: usize,
    ) -> Result<Row<F>, AllocError>
        requires solved { IsSolved self.now closed.now }
        requires place { s < length (symbols_in self.now) }
        requires free { row_with_lead closed.now.rows.now s ≡ None }
        ensures value { IfOk result (λ row. row ≡ symbol_row self.now closed.now.rows.now s) }
        ensures elements { IfOk result (λ row. AreElements self.now.kind row) }
    {
        let field = self.field();
        let size = self.size_with(closed);
        let place = self.basis_len() + closed.ranks[s];
        let mut numbers = Vec::with_capacity(alloc, 1)?;
        numbers.push(field.one())?;
        Row::spread(alloc, field, size, &[place], &numbers)
    }

    /// The symbol that leads `row`, over the basis with the new elements: minus the rest of the
    /// row. Of the row only the numbers that aren't 0 are visited.
    fn lead_symbol(
        &self,
        alloc: Global,
        closed: &ClosedRows<F>,
        row: &Row<F>,
    ) -> Result<Row<F>, AllocError>
        requires solved { IsSolved self.now closed.now }
        requires row { IsRowOf self.now.kind (length (symbols_in self.now)) row.now }
        ensures value { IfOk result (λ r. r ≡ zero_row (length self.now.basis) ++ solved self.now.kind closed.now.free.items 0 (Some row.now)) }
        ensures elements { IfOk result (λ r. AreElements self.now.kind r) }
    {
        let field = self.field();
        let basis = self.basis_len();
        let room = room_of(row);
        let mut places = Vec::with_capacity(alloc, room)?;
        let mut numbers = Vec::with_capacity(alloc, room)?;
        let mut after = 0;
        while let Some(s) = row.next(after) {
            let t = s as usize - 1;
            if closed.leads[t] == 0 {
                places.push(basis + closed.ranks[t])?;
                numbers.push(field.neg(row.at(s)))?;
            }
            after = s;
        }
        let size = self.size_with(closed);
        Row::spread_vec(alloc, field, size, places, numbers)
    }

    /// What the symbol at place `s` is, over the basis with the new elements.
    pub(super) fn symbol_row(
        &self,
        alloc: Global,
        closed: &ClosedRows<F>,
        s: usize,
    ) -> Result<Row<F>, AllocError>
        requires solved { IsSolved self.now closed.now }
        requires place { s < length (symbols_in self.now) }
        ensures value { IfOk result (λ row. row ≡ symbol_row self.now closed.now.rows.now s) }
        ensures whole { IfOk result (λ row. IsRowUpTo self.now.kind (length self.now.basis + length closed.now.free.items) row) }
    {
        match closed.row(s) {
            Some(row) => self.lead_symbol(alloc, closed, row),
            None => self.free_symbol(alloc, closed, s),
        }
    }

    /// Whether the generator at place `g` is of the next weight.
    fn is_next(&self, g: usize) -> bool
        requires { g < length self.now.generators }
        ensures value { result ≡ nat_eq (generator_at self.now g).weight (suc self.now.weight) }
        ensures shape { HasShape self.now }
    {
        self.shapes[g].weight == self.levels.len() as u32 + 1
    }

    /// The image of the generator at place `g`, if it is of the next weight: its symbol stands
    /// at `place`. Else an empty row.
    fn new_image(
        &self,
        alloc: Global,
        closed: &ClosedRows<F>,
        g: usize,
        place: usize,
    ) -> Result<Row<F>, AllocError>
        requires solved { IsSolved self.now closed.now }
        requires number { g < length self.now.generators }
        requires place { place ≡ length (joined g (generator_cell self.now (self.now.weight + 1))) }
        ensures value { IfOk result (λ row. row ≡ cond (nat_eq (generator_at self.now g).weight (suc self.now.weight))
            (row_of_symbol self.now closed.now.rows.now (of_generator g)) []) }
        ensures whole { IfOk result (λ row. IsRowUpTo self.now.kind (length self.now.basis + length closed.now.free.items) row) }
    {
        if self.is_next(g) {
            self.symbol_row(alloc, closed, place)
        } else {
            Ok(Row::from_vec(self.field(), Vec::new(alloc)))
        }
    }

    /// The images of the generators of the next weight, and empty rows for the others.
    pub(super) fn new_images(
        &self,
        alloc: Global,
        closed: &ClosedRows<F>,
    ) -> Result<Vec<Row<F>>, AllocError>
        requires { IsSolved self.now closed.now }
        ensures value { IfOk result (λ images. images.items ≡ new_images self.now closed.now.rows.now 0 self.now.generators) }
        ensures whole { IfOk result (λ images. All (IsRowUpTo self.now.kind (length self.now.basis + length closed.now.free.items)) images.items) }
    {
        let mut images = Vec::new(alloc);
        let mut place = 0;
        for g in 0..self.shapes.len() {
            let image = self.new_image(alloc, closed, g, place)?;
            images.push(image)?;
            if self.is_next(g) {
                place += 1;
            }
        }
        Ok(images)
    }

    /// The entries of the next weight of basis element `i`. The first of them stands at `start`
    /// among the symbols.
    fn new_partners(
        &self,
        alloc: Global,
        closed: &ClosedRows<F>,
        i: u32,
        start: usize,
    ) -> Result<Vec<Row<F>>, AllocError>
        requires solved { IsSolved self.now closed.now }
        requires number { (1 ≤ i) × (i ≤ length self.now.basis) }
        requires start { start ≡ length (generator_cells self.now (self.now.weight + 1)) + length (pairs_to self.now (self.now.weight + 1) (i - 1)) }
        ensures value { IfOk result (λ partners. partners.items ≡ new_partners self.now closed.now.rows.now (i - 1) 0 self.now.basis) }
        ensures whole { IfOk result (λ partners. All (IsRowUpTo self.now.kind (length self.now.basis + length closed.now.free.items)) partners.items) }
        ensures count { IfOk result (λ partners. length partners.items ≡ length (pair_cells self.now (self.now.weight + 1) (i - 1))) }
    {
        let (from, to) = self.partners(i, self.weight() + 1);
        let mut partners = Vec::new(alloc);
        for j in from..to {
            let place = start + (j - from) as usize;
            partners.push(self.symbol_row(alloc, closed, place)?)?;
        }
        Ok(partners)
    }

    /// The entries of the next weight, by basis element.
    pub(super) fn new_entries(
        &self,
        alloc: Global,
        closed: &ClosedRows<F>,
    ) -> Result<Vec<Vec<Row<F>>>, AllocError>
        requires { IsSolved self.now closed.now }
        ensures value { IfOk result (λ entries. map (λ v. v.items) entries.items ≡ new_entries self.now closed.now.rows.now 0 self.now.basis) }
        ensures whole { IfOk result (λ entries. All (λ partners. All (IsRowUpTo self.now.kind (length self.now.basis + length closed.now.free.items)) partners)
            (map (λ v. v.items) entries.items)) }
    {
        let mut entries = Vec::new(alloc);
        let mut place = self.generator_count(self.weight() + 1) as usize;
        for i in 0..self.basis_len() {
            let partners = self.new_partners(alloc, closed, i + 1, place)?;
            place += partners.len();
            entries.push(partners)?;
        }
        Ok(entries)
    }
}
