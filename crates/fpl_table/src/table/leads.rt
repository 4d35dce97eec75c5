ghost use Rattle.std.specs.Prelude.{◌≡◌, ◌≤◌, ◌<◌, ◌+◌, ◌-◌, ◌^◌, List, [], length, get_or, replicate, IfOk};
ghost use Rattle.std.specs.Option.{option_copied};
ghost use Rattle.fpl_numbers.specs.declared.number.Num.{Num};
ghost use Rattle.fpl_rows.specs.Meaning.{pivot_of};
ghost use Rattle.fpl_table.specs.Leads.{AreLeads, ArePlaces};
ghost use Rattle.fpl_table.specs.Push.{row_with_lead};

use fpl_rows::{Row, Rows};
use fpl_scalar::Field;
use std::alloc::{AllocError, Global};

/// The place, from 0, of the lead of row `k`, counted from 0.
fn lead_place<F: Field>(rows: &Rows<F>, k: usize) -> usize
    requires { k < length rows.now }
    ensures { result ≡ pivot_of (get_or rows.now k []) }
{
    match rows.get(k) {
        Some(row) => (row.lead().unwrap_or(1) as usize).saturating_sub(1),
        None => 0,
    }
}

fn zeros(alloc: Global, count: usize) -> Result<Vec<usize>, AllocError>
    ensures { IfOk result (λ all. all.items ≡ replicate count 0) }
{
    let mut all = Vec::new(alloc);
    for _ in 0..count {
        all.push(0)?;
    }
    Ok(all)
}

/// For each of `count` places the number, from 1, of the first row that it leads, or 0.
fn leads_of<F: Field>(alloc: Global, rows: &Rows<F>, count: usize) -> Result<Vec<usize>, AllocError>
    ensures { IfOk result (λ leads. AreLeads rows.now count leads.items) }
{
    let mut leads = zeros(alloc, count)?;
    let mut k = rows.len();
    while k > 0 {
        k -= 1;
        let place = lead_place(rows, k);
        if place < count {
            leads[place] = k + 1;
        }
    }
    Ok(leads)
}

/// Closed rows, with what they say of each place, counted from 0: it leads a row, or it is free.
#[derive(Drop)]
pub struct ClosedRows<'a, F: Field> {
    pub rows: &'a Rows<F>,
    /// For each place the number, from 1, of the first row that it leads, or 0.
    pub leads: Vec<usize>,
    /// For each place how many places below it are free.
    pub ranks: Vec<u32>,
    /// The free places, ascending.
    pub free: Vec<u32>,
}

impl<'a, F: Field> ClosedRows<'a, F> {
    /// What rows say of `count` places.
    pub fn of(
        alloc: Global,
        rows: &'a Rows<F>,
        count: usize,
    ) -> Result<ClosedRows<'a, F>, AllocError>
        requires { count < 2 ^ 32 }
        ensures rows { IfOk result (λ closed. closed.rows.now ≡ rows.now) }
        ensures places { IfOk result (λ closed. ArePlaces count closed) }
    {
        let leads = leads_of(alloc, rows, count)?;
        let mut ranks = Vec::with_capacity(alloc, count)?;
        let mut free = Vec::new(alloc);
        for s in 0..count {
            ranks.push(free.len() as u32)?;
            if leads[s] == 0 {
                free.push(s as u32)?;
            }
        }
        Ok(ClosedRows {
            rows,
            leads,
            ranks,
            free,
        })
    }

    /// The row that the place `s` leads, if it leads one.
    pub fn row(&self, s: usize) -> Option<&Row<F>>
        requires places { ArePlaces (length self.now.leads.items) self.now }
        requires place { s < length self.now.leads.items }
        ensures { option_copied result ≡ row_with_lead self.now.rows.now s }
    {
        match self.leads[s] {
            0 => None,
            k => self.rows.get(k - 1),
        }
    }
}
