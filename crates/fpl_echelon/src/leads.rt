ghost use Rattle.std.specs.Prelude.{◌≡◌, ◌≤◌, length, replicate, None, IfOk, All};
ghost use Rattle.std.specs.Option.{option_copied};
ghost use Rattle.std.specs.List.{find};
ghost use Rattle.fpl_echelon.specs.Leads.{leads_at, IsLeadIndex};

use fpl_rows::{Row, Rows};
use fpl_scalar::Field;
use std::alloc::{AllocError, Global};
use std::marker::Model;

/// Where the row with each lead stands, in a list of closed rows.
#[derive(Drop)]
pub struct Leads {
    // at lead - 1
    places: Vec<Option<usize>>,
}

impl Model for Leads {
    ghost use Rattle.std.specs.Prelude.{List, Option, ℕ};

    ghost Value = { List (Option ℕ) };

    ghost view = { λ l. l.places.items };
}

/// No place, for each of `n` leads.
fn no_places(alloc: Global, n: u32) -> Result<Vec<Option<usize>>, AllocError>
    ensures { IfOk result (λ places. places.items ≡ replicate n None) }
{
    let mut places = Vec::with_capacity(alloc, n as usize)?;
    for _ in 0..n {
        places.push(None)?;
    }
    Ok(places)
}

impl Leads {
    /// The leads of rows over at most `n` positions.
    pub fn of<F: Field>(alloc: Global, n: u32, rows: &Rows<F>) -> Result<Leads, AllocError>
        requires { All (λ row. length row ≤ n) rows.now }
        ensures { IfOk result (λ leads. IsLeadIndex rows.now leads) }
    {
        let mut places = no_places(alloc, n)?;
        let mut k = rows.len();
        while k > 0 {
            k -= 1;
            if let Some(row) = rows.get(k) {
                if let Some(lead) = row.lead() {
                    places[lead as usize - 1] = Some(k);
                }
            }
        }
        Ok(Leads { places })
    }

    /// The first row with this lead.
    #[inline(always)]
    pub fn row<'a, F: Field>(&self, rows: &'a Rows<F>, lead: u32) -> Option<&'a Row<F>>
        requires lead { 1 ≤ lead }
        requires leads { IsLeadIndex rows.now self.now }
        ensures { option_copied result ≡ find (leads_at lead) rows.now }
    {
        match self.places.get(lead as usize - 1) {
            Some(Some(place)) => rows.get(*place),
            _ => None,
        }
    }
}
