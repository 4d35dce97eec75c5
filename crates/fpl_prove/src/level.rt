//! The symbols of a new weight, as forms over the basis that has its elements.
ghost use Rattle.std.specs.Prelude.{◌≡◌, ◌≢◌, ◌<◌, ◌≤◌, ◌++◌, ◌^◌, None, ℕ, length, map, slice_index, get_or, All, IfOk, IfSome, OnOk};
ghost use Rattle.fpl_forms.specs.Ledgers.{IsExpr, Grows};
ghost use Rattle.fpl_forms.specs.Forms.{IsWork};
ghost use Rattle.fpl_forms.specs.Combining.{lefts, atom_of};
ghost use Rattle.fpl_facts.specs.Facts.{IsZero};
ghost use Rattle.fpl_table_facts.specs.Known.{IsFormOf};
ghost use Rattle.fpl_prove.specs.Learning.{free_below, trees_at, IsSolvedAt, AreSolved, AreValues};

use fpl_facts::{plus_zero, zero_times};
use fpl_forms::{Fact, Ledger, Term};
use fpl_model::Expr;
use std::alloc::{AllocError, Global};

/// Which of some leads a place is, from 0.
fn lead_at(leads: &[u32], s: u32) -> Option<usize>
    ensures some { IfSome result (λ k. (k < length leads.now) × (slice_index leads.now k ≡ s)) }
    ensures none { result ≡ None → (k : ℕ) → k < length leads.now → slice_index leads.now k ≢ s }
{
    for k in 0..leads.len() {
        if leads[k] == s {
            return Some(k);
        }
    }
    None
}

/// Puts the trees that are at no lead last.
pub(crate) fn new_basis(
    alloc: Global,
    basis: &mut Vec<Expr>,
    trees: &[Expr],
    leads: &[u32],
) -> Result<(), AllocError>
    requires { length trees.now < 2 ^ 32 }
    ensures { OnOk result (basis.new.items ≡ basis.old.items ++ trees_at trees.now (free_below leads.now (length trees.now))) }
{
    for s in 0..trees.len() {
        match lead_at(leads, s as u32) {
            None => basis.push(trees[s].copy(alloc)?)?,
            Some(_) => {}
        }
    }
    Ok(())
}

/// The prime of a ledger is more than 2.
fn past_two<'a>(ledger: &Ledger<'a>)
    ensures { 2 < ledger.now.prime }
{
    ledger.sound();
}

/// The values of the atoms of terms, in order.
fn values_of<'a>(
    alloc: Global,
    ledger: &Ledger<'a>,
    basis: &[Expr],
    trees: &[Expr],
    values: &[Fact],
    terms: &[Term],
) -> Result<Vec<Fact>, AllocError>
    requires values { AreValues ledger.now basis.now trees.now values.now }
    requires terms { All (λ t. t.atom < length values.now) terms.now }
    ensures works { IfOk result (λ fs. All (IsWork ledger.now basis.now) fs.items) }
    ensures lefts { IfOk result (λ fs. lefts ledger.now fs.items ≡ map (atom_of trees.now) terms.now) }
{
    let _ = ledger;
    let mut facts = Vec::new(alloc);
    for t in terms {
        facts.push(values[t.atom as usize].copy(alloc)?)?;
    }
    Ok(facts)
}

/// The value of the symbol at the greatest place of what is 0, from the values of those before it.
fn solved_value<'a>(
    alloc: Global,
    ledger: &mut Ledger<'a>,
    basis: &[Expr],
    trees: &[Expr],
    values: &[Fact],
    zero: &Fact,
    s: u32,
) -> Result<Fact, AllocError>
    requires basis { All (IsExpr ledger.old.presentation) basis.now }
    requires trees { All (IsExpr ledger.old.presentation) trees.now }
    requires values { AreValues ledger.old basis.now trees.now values.now }
    requires place { s < length trees.now }
    requires before { s ≤ length values.now }
    requires zero { IsZero ledger.old trees.now zero.now }
    requires solved { IsSolvedAt ledger.old.prime s zero.now.terms.items }
    ensures grows { OnOk result (Grows ledger.old ledger.new) }
    ensures value { IfOk result (λ f. IsFormOf ledger.new basis.now (get_or trees.now s Expr.Zero) f) }
{
    ledger.sound();
    past_two(ledger);
    let minus_one = ledger.prime() - 1;
    let unit = ledger.unit(trees, s)?;
    let off = zero_times(alloc, ledger, trees, minus_one, zero)?;
    let rest = plus_zero(alloc, ledger, trees, &unit, &off)?;
    let facts = values_of(alloc, ledger, basis, trees, values, &rest.terms)?;
    let value = ledger.substitute(trees, basis, &rest, &facts)?;
    Ok(value)
}

/// The value of each symbol: of one at a lead from what is 0, of another the new basis element that it is.
pub(crate) fn symbol_values<'a>(
    alloc: Global,
    ledger: &mut Ledger<'a>,
    basis: &[Expr],
    before: usize,
    trees: &[Expr],
    leads: &[u32],
    closed: &[Fact],
) -> Result<Vec<Fact>, AllocError>
    requires few { length basis.now < 2 ^ 32 }
    requires symbols { length trees.now < 2 ^ 32 }
    requires basis { All (IsExpr ledger.old.presentation) basis.now }
    requires trees { All (IsExpr ledger.old.presentation) trees.now }
    requires zeros { All (IsZero ledger.old trees.now) closed.now }
    requires solved { AreSolved ledger.old.prime leads.now closed.now }
    requires count { length closed.now ≡ length leads.now }
    requires free { (old : _) × (length old ≡ before) × (basis.now ≡ old ++ trees_at trees.now (free_below leads.now (length trees.now))) }
    ensures grows { OnOk result (Grows ledger.old ledger.new) }
    ensures count { IfOk result (λ fs. length fs.items ≡ length trees.now) }
    ensures values { IfOk result (λ fs. AreValues ledger.new basis.now trees.now fs.items) }
{
    let mut values = Vec::new(alloc);
    let mut i = before;
    for s in 0..trees.len() {
        let value = match lead_at(leads, s as u32) {
            Some(k) => { solved_value(alloc, ledger, basis, trees, &values, &closed[k], s as u32)? }
            None => {
                let unit = ledger.unit(basis, i as u32)?;
                i += 1;
                unit
            }
        };
        values.push(value)?;
    }
    Ok(values)
}
