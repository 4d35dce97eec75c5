ghost use Rattle.std.specs.Prelude.{◌≡◌, ◌≤◌, ◌<◌, ◌+◌, ◌-◌, ◌++◌, ◌∷◌, [], ◌↔◌, ℕ, List, max, take, length, All, Ok, Err, IfOk, OnOk, OnErr, IsErrOf};
ghost use Rattle.fpl_numbers.specs.declared.number.Num.{Num};
ghost use Rattle.fpl_numbers.specs.declared.number.Op.{Op};
ghost use Rattle.fpl_numbers.specs.declared.number.Kind.{Kind};
ghost use Rattle.plain_elimination.specs.Plain.{Held, rows_of};
ghost use Rattle.fpl_model.specs.Sound.{IsSound};
ghost use Rattle.fpl_table.specs.Push.{push_of};
ghost use Rattle.fpl_table.specs.Standard.{start_of, count_through, IsTableOf};
ghost use Rattle.fpl_rewrite.specs.Origins.{origins_of};
ghost use Rattle.plain_tables.specs.Raised.{IsRaised};
ghost use Rattle.plain_weights.specs.Weight.{close_weight, next_of};
ghost use Rattle.plain_weights.specs.Section.{slimmed, section_of, Computes, OverflowsAt};
ghost use Rattle.fpl_check.specs.declared.fault.Spot.{Spot};
ghost use Rattle.fpl_check.specs.declared.fault.Why.{Why};
ghost use Rattle.fpl_check.specs.Refusal.{bad, unfit};
ghost use Rattle.fpl_check.specs.Premises.{IsSectionFor};
ghost use Rattle.fpl_check.specs.Check.{check_of, Accepts};
ghost use Rattle.fpl_section_bytes.specs.Stored.{IsWritable};
ghost use Rattle.fpl_complete.specs.State.{AreAccepted, AreOfWeights, BoundsOrigins, IsStorable, PassesAfter, section_at, sum_after, unfit_of};

use crate::accepting::accept;
use crate::weight::complete_weight;
use crate::{AdoptFault, RaiseFault};
use fpl_check::CheckFault;
use fpl_log::{Section, Sections};
use fpl_model::Presentation;
use fpl_scalar::{Fault, Field};
use fpl_steps::Steps;
use fpl_table::Table;
use std::alloc::{AllocError, Global};
use std::marker::Model;
use std::sync::ledger::Ledger;

/// A presentation, its table through a weight, and the sections of the weights from 1 to it.
#[derive(Drop)]
pub struct State<F: Field> {
    alloc: Global,
    presentation: Presentation,
    table: Table<F>,
    sections: Sections,
    /// How many symbols there are of the weights from 1 to the table's.
    count: u64,
}

impl<F: Field> Model for State<F> {
    ghost use Rattle.fpl_complete.specs.State.{PlainState, IsState};
    ghost use Rattle.fpl_model.specs.contracts.expr.Expr as e;
    ghost use Rattle.std.specs.Coded.{codes};

    ghost Value = { PlainState };

    ghost coded = { Prim.hlevel (codes, e.the_row.coded) };

    ghost view = { λ s. record { presentation = s.presentation; table = s.table; sections = s.sections } };

    ghost invariant = { λ s. IsState s.presentation s.table s.count s.sections };
}

impl<F: Field> State<F> {
    /// The table of a sound presentation through weight 0. The field is of its kind.
    pub fn start(alloc: Global, field: F, p: Presentation) -> Result<State<F>, AllocError>
        requires kind { F.kind_of field ≡ p.field }
        requires sound { IsSound p }
        ensures { IfOk result (λ s. s ≡ record { presentation = p; table = start_of p; sections = [] }) }
    {
        let table = Table::start(alloc, field, &p)?;
        Ok(State {
            alloc,
            presentation: p,
            table,
            sections: Sections::new(alloc),
            count: 0,
        })
    }

    pub fn table(&self) -> &Table<F>
        ensures same { result.now ≡ self.now.table }
        ensures standard { IsTableOf self.now.presentation self.now.table.weight self.now.table }
        ensures raised { IsRaised self.now.presentation self.now.table }
    {
        &self.table
    }

    pub fn presentation(&self) -> &Presentation
        ensures same { result.now ≡ self.now.presentation }
        ensures sound { IsSound self.now.presentation }
    {
        &self.presentation
    }

    /// One section for each weight from 1 to the table's, in their order.
    pub fn sections(&self) -> &Sections
        ensures same { result.now ≡ self.now.sections }
        ensures weights { AreOfWeights self.now.table.weight self.now.sections }
        ensures few { count_through self.now.table self.now.table.weight ≤ 2000000 }
        ensures accepted { AreAccepted self.now.presentation self.now.table self.now.sections }
        ensures writable { All (IsWritable self.now.presentation.field) self.now.sections }
    {
        &self.sections
    }

    pub fn weight(&self) -> u32
        ensures value { result ≡ self.now.table.weight }
        ensures standard { IsTableOf self.now.presentation self.now.table.weight self.now.table }
        ensures raised { IsRaised self.now.presentation self.now.table }
        ensures sections { AreOfWeights self.now.table.weight self.now.sections }
    {
        self.table.weight()
    }

    /// How many symbols there are of the weights from 1 to the one after the table's.
    pub fn next_count(&self) -> u64
        requires { self.now.table.weight < 1000 }
        ensures { result ≡ count_through self.now.table (self.now.table.weight + 1) }
    {
        self.count + self.table.symbol_count(self.table.weight() + 1)
    }

    /// Adds the next weight, and keeps its section.
    ///
    /// `Limit` comes, before any operation, exactly where the symbols of the weights from 1 to
    /// the new one number more than `entries`; `Overflow` names the first operation that does
    /// not fit, over fractions alone. After a refusal the state is unchanged.
    /// Each origin takes one step.
    pub fn next_weight<L: Ledger>(
        &mut self,
        entries: u64,
        steps: &mut Steps<L>,
    ) -> Result<(), RaiseFault>
        requires weight { self.old.table.weight < 1000 }
        requires entries { entries ≤ 2000000 }
        ensures presentation { self.new.presentation ≡ self.old.presentation }
        ensures value { OnOk result ((h : Held) × (close_weight self.old.table self.old.presentation ≡ Ok h)
            × (self.new.table ≡ push_of self.old.table (rows_of h.pivots)) × (self.new.sections ≡ self.old.sections
            ++ section_of self.old.table self.old.presentation h ∷ [])) }
        ensures next { OnOk result (next_of self.old.table self.old.presentation ≡ Ok self.new.table) }
        ensures weight { OnOk result (self.new.table.weight ≡ self.old.table.weight + 1) }
        ensures sections { OnOk result (self.new.sections ≡ self.old.sections ++ section_at self.new.sections self.new.table.weight ∷ []) }
        ensures section { OnOk result (Computes self.old.presentation self.new.table.weight (Ok (section_at self.new.sections self.new.table.weight))) }
        ensures within { OnOk result (count_through self.new.table self.new.table.weight ≤ entries) }
        ensures counts { OnOk result ((v : ℕ) → v ≤ self.old.table.weight + 1 → count_through self.new.table v ≡ count_through self.old.table v) }
        ensures limit { (w c : ℕ) → IsErrOf result (RaiseFault.Limit w c) ↔ ((w ≡ self.old.table.weight + 1) × (c ≡ count_through self.old.table w) × (entries < c)) }
        ensures overflow { (w : ℕ) (op : Op) (a b : Num) → IsErrOf result (RaiseFault.Overflow w op a b) →
            (w ≡ self.old.table.weight + 1) × OverflowsAt self.old.presentation w (unfit_of op a b) × (count_through self.old.table w ≤ entries) }
        ensures refused { (w : ℕ) (op : Op) (a b : Num) → IsErrOf result (RaiseFault.Overflow w op a b) →
            close_weight self.old.table self.old.presentation ≡ Err (unfit_of op a b) }
        ensures fractions { (w : ℕ) (op : Op) (a b : Num) → IsErrOf result (RaiseFault.Overflow w op a b) → self.old.presentation.field ≡ Kind.Rational }
        ensures unchanged { OnErr result (self.new ≡ self.old) }
        ensures step { OnOk result (steps.new ≡ steps.old + length (origins_of self.old.table self.old.presentation)) }
        ensures most { (steps.old ≤ steps.new) × (steps.new ≤ steps.old + length (origins_of self.old.table self.old.presentation)) }
        ensures before { (w c : ℕ) → IsErrOf result (RaiseFault.Limit w c) → steps.new ≡ steps.old }
    {
        let weight = self.weight() + 1;
        let count = self.next_count();
        if count > entries {
            return Err(RaiseFault::Limit { weight, count });
        }
        let weighed = match complete_weight(self.alloc, &self.table, &self.presentation, steps) {
            Ok(weighed) => weighed,
            Err(Fault::NoMemory) => return Err(RaiseFault::NoMemory),
            Err(Fault::Unfit(u)) => {
                return Err(RaiseFault::Overflow {
                    weight,
                    op: u.op,
                    a: u.a,
                    b: u.b,
                });
            }
        };
        match weighed.keep(&mut self.table, &mut self.sections) {
            Ok(()) => {
                self.count = count;
                Ok(())
            }
            Err(_) => Err(RaiseFault::NoMemory),
        }
    }

    /// Adds the next weight by a section of it, whoever made that: the section is checked, slimmed
    /// and kept, and nothing is computed anew.
    ///
    /// `Limit` comes, before the check, exactly where the symbols of the weights from 1 to the new
    /// one number more than `entries`; `Bad` names the first test of the section that fails, and
    /// `Overflow` the first operation that does not fit before any test fails, over fractions alone.
    /// After a refusal the state is unchanged, and the section is gone.
    pub fn adopt(&mut self, section: Section, entries: u64) -> Result<(), AdoptFault>
        requires weight { self.old.table.weight < 1000 }
        requires entries { entries ≤ 2000000 }
        requires section { IsSectionFor self.old.table section }
        requires storable { IsStorable self.old.table.kind section }
        ensures presentation { self.new.presentation ≡ self.old.presentation }
        ensures adopted { OnOk result ((rows : List (List Num)) × Accepts self.old.table self.old.presentation section rows × (self.new.table ≡ push_of self.old.table rows)) }
        ensures sections { OnOk result (self.new.sections ≡ self.old.sections ++ slimmed self.old.table self.old.presentation section ∷ []) }
        ensures weight { OnOk result (self.new.table.weight ≡ self.old.table.weight + 1) }
        ensures within { OnOk result (count_through self.new.table self.new.table.weight ≤ entries) }
        ensures counts { OnOk result ((v : ℕ) → v ≤ self.old.table.weight + 1 → count_through self.new.table v ≡ count_through self.old.table v) }

        // What a refusal names.
        ensures limit { (w c : ℕ) → IsErrOf result (AdoptFault.Raise (RaiseFault.Limit w c)) ↔
            ((w ≡ self.old.table.weight + 1) × (c ≡ count_through self.old.table w) × (entries < c)) }
        ensures bad { (w : ℕ) (spot : Spot) (why : Why) → IsErrOf result (AdoptFault.Bad w spot why) →
            (w ≡ self.old.table.weight + 1) × (check_of self.old.table self.old.presentation section ≡ Err (bad spot why))
            × (count_through self.old.table w ≤ entries) }
        ensures overflow { (w : ℕ) (op : Op) (a b : Num) → IsErrOf result (AdoptFault.Raise (RaiseFault.Overflow w op a b)) →
            (w ≡ self.old.table.weight + 1) × (check_of self.old.table self.old.presentation section ≡ Err (unfit (unfit_of op a b)))
            × (count_through self.old.table w ≤ entries) }
        ensures fractions { (w : ℕ) (op : Op) (a b : Num) → IsErrOf result (AdoptFault.Raise (RaiseFault.Overflow w op a b)) → self.old.presentation.field ≡ Kind.Rational }
        ensures unchanged { OnErr result (self.new ≡ self.old) }
    {
        let weight = self.weight() + 1;
        let count = self.next_count();
        if count > entries {
            return Err(AdoptFault::Raise(RaiseFault::Limit { weight, count }));
        }
        let weighed = match accept(self.alloc, &self.table, &self.presentation, section) {
            Ok(weighed) => weighed,
            Err(CheckFault::NoMemory) => return Err(AdoptFault::Raise(RaiseFault::NoMemory)),
            Err(CheckFault::Bad { spot, why }) => return Err(AdoptFault::Bad { weight, spot, why }),
            Err(CheckFault::Unfit(u)) => {
                return Err(AdoptFault::Raise(RaiseFault::Overflow {
                    weight,
                    op: u.op,
                    a: u.a,
                    b: u.b,
                }));
            }
        };
        match weighed.keep(&mut self.table, &mut self.sections) {
            Ok(()) => {
                self.count = count;
                Ok(())
            }
            Err(_) => Err(AdoptFault::Raise(RaiseFault::NoMemory)),
        }
    }

    /// Adds weights up to `d`, if the table has not come so far, and keeps their sections.
    ///
    /// A refusal names the weight that was refused, and the state then has all weights below
    /// it: `Limit` the least weight at which the symbols number more than `entries`, with their
    /// number; `Overflow` the first operation that does not fit, over fractions alone.
    pub fn raise<L: Ledger>(
        &mut self,
        d: u32,
        entries: u64,
        steps: &mut Steps<L>,
    ) -> Result<(), RaiseFault>
        requires weight { d ≤ 1000 }
        requires entries { entries ≤ 2000000 }
        ensures presentation { self.new.presentation ≡ self.old.presentation }
        ensures weight { OnOk result (self.new.table.weight ≡ max self.old.table.weight d) }
        ensures reached { (self.old.table.weight ≤ self.new.table.weight) × (self.new.table.weight ≤ max self.old.table.weight d) }
        ensures within { (v : ℕ) → self.old.table.weight < v → v ≤ self.new.table.weight → count_through self.new.table v ≤ entries }
        ensures table { IsTableOf self.new.presentation self.new.table.weight self.new.table }
        ensures sections { take (length self.old.sections) self.new.sections ≡ self.old.sections }
        ensures fits { (v : ℕ) → self.old.table.weight < v → v ≤ self.new.table.weight → Computes self.old.presentation v (Ok (section_at self.new.sections v)) }

        // What a refusal names.
        ensures limit { (w c : ℕ) → IsErrOf result (RaiseFault.Limit w c) → PassesAfter self.old.presentation self.old.table.weight d entries w c
            × (w ≡ self.new.table.weight + 1) }
        ensures overflow { (w : ℕ) (op : Op) (a b : Num) → IsErrOf result (RaiseFault.Overflow w op a b) →
            (w ≡ self.new.table.weight + 1) × (w ≤ d) × OverflowsAt self.old.presentation w (unfit_of op a b) × (count_through self.new.table w ≤ entries) }
        ensures fractions { (w : ℕ) (op : Op) (a b : Num) → IsErrOf result (RaiseFault.Overflow w op a b) → self.old.presentation.field ≡ Kind.Rational }

        // Each origin takes one step, whatever the answer.
        ensures steps { steps.old ≤ steps.new }
        ensures cost { (count : ℕ → ℕ) → BoundsOrigins self.old.presentation self.old.table.weight d count →
            steps.new ≤ steps.old + sum_after count self.old.table.weight (d - self.old.table.weight) }
    {
        while self.weight() < d {
            match self.next_weight(entries, steps) {
                Ok(()) => {}
                Err(fault) => return Err(fault),
            }
        }
        Ok(())
    }
}
