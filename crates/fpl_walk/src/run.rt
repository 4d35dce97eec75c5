ghost use Rattle.std.specs.Prelude.{◌≡◌, ◌⊎◌, ◌≤◌, ◌<◌, ◌+◌, ℕ, length, Ok, IfOk, OnOk, OnErr, IfErr, IsErrOf, true};
ghost use Rattle.fpl_numbers.specs.declared.number.Num.{Num};
ghost use Rattle.fpl_numbers.specs.declared.number.Op.{Op};
ghost use Rattle.fpl_numbers.specs.declared.number.Kind.{Kind};
ghost use Rattle.fpl_model.specs.Sound.{IsSound};
ghost use Rattle.fpl_table.specs.Standard.{count_through};
ghost use Rattle.fpl_section_bytes.specs.declared.frame.Frame.TheVariants.{Whole};
ghost use Rattle.fpl_section_bytes.specs.Frames.{frame_of};
ghost use Rattle.fpl_walk.specs.Walk.{begun, step_of, step_cost, computing_cost, computed, framed, next_weight};
ghost use Rattle.fpl_walk.specs.Stops.{IsStop, stop_for, stop_from, stored_in};

use crate::Stop;
use fpl_bytes::ScanError;
use fpl_complete::{AdoptFault, RaiseFault, State};
use fpl_model::Presentation;
use fpl_scalar::Field;
use fpl_section_bytes::{Frame, read_section, scan_frame};
use fpl_steps::Steps;
use std::alloc::{AllocError, Global};
use std::marker::Model;
use std::sync::ledger::Ledger;

/// A state, and where among stored bytes its next section may stand.
#[derive(Drop)]
pub struct Run<F: Field> {
    alloc: Global,
    state: State<F>,
    version: u8,
    /// The place after the last section that was adopted.
    place: usize,
    /// Whether every section so far stood whole, so that the next may be stored.
    stored: bool,
}

impl<F: Field> Model for Run<F> {
    ghost use Rattle.fpl_walk.specs.Stops.{PlainRun};
    ghost use Rattle.fpl_model.specs.contracts.expr.Expr as e;
    ghost use Rattle.std.specs.Coded.{codes};

    ghost Value = { PlainRun };

    ghost coded = { Prim.hlevel (codes, e.the_row.coded) };

    ghost view = { λ r. record {
      presentation = r.state.presentation;
      version = r.version;
      stage =
          record { table = r.state.table; sections = r.state.sections; place = r.place; stored = r.stored };
    } };
}

fn stop_for(fault: RaiseFault) -> Stop
    ensures { result ≡ stop_for fault }
{
    match fault {
        RaiseFault::Limit { weight, count } => Stop::TooMany { weight, count },
        RaiseFault::Overflow { weight, op, a, b } => Stop::Overflow { weight, op, a, b },
        RaiseFault::NoMemory => Stop::NoMemory,
    }
}

fn stop_from(fault: AdoptFault) -> Stop
    ensures { result ≡ stop_from fault }
{
    match fault {
        AdoptFault::Raise(fault) => stop_for(fault),
        AdoptFault::Bad { weight, spot, why } => Stop::BadSection { weight, spot, why },
    }
}

impl<F: Field> Run<F> {
    /// A run of a sound presentation at weight 0. Where something is stored, in version 1 or 2, its
    /// first section begins at `place`. The field is of the presentation's kind.
    pub fn start(
        alloc: Global,
        field: F,
        p: Presentation,
        version: u8,
        place: usize,
        stored: bool,
    ) -> Result<Run<F>, AllocError>
        requires kind { F.kind_of field ≡ p.field }
        requires sound { IsSound p }
        ensures { IfOk result (λ r. r ≡ record { presentation = p; version = version; stage = begun p place stored }) }
    {
        let state = State::start(alloc, field, p)?;
        Ok(Run {
            alloc,
            state,
            version,
            place,
            stored,
        })
    }

    pub fn state(&self) -> &State<F>
        ensures presentation { result.now.presentation ≡ self.now.presentation }
        ensures table { result.now.table ≡ self.now.stage.table }
        ensures sections { result.now.sections ≡ self.now.stage.sections }
    {
        &self.state
    }

    pub fn weight(&self) -> u32
        ensures { result ≡ self.now.stage.table.weight }
    {
        self.state.weight()
    }

    /// The place after the last section that was adopted.
    pub fn place(&self) -> usize
        ensures { result ≡ self.now.stage.place }
    {
        self.place
    }

    /// Adds the next weight: the stored one, where it stands whole in `bytes`, which are the same
    /// in each call; else, where the run computes, it is computed.
    ///
    /// After a stop the run is unchanged. An operation that does not fit comes over fractions alone.
    /// Only computing takes steps, one for each origin.
    pub fn advance<L: Ledger>(
        &mut self,
        bytes: &[u8],
        computes: bool,
        entries: u64,
        steps: &mut Steps<L>,
    ) -> Result<(), Stop>
        requires weight { self.old.stage.table.weight < 1000 }
        requires entries { entries ≤ 2000000 }
        requires version { (self.old.version ≡ 1) ⊎ (self.old.version ≡ 2) }
        ensures presentation { self.new.presentation ≡ self.old.presentation }
        ensures version { self.new.version ≡ self.old.version }
        ensures step { OnOk result (step_of computes entries self.old.presentation (stored_in self.old bytes.now) self.old.stage ≡ Ok self.new.stage) }
        ensures stop { IfErr result (λ stop. IsStop stop (step_of computes entries self.old.presentation (stored_in self.old bytes.now) self.old.stage)) }
        ensures fractions { (w : ℕ) (op : Op) (a b : Num) → IsErrOf result (Stop.Overflow w op a b) → self.old.presentation.field ≡ Kind.Rational }
        ensures unchanged { OnErr result (self.new ≡ self.old) }
        ensures most { (steps.old ≤ steps.new) × (steps.new ≤ steps.old + step_cost computes entries self.old.presentation
            (stored_in self.old bytes.now) self.old.stage) }
    {
        let weight = self.state.weight() + 1;
        let count = self.state.next_count();
        if count > entries {
            return Err(Stop::TooMany { weight, count });
        }
        if !self.stored {
            return self.compute(computes, entries, steps);
        }
        match scan_frame(bytes, self.place, weight) {
            Ok(Frame::Whole { from, to }) => self.adopt(bytes, from, to, entries),
            Ok(Frame::Tail) => self.compute(computes, entries, steps),
            Err(bad) => Err(Stop::BadBytes(bad)),
        }
    }

    fn compute<L: Ledger>(
        &mut self,
        computes: bool,
        entries: u64,
        steps: &mut Steps<L>,
    ) -> Result<(), Stop>
        requires weight { self.old.stage.table.weight < 1000 }
        requires entries { entries ≤ 2000000 }
        requires within { count_through self.old.stage.table (next_weight self.old.stage) ≤ entries }
        ensures presentation { self.new.presentation ≡ self.old.presentation }
        ensures version { self.new.version ≡ self.old.version }
        ensures step { OnOk result (computed computes self.old.presentation self.old.stage ≡ Ok self.new.stage) }
        ensures stop { IfErr result (λ stop. IsStop stop (computed computes self.old.presentation self.old.stage)) }
        ensures fractions { (w : ℕ) (op : Op) (a b : Num) → IsErrOf result (Stop.Overflow w op a b) → self.old.presentation.field ≡ Kind.Rational }
        ensures unchanged { OnErr result (self.new ≡ self.old) }
        ensures most { (steps.old ≤ steps.new) × (steps.new ≤ steps.old + computing_cost computes self.old.presentation self.old.stage) }
    {
        if !computes {
            return Err(Stop::Ended);
        }
        match self.state.next_weight(entries, steps) {
            Ok(()) => {
                self.stored = false;
                Ok(())
            }
            Err(fault) => Err(stop_for(fault)),
        }
    }

    fn adopt(&mut self, bytes: &[u8], from: usize, to: usize, entries: u64) -> Result<(), Stop>
        requires weight { self.old.stage.table.weight < 1000 }
        requires entries { entries ≤ 2000000 }
        requires within { count_through self.old.stage.table (next_weight self.old.stage) ≤ entries }
        requires version { (self.old.version ≡ 1) ⊎ (self.old.version ≡ 2) }
        requires order { from ≤ to }
        requires inside { to ≤ length bytes.now }
        ensures presentation { self.new.presentation ≡ self.old.presentation }
        ensures version { self.new.version ≡ self.old.version }
        ensures step { OnOk result (framed true self.old.presentation (stored_in self.old bytes.now) self.old.stage (Ok (Whole from to)) ≡ Ok self.new.stage) }
        ensures stop { IfErr result (λ stop. IsStop stop (framed true self.old.presentation (stored_in self.old bytes.now) self.old.stage
            (Ok (Whole from to)))) }
        ensures fractions { (w : ℕ) (op : Op) (a b : Num) → IsErrOf result (Stop.Overflow w op a b) → self.old.presentation.field ≡ Kind.Rational }
        ensures unchanged { OnErr result (self.new ≡ self.old) }
    {
        let weight = self.state.weight() + 1;
        let kind = self.state.presentation().field;
        match read_section(self.alloc, self.version, kind, bytes, from, to, weight) {
            Ok(section) => match self.state.adopt(section, entries) {
                Ok(()) => {
                    self.place = to;
                    self.stored = true;
                    Ok(())
                }
                Err(fault) => Err(stop_from(fault)),
            },
            Err(ScanError::Bad(bad)) => Err(Stop::BadBytes(bad)),
            Err(ScanError::NoMemory) => Err(Stop::NoMemory),
        }
    }
}
