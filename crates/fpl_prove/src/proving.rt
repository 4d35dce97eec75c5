//! Proofs that the two sides of a query are equal.
ghost use Rattle.std.specs.Prelude.{◌≡◌, ◌≤◌, ◌<◌, ◌^◌, false, take, length, IfOk, OnOk, IsOk, IsErrOf};
ghost use Rattle.fpl_numbers.specs.declared.number.Kind.TheVariants.{Prime};
ghost use Rattle.fpl_model.specs.Sound.{IsSound, IsSoundEquation, count_equation};
ghost use Rattle.fpl_table.specs.Standard.{start_of, count_through};
ghost use Rattle.fpl_complete.specs.State.{AreAccepted, AreOfWeights};
ghost use Rattle.fpl_queries.specs.Queries.{weight_in, is_past, IsBeyond, HaveOneValue};
ghost use Rattle.fpl_reasons.specs.Why.{IsProofOf};
ghost use Rattle.fpl_forms.specs.Ledgers.{PlainLedger, Grows, Says};
ghost use Rattle.fpl_table_facts.specs.Known.{IsKnown};
ghost use Rattle.fpl_prove.specs.declared.proving.WhyError.TheVariants.{NoMemory};
ghost use Rattle.fpl_prove.specs.Prefixes.{after, AreNextSections};

use crate::learn::learn;
use fpl_forms::Ledger;
use fpl_lines::Proof;
use fpl_log::Sections;
use fpl_model::{Degree, Equation, Presentation};
use fpl_needed::needed_lines;
use fpl_numbers::Kind;
use fpl_scalar::{Field, Residue};
use fpl_table::Table;
use fpl_table_facts::{Known, value};
use std::alloc::{AllocError, Global};

/// Why there is no proof.
#[derive(Clone, Copy, Debug, PartialEq, Eq)]
pub enum WhyError {
    /// The two sides have different values.
    NotEqual,
    NoMemory,
}

impl From<AllocError> for WhyError {
    ghost from_gives = { λ _ e. e ≡ NoMemory };

    fn from(_: AllocError) -> Self {
        WhyError::NoMemory
    }
}

/// The prime of residues.
fn prime_of(field: Residue) -> u32
    ensures kind { ⟦<Residue as Field>⟧.kind_of field ≡ Prime result }
{
    match field.kind() {
        Kind::Prime(prime) => prime,
        Kind::Rational => unreachable!(),
    }
}

/// What is known through weight 0.
fn nothing_known(alloc: Global, field: Residue, p: &Presentation) -> Result<Known, AllocError>
    requires kind { ⟦<Residue as Field>⟧.kind_of field ≡ p.now.field }
    requires sound { IsSound p.now }
    ensures table { IfOk result (λ k. k.table ≡ start_of p.now) }
    ensures known { (L : PlainLedger) → L.presentation ≡ p.now → IfOk result (IsKnown L) }
{
    Ok(Known {
        table: Table::start(alloc, field, p)?,
        basis: Vec::new(alloc),
        levels: Vec::new(alloc),
    })
}

/// What the sections of the weights through `through` tell, one after another.
fn learn_through<'a>(
    alloc: Global,
    ledger: &mut Ledger<'a>,
    p: &Presentation,
    known: &mut Known,
    sections: &Sections,
    through: u32,
) -> Result<(), AllocError>
    requires presentation { p.now ≡ ledger.old.presentation }
    requires known { IsKnown ledger.old known.old }
    requires start { known.old.table ≡ start_of ledger.old.presentation }
    requires sections { AreNextSections ledger.old.presentation sections.now }
    requires through { through ≤ length sections.now }
    ensures grows { OnOk result (Grows ledger.old ledger.new) }
    ensures known { OnOk result (IsKnown ledger.new known.new) }
    ensures table { OnOk result (known.new.table ≡ after (start_of ledger.old.presentation) (take through sections.now)) }
{
    for k in 0..through {
        match sections.get(k as usize) {
            Some(section) => learn(alloc, ledger, p, known, section)?,
            None => unreachable!(),
        }
    }
    Ok(())
}

/// The weight through which a table tells whether a query's sides are equal: its own, or 0 where it has none.
fn weight_for(p: &Presentation, through: u32, query: &Equation) -> u32
    requires sound { IsSound p.now }
    requires query { IsSoundEquation p.now query.now }
    requires small { count_equation query.now < 2 ^ 40 }
    requires within { is_past through (weight_in p.now query.now) ≡ false }
    ensures within { result ≤ through }
    ensures reached { is_past result (weight_in p.now query.now) ≡ false }
{
    match p.equation_weight(query) {
        Degree::Exact(w) => w as u32,
        Degree::Any | Degree::Mixed => 0,
    }
}

/// The line of a ledger that says that the two sides of a query are equal, from a table that has its weight.
fn equal_line<'a>(
    alloc: Global,
    ledger: &mut Ledger<'a>,
    p: &Presentation,
    known: &Known,
    query: &Equation,
) -> Result<u64, WhyError>
    requires presentation { p.now ≡ ledger.old.presentation }
    requires known { IsKnown ledger.old known.now }
    requires query { IsSoundEquation ledger.old.presentation query.now }
    requires small { count_equation query.now < 2 ^ 40 }
    requires within { is_past known.now.table.weight (weight_in ledger.old.presentation query.now) ≡ false }
    ensures presentation { OnOk result (ledger.new.presentation ≡ ledger.old.presentation) }
    ensures says { IfOk result (λ n. Says ledger.new n query.now.left query.now.right) }
    ensures one { IsOk result → HaveOneValue ledger.old.presentation known.now.table query.now }
    ensures differ { IsErrOf result WhyError.NotEqual → HaveOneValue ledger.old.presentation known.now.table query.now → ⊥ }
{
    let left = value(alloc, ledger, p, known, &query.left)?;
    let right = value(alloc, ledger, p, known, &query.right)?;
    ledger.sound();
    if left.terms.as_slice() != right.terms.as_slice() {
        return Err(WhyError::NotEqual);
    }
    let line = ledger.equal(&left, &right)?;
    Ok(line)
}

/// A proof from the axioms that the two sides of a query are equal, in which no two lines have the same two sides, and each but the last is cited.
///
/// The sections are those that raised the table. `NotEqual` comes exactly where the two sides have different values.
pub fn prove(
    alloc: Global,
    table: &Table<Residue>,
    p: &Presentation,
    sections: &Sections,
    query: &Equation,
) -> Result<Proof, WhyError>
    requires sound { IsSound p.now }
    requires accepted { AreAccepted p.now table.now sections.now }
    requires weights { AreOfWeights table.now.weight sections.now }
    requires few { count_through table.now table.now.weight ≤ 2000000 }
    requires query { IsSoundEquation p.now query.now }
    requires small { count_equation query.now < 2 ^ 40 }
    requires within { IsBeyond p.now table.now query.now → ⊥ }
    ensures proof { IfOk result (λ proof. IsProofOf p.now query.now proof) }
    ensures one { IsOk result → HaveOneValue p.now table.now query.now }
    ensures differ { IsErrOf result WhyError.NotEqual → HaveOneValue p.now table.now query.now → ⊥ }
{
    let field = *table.field();
    let mut ledger = Ledger::new(alloc, p, prime_of(field));
    let mut known = nothing_known(alloc, field, p)?;
    let through = weight_for(p, table.weight(), query);
    learn_through(alloc, &mut ledger, p, &mut known, sections, through)?;
    match equal_line(alloc, &mut ledger, p, &known, query) {
        Ok(line) => Ok(needed_lines(alloc, ledger.into_proof(line))?),
        Err(error) => Err(error),
    }
}
