ghost use Rattle.std.specs.Prelude.{◌≡◌, ◌≤◌, ◌<◌, ◌+◌, ◌-◌, ◌^◌, length, map, slice_index_or, IfOk, IfErr, OnOk, All};
ghost use Rattle.indexmap.specs.IndexMap.{get};
ghost use Rattle.fpl_numbers.specs.Numbers.{IsElement};
ghost use Rattle.fpl_numbers.specs.Results.{Gives};
ghost use Rattle.fpl_scalar.specs.Vectors.{AreElements};
ghost use Rattle.fpl_rows.specs.Positions.{added_at};
ghost use Rattle.math_algebra.specs.Symbols.{symbols_of, place_of, no_symbol};
ghost use Rattle.fpl_table.specs.Plain.{symbol_in, symbols_in, shell_in, table_in};
ghost use Rattle.fpl_table.specs.Shape.{IsNumbered};
ghost use Rattle.fpl_table.specs.Numbering.{IsNumberOf, number_from};

use crate::{Symbol, Table};
use fpl_rows::Row;
use fpl_scalar::{Fault, Field};
use indexmap::IndexMap;
use std::alloc::{AllocError, Global};
use std::marker::Model;

/// The symbols of one weight, in their order: the generators, then the regular pairs.
/// They are numbered from 1.
#[derive(Drop)]
pub struct Symbols {
    weight: u32,
    list: Vec<Symbol>,
    numbers: IndexMap<Symbol, u32>,
}

impl Model for Symbols {
    ghost use Rattle.std.specs.Prelude.{map};
    ghost use Rattle.indexmap.specs.IndexMap.{get};
    ghost use Rattle.fpl_table.specs.Plain.{symbol_in};
    ghost use Rattle.fpl_table.specs.Numbering.{SymbolList, IsNumbering};

    ghost Value = { SymbolList };

    ghost view = { λ s. record { weight = s.weight; symbols = map symbol_in s.list.items } };

    ghost invariant = { λ s. IsNumbering ⟦<Symbol as PartialEq>⟧.eq s.list.items (get ⟦<Symbol as PartialEq>⟧.eq s.numbers) };
}

/// The number of each symbol of a list, from 1; that of its first place, where it is listed twice.
fn numbers_of(alloc: Global, list: &[Symbol]) -> Result<IndexMap<Symbol, u32>, AllocError>
    requires { length list.now < 2 ^ 32 }
    ensures { IfOk result (λ m. (x : Symbol) → get ⟦<Symbol as PartialEq>⟧.eq m x ≡ number_from ⟦<Symbol as PartialEq>⟧.eq 0 list.now x) }
{
    let mut numbers = IndexMap::new(alloc);
    let mut s = list.len();
    while s > 0 {
        match numbers.insert(list[s - 1], s as u32) {
            Ok(_) => {}
            Err(_) => return Err(AllocError),
        }
        s -= 1;
    }
    Ok(numbers)
}

impl Symbols {
    pub fn weight(&self) -> u32
        ensures { result ≡ self.now.weight }
    {
        self.weight
    }

    pub fn len(&self) -> u32
        ensures value { result ≡ length self.now.symbols }
        ensures range { length self.now.symbols < 2 ^ 32 }
    {
        self.list.len() as u32
    }

    /// The symbol with number `s`.
    pub fn symbol(&self, s: u32) -> Symbol
        requires { (1 ≤ s) × (s ≤ length self.now.symbols) }
        ensures value { symbol_in result ≡ slice_index_or self.now.symbols (s - 1) no_symbol }
        ensures from_one { IsNumbered result }
    {
        self.list[s as usize - 1]
    }

    /// The number of a symbol, where it is one of them.
    pub fn number(&self, x: Symbol) -> Option<u32>
        requires { IsNumbered x }
        ensures { IsNumberOf self.now.symbols (symbol_in x) result }
    {
        self.numbers.get(&x).copied()
    }

    /// Adds `c` at a symbol. What is none of the symbols counts as 0. Where memory is wanting the row stays as it was.
    pub fn add_at<F: Field>(
        &self,
        field: &F,
        x: Symbol,
        c: F::Elem,
        row: &mut Row<F>,
    ) -> Result<(), Fault>
        requires numbered { IsNumbered x }
        requires added { IsElement (F.kind_of field.now) (F.number c) }
        requires row { AreElements (F.kind_of field.now) row.old }
        requires whole { length row.old ≡ length self.now.symbols }
        ensures value { Gives result row.new (added_at (F.kind_of field.now) row.old (place_of (symbol_in x) self.now.symbols) (F.number c)) }
        ensures elements { OnOk result (AreElements (F.kind_of field.now) row.new) }
        ensures whole { length row.new ≡ length row.old }
        ensures memory { IfErr result (λ fault. fault ≡ Fault.NoMemory → row.new ≡ row.old) }
    {
        match self.number(x) {
            Some(s) => row.add_at(field, s, c),
            None => Ok(()),
        }
    }
}

impl<F: Field> Table<F> {
    /// The symbols of weight `w`, which is at most one above the table's.
    pub fn symbols(&self, alloc: Global, w: u32) -> Result<Symbols, AllocError>
        requires next { w ≤ self.now.weight + 1 }
        requires few { length (symbols_of (shell_in self.now.kind self.now) (table_in self.now.kind self.now) w) ≤ 2000000 }
        ensures value { IfOk result (λ s. (s.weight ≡ w) × (s.symbols ≡ symbols_of (shell_in self.now.kind self.now) (table_in self.now.kind self.now) w)) }
        ensures next { w ≡ self.now.weight + 1 → IfOk result (λ s. s.symbols ≡ symbols_in self.now) }
    {
        let list = self.symbol_list(alloc, w)?;
        let numbers = numbers_of(alloc, &list)?;
        Ok(Symbols {
            weight: w,
            list,
            numbers,
        })
    }
}
