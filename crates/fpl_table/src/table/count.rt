ghost use Rattle.std.specs.Prelude.{◌≡◌, ◌≤◌, ◌<◌, ◌+◌, ◌-◌, ◌++◌, length, map, IfOk, OnOk, All};
ghost use Rattle.math_algebra.specs.Symbols.{symbols_of};
ghost use Rattle.fpl_table.specs.Plain.{plain_basis, table_in, shell_in, symbol_in};
ghost use Rattle.fpl_table.specs.Shape.{HasShape, IsNumbered};
ghost use Rattle.fpl_table.specs.Standard.{count_of};
ghost use Rattle.fpl_table.specs.Cells.{generator_cells, pair_cells};

use super::Table;
use crate::Symbol;
use fpl_scalar::Field;
use std::alloc::{AllocError, Global};

impl<F: Field> Table<F> {
    /// The number of generators of weight `w`.
    pub(super) fn generator_count(&self, w: u32) -> u32
        ensures value { result ≡ length (generator_cells self.now w) }
        ensures few { result ≤ 64 }
        ensures shape { HasShape self.now }
    {
        let mut count = 0;
        for g in 0..self.shapes.len() {
            if self.shapes[g].weight == w {
                count += 1;
            }
        }
        count
    }

    /// The number of symbols of weight `w`, which is at most one above the table's.
    pub fn symbol_count(&self, w: u32) -> u64
        requires { w ≤ self.now.weight + 1 }
        ensures { result ≡ count_of self.now w }
    {
        let mut count = u64::from(self.generator_count(w));
        if w == 0 {
            return count;
        }
        for i in 0..self.through(w - 1) {
            let (from, to) = self.partners(i + 1, w);
            count += u64::from(to.saturating_sub(from));
        }
        count
    }

    /// Puts the generators of weight `w` last.
    fn push_generators(&self, w: u32, symbols: &mut Vec<Symbol>) -> Result<(), AllocError>
        ensures value { OnOk result (map symbol_in symbols.new.items ≡ map symbol_in symbols.old.items ++ generator_cells self.now w) }
        ensures shape { HasShape self.now }
        ensures numbered { OnOk result (All IsNumbered symbols.old.items → All IsNumbered symbols.new.items) }
    {
        for g in 0..self.shapes.len() {
            if self.shapes[g].weight == w {
                symbols.push(Symbol::Gen(g as u32 + 1))?;
            }
        }
        Ok(())
    }

    /// Puts the regular pairs of weight `w` with basis element `i` first last.
    fn push_pairs(&self, i: u32, w: u32, symbols: &mut Vec<Symbol>) -> Result<(), AllocError>
        requires number { (1 ≤ i) × (i ≤ length self.now.basis) }
        requires above { (plain_basis self.now (i - 1)).weight < w }
        requires next { w ≤ self.now.weight + 1 }
        ensures value { OnOk result (map symbol_in symbols.new.items ≡ map symbol_in symbols.old.items ++ pair_cells self.now w (i - 1)) }
        ensures numbered { OnOk result (All IsNumbered symbols.old.items → All IsNumbered symbols.new.items) }
    {
        let (from, to) = self.partners(i, w);
        for j in from..to {
            symbols.push(Symbol::Pair(i, j + 1))?;
        }
        Ok(())
    }

    /// The symbols of weight `w`, in their order.
    pub fn symbol_list(&self, alloc: Global, w: u32) -> Result<Vec<Symbol>, AllocError>
        requires { w ≤ self.now.weight + 1 }
        ensures value { IfOk result (λ list. map symbol_in list.items ≡ symbols_of (shell_in self.now.kind self.now) (table_in self.now.kind self.now) w) }
        ensures numbered { IfOk result (λ list. All IsNumbered list.items) }
    {
        let mut symbols = Vec::new(alloc);
        self.push_generators(w, &mut symbols)?;
        if w == 0 {
            return Ok(symbols);
        }
        for i in 0..self.through(w - 1) {
            self.push_pairs(i + 1, w, &mut symbols)?;
        }
        Ok(symbols)
    }
}
