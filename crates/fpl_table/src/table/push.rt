ghost use Rattle.std.specs.Prelude.{◌≡◌, ◌≤◌, ◌<◌, ◌+◌, ◌-◌, length, map, get_or, IfOk, OnOk, OnErr, All};
ghost use Rattle.fpl_rows.specs.Meaning.{AreRows};
ghost use Rattle.math_algebra.specs.Symbols.{no_symbol, symbol_parity};
ghost use Rattle.fpl_model.specs.Meaning.{plain, parity_in};
ghost use Rattle.fpl_model.specs.Mono.{expr_of};
ghost use Rattle.fpl_table.specs.Plain.{basis_in, symbol_in, symbols_in, table_in, shell_in};
ghost use Rattle.fpl_table.specs.Shape.{HasShape, IsNumbered, IsOfTable, basis_trees, symbol_tree_in};
ghost use Rattle.fpl_table.specs.Standard.{count_of};
ghost use Rattle.fpl_table.specs.Push.{basis_of, free_of, new_basis, push_of};
ghost use Rattle.fpl_table.specs.Leads.{IsSolved, IsNext, trees_of};

use super::leads::ClosedRows;
use super::{Element, Level, Table};
use crate::{Basis, Symbol};
use fpl_model::{Mono, Parity};
use fpl_rows::Rows;
use fpl_scalar::Field;
use std::alloc::{AllocError, Global};
use std::rc::Rc;

/// What the next weight adds.
#[derive(Drop)]
struct Next<F: Field> {
    elements: Vec<Element>,
    level: Level<F>,
}

impl<F: Field> Table<F> {
    fn symbol_parity(&self, symbol: Symbol) -> Parity
        requires { IsOfTable self.now (symbol_in symbol) × IsNumbered symbol }
        ensures { parity_in result ≡ symbol_parity (shell_in self.now.kind self.now) (table_in self.now.kind self.now) (symbol_in symbol) }
    {
        match symbol {
            Symbol::Gen(g) => self.shapes[g as usize - 1].parity,
            Symbol::Pair(i, j) => self.basis(i).parity.plus(self.basis(j).parity),
        }
    }

    /// The bracket tree that a symbol stands for.
    fn symbol_tree(&self, alloc: Global, symbol: Symbol) -> Result<Rc<Mono>, AllocError>
        requires { IsOfTable self.now (symbol_in symbol) × IsNumbered symbol }
        ensures { IfOk result (λ m. plain (expr_of m.value) ≡ symbol_tree_in (basis_trees self.now) (symbol_in symbol)) }
    {
        match symbol {
            Symbol::Gen(g) => Mono::of_gen(alloc, g),
            Symbol::Pair(i, j) => Mono::of_pair(alloc, self.mono(i), self.mono(j)),
        }
    }

    /// The basis element that stands for a symbol of the next weight.
    fn new_element(&self, alloc: Global, symbol: Symbol) -> Result<Element, AllocError>
        requires symbol { IsOfTable self.now (symbol_in symbol) × IsNumbered symbol }
        requires below { self.now.weight < 1000 }
        ensures basis { IfOk result (λ e. basis_in e.basis ≡ basis_of self.now (symbol_in symbol)) }
        ensures tree { IfOk result (λ e. plain (expr_of e.tree.value) ≡ symbol_tree_in (basis_trees self.now) (symbol_in symbol)) }
        ensures symbol { IfOk result (λ e. e.basis.symbol ≡ symbol) }
    {
        let basis = Basis {
            weight: self.weight() + 1,
            parity: self.symbol_parity(symbol),
            symbol,
        };
        Ok(Element {
            basis,
            tree: self.symbol_tree(alloc, symbol)?,
        })
    }

    /// The basis elements that stand for the symbols at some places.
    fn new_elements(
        &self,
        alloc: Global,
        symbols: &[Symbol],
        free: &[u32],
    ) -> Result<Vec<Element>, AllocError>
        requires symbols { map symbol_in symbols.now ≡ symbols_in self.now }
        requires numbered { All IsNumbered symbols.now }
        requires places { All (λ t. t < length (symbols_in self.now)) free.now }
        requires below { self.now.weight < 1000 }
        ensures basis { IfOk result (λ v. map (λ e. basis_in e.basis) v.items ≡ map (new_basis self.now) free.now) }
        ensures trees { IfOk result (λ v. map (λ e. plain (expr_of e.tree.value)) v.items ≡ trees_of self.now free.now) }
        ensures numbered { IfOk result (λ v. All IsNumbered (map (λ e. e.basis.symbol) v.items)) }
    {
        let mut elements = Vec::new(alloc);
        for t in free {
            let element = self.new_element(alloc, symbols[*t as usize])?;
            elements.push(element)?;
        }
        Ok(elements)
    }

    /// What the next weight adds, once the leads are known.
    fn next_by(
        &self,
        alloc: Global,
        symbols: &[Symbol],
        closed: &ClosedRows<F>,
    ) -> Result<Next<F>, AllocError>
        requires solved { IsSolved self.now closed.now }
        requires symbols { map symbol_in symbols.now ≡ symbols_in self.now }
        requires numbered { All IsNumbered symbols.now }
        ensures { IfOk result (λ n. IsNext self.now closed.now.rows.now closed.now.free.items
            (map (λ e. basis_in e.basis) n.elements.items) (map (λ e. plain (expr_of e.tree.value)) n.elements.items)
            (map (λ e. e.basis.symbol) n.elements.items) n.level.through n.level.images.items (map (λ v. v.items) n.level.entries.items)) }
    {
        let images = self.new_images(alloc, closed)?;
        let entries = self.new_entries(alloc, closed)?;
        let elements = self.new_elements(alloc, symbols, closed.free.as_slice())?;
        let through = self.size_with(closed);
        Ok(Next {
            elements,
            level: Level {
                through,
                images,
                entries,
            },
        })
    }

    /// What the next weight adds, by closed rows over its symbols.
    fn next(&self, alloc: Global, rows: &Rows<F>) -> Result<Next<F>, AllocError>
        requires below { self.now.weight < 1000 }
        requires few { count_of self.now (self.now.weight + 1) ≤ 2000000 }
        requires rows { AreRows self.now.kind (count_of self.now (self.now.weight + 1)) rows.now }
        ensures next { IfOk result (λ n. IsNext self.now rows.now (free_of self.now rows.now)
            (map (λ e. basis_in e.basis) n.elements.items) (map (λ e. plain (expr_of e.tree.value)) n.elements.items)
            (map (λ e. e.basis.symbol) n.elements.items) n.level.through n.level.images.items (map (λ v. v.items) n.level.entries.items)) }
        ensures shape { HasShape self.now }
    {
        let symbols = self.symbol_list(alloc, self.weight() + 1)?;
        let closed = ClosedRows::of(alloc, rows, symbols.len())?;
        self.next_by(alloc, symbols.as_slice(), &closed)
    }

    /// Adds the next weight, by closed rows over its symbols, of which there are at most
    /// 2,000,000. After a refusal the table is unchanged.
    pub fn push_weight(&mut self, rows: &Rows<F>) -> Result<(), AllocError>
        requires below { self.old.weight < 1000 }
        requires few { count_of self.old (self.old.weight + 1) ≤ 2000000 }
        requires rows { AreRows self.old.kind (count_of self.old (self.old.weight + 1)) rows.now }
        ensures value { OnOk result (self.new ≡ push_of self.old rows.now) }
        ensures unchanged { OnErr result (self.new ≡ self.old) }
    {
        let Next {
            mut elements,
            level,
        } = self.next(self.alloc, rows)?;
        self.elements.reserve(elements.len())?;
        self.levels.push(level)?;
        self.elements.append(&mut elements)
    }
}
