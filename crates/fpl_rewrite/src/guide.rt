ghost use Rattle.std.specs.Prelude.{◌≡◌, ◌≤◌, ◌-◌, length, slice_index_or, IfOk, IfSome};
ghost use Rattle.math_algebra.specs.Table.{of_pair};
ghost use Rattle.math_algebra.specs.Symbols.{no_symbol};
ghost use Rattle.fpl_table.specs.Plain.{symbols_in};
ghost use Rattle.fpl_table.specs.Numbering.{IsNumberOf};

use fpl_scalar::Field;
use fpl_table::{Symbol, Symbols, Table};
use std::alloc::{AllocError, Global};

/// The symbols of a weight, with hints where a pair stands among them: the pairs with one first
/// element stand together, by ascending second.
#[derive(Drop)]
pub struct Guide<'a> {
    pub symbols: &'a Symbols,
    // at i - 1 the number of a pair (i, j), less j; a guess, which each use tests
    starts: Vec<u32>,
}

impl<'a> Guide<'a> {
    /// Without hints: the number of each pair is looked up.
    pub fn without_hints(alloc: Global, symbols: &'a Symbols) -> Guide<'a>
        ensures { result.symbols.now ≡ symbols.now }
    {
        Guide {
            symbols,
            starts: Vec::new(alloc),
        }
    }

    pub fn of<F: Field>(
        alloc: Global,
        table: &Table<F>,
        symbols: &'a Symbols,
    ) -> Result<Guide<'a>, AllocError>
        ensures { IfOk result (λ guide. guide.symbols.now ≡ symbols.now) }
    {
        let starts = starts_of(alloc, symbols, table.basis_len())?;
        Ok(Guide { symbols, starts })
    }

    /// The number of a pair that the hints lead to.
    #[inline(always)]
    fn guess(&self, i: u32, j: u32) -> Option<u32>
        requires { 1 ≤ i }
        ensures within { IfSome result (λ s. (1 ≤ s) × (s ≤ length self.now.symbols.now.symbols)) }
        ensures here { IfSome result (λ s. slice_index_or self.now.symbols.now.symbols (s - 1) no_symbol ≡ of_pair (i - 1) (j - 1)) }
    {
        let start = match self.starts.get(i as usize - 1) {
            Some(start) => *start,
            None => return None,
        };
        let s = start.wrapping_add(j);
        if s < 1 || s > self.symbols.len() {
            return None;
        }
        match self.symbols.symbol(s) {
            Symbol::Gen(_) => None,
            Symbol::Pair(k, l) => { if k == i && l == j { Some(s) } else { None } }
        }
    }

    /// The number of the symbol of a pair, where it is one of them.
    #[inline(always)]
    pub fn number<F: Field>(&self, table: &Table<F>, i: u32, j: u32) -> Option<u32>
        requires numbered { (1 ≤ i) × (1 ≤ j) }
        requires symbols { self.now.symbols.now.symbols ≡ symbols_in table.now }
        ensures { IsNumberOf self.now.symbols.now.symbols (of_pair (i - 1) (j - 1)) result }
    {
        match self.guess(i, j) {
            Some(s) => Some(s),
            None => self.symbols.number(Symbol::Pair(i, j)),
        }
    }
}

/// For each first element up to `count` the number of one of its pairs, less the second.
fn starts_of(alloc: Global, symbols: &Symbols, count: u32) -> Result<Vec<u32>, AllocError> {
    let mut starts = Vec::with_capacity(alloc, count as usize)?;
    starts.resize(count as usize, 0)?;
    for s in 0..symbols.len() {
        match symbols.symbol(s + 1) {
            Symbol::Gen(_) => {}
            Symbol::Pair(i, j) => {
                if i >= 1 && i <= count {
                    starts[i as usize - 1] = (s + 1).wrapping_sub(j);
                }
            }
        }
    }
    Ok(starts)
}
