ghost use Rattle.std.specs.Prelude.{◌≡◌, ◌≤◌, ◌<◌, ◌+◌, ◌-◌, ◌⊎◌, length};
ghost use Rattle.math_algebra.specs.Tree.{odd};
ghost use Rattle.fpl_table.specs.Shape.{HasShape, IsRowUpTo};
ghost use Rattle.fpl_table.specs.Plain.{plain_basis, through, first_partner, partner_from, entry_row};

use super::Table;
use fpl_model::Parity;
use fpl_rows::Row;
use fpl_scalar::Field;

impl<F: Field> Table<F> {
    /// How many basis elements weigh at most `w`.
    #[inline(always)]
    pub fn through(&self, w: u32) -> u32
        requires { w ≤ self.now.weight }
        ensures value { result ≡ through self.now w }
        ensures within { result ≤ length self.now.basis }
        ensures shape { HasShape self.now }
    {
        let levels = self.levels.as_slice();
        if w == 0 {
            return 0;
        }
        levels[w as usize - 1].through
    }

    /// The places, from 0, of the partners of basis element `i` in the pairs of weight `w`:
    /// from the first up to the second, which it does not reach.
    #[inline(always)]
    pub(super) fn partners(&self, i: u32, w: u32) -> (u32, u32)
        requires number { (1 ≤ i) × (i ≤ length self.now.basis) }
        requires above { (plain_basis self.now (i - 1)).weight < w }
        requires next { w ≤ self.now.weight + 1 }
        ensures from { result.0 ≡ partner_from self.now (i - 1) w }
        ensures to { result.1 ≡ through self.now (w - (plain_basis self.now (i - 1)).weight) }
        ensures within { result.1 ≤ length self.now.basis }
        ensures shape { HasShape self.now }
    {
        let element = self.basis(i);
        let first = match element.parity {
            Parity::Odd => i - 1,
            Parity::Even => i,
        };
        let rest = w - element.weight;
        (first.max(self.through(rest - 1)), self.through(rest))
    }

    /// The entry of the regular pair of basis elements `i` and `j`, whose weights sum to at
    /// most the table's.
    #[inline(always)]
    pub fn entry(&self, i: u32, j: u32) -> &Row<F>
        requires left { (1 ≤ i) × (i ≤ length self.now.basis) }
        requires right { (1 ≤ j) × (j ≤ length self.now.basis) }
        requires regular { first_partner self.now (i - 1) ≤ j - 1 }
        requires reached { (plain_basis self.now (i - 1)).weight + (plain_basis self.now (j - 1)).weight ≤ self.now.weight }
        ensures value { result.now ≡ entry_row self.now (i - 1) (j - 1) }
        ensures row { IsRowUpTo self.now.kind (length self.now.basis) result.now }
    {
        let left = self.basis(i).weight;
        let weight = left + self.basis(j).weight;
        let (from, _) = self.partners(i, weight);
        &self.levels[weight as usize - 1].entries[i as usize - 1][(j - 1 - from) as usize]
    }
}
