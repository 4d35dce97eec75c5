//! Lines, no two of which have the same two sides.
ghost use Rattle.std.specs.Prelude.{◌≡◌, ◌↔◌, ◌≤◌, ◌<◌, ◌++◌, [], ◌∷◌, length, take, IsTrue, OnOk, OnErr};
ghost use Rattle.fpl_forms.specs.Distinct.{HasSides, HaveNot, AreDistinct, IsLast, line_number, key_at};

use crate::keys::sides_key;
use fpl_lines::{Line, Proof, same};
use fpl_model::Expr;
use indexmap::IndexMap;
use sqlite_items::Items;
use std::alloc::{AllocError, Global};
use std::marker::Model;

/// Lines that differ in their sides, with the number of the last line of each key, and for each line that of the one before it with the same key.
///
/// Lines count from 1, and 0 stands for none.
#[derive(Drop)]
pub(crate) struct DistinctLines {
    lines: Vec<Line>,
    last: IndexMap<u32, u64>,
    before: Vec<u64>,
}

impl Model for DistinctLines {
    ghost use Rattle.std.specs.Prelude.{List, nat_eq};
    ghost use Rattle.std.specs.Coded.{codes};
    ghost use Rattle.indexmap.specs.IndexMap.{get};
    ghost use Rattle.fpl_model.specs.contracts.expr.Expr as e;
    ghost use Rattle.fpl_lines.specs.declared.line.Line.{Line};
    ghost use Rattle.fpl_forms.specs.Distinct.{AreDistinct, IsIndexed};

    ghost Value = { List Line };

    ghost coded = { Prim.hlevel (codes, e.the_row.coded) };

    ghost view = { λ d. d.lines.items };

    ghost invariant = { λ d. AreDistinct d.lines.items × IsIndexed d.lines.items (get nat_eq d.last) d.before.items };
}

/// Whether two expressions are equal.
fn is_same(e: &Expr, f: &Expr) -> bool
    ensures { IsTrue result ↔ (e.now ≡ f.now) }
{
    same(e, f)
}

/// Whether a line has these sides.
fn has_sides(line: &Line, left: &Expr, right: &Expr) -> bool
    ensures { IsTrue result ↔ HasSides line.now left.now right.now }
{
    is_same(&line.left, left) && is_same(&line.right, right)
}

impl DistinctLines {
    pub(crate) fn new(alloc: Global) -> DistinctLines
        ensures { result ≡ [] }
    {
        DistinctLines {
            lines: Vec::new(alloc),
            last: IndexMap::new(alloc),
            before: Vec::new(alloc),
        }
    }

    pub(crate) fn len(&self) -> u64
        ensures { result ≡ length self.now }
    {
        self.lines.len() as u64
    }

    /// Line `n`.
    pub(crate) fn line(&self, n: u64) -> &Line
        requires { (1 ≤ n) × (n ≤ length self.now) }
        ensures { result.now ≡ line_number self.now n }
    {
        &self.lines[n as usize - 1]
    }

    /// The number of the last line with a key, and 0 where there is none.
    fn last_of(&self, key: u32) -> u64
        ensures { IsLast (key_at self.now) key (length self.now) result }
    {
        match self.last.get(&key) {
            Some(n) => *n,
            None => 0,
        }
    }

    /// The number of the line with these sides, and 0 where there is none.
    pub(crate) fn find(&self, left: &Expr, right: &Expr) -> u64
        ensures within { result ≤ length self.now }
        ensures found { 0 < result → HasSides (line_number self.now result) left.now right.now }
        ensures none { result ≡ 0 → HaveNot self.now left.now right.now }
    {
        let mut n = self.last_of(sides_key(left, right));
        while n > 0 {
            if has_sides(self.line(n), left, right) {
                return n;
            }
            n = self.before[n as usize - 1];
        }
        0
    }

    /// Puts a line whose sides none has.
    pub(crate) fn push(&mut self, line: Line) -> Result<(), AllocError>
        requires { HaveNot self.old line.left line.right }
        ensures ok { OnOk result (self.new ≡ self.old ++ line ∷ []) }
        ensures err { OnErr result (self.new ≡ self.old) }
    {
        let key = sides_key(&line.left, &line.right);
        let last = self.last_of(key);
        let len = self.lines.len();
        self.lines.push(line)?;
        match self.before.push(last) {
            Ok(_) => {}
            Err(_) => {
                self.lines.truncate(len);
                return Err(AllocError);
            }
        }
        match self.last.insert(key, len as u64 + 1) {
            Ok(_) => Ok(()),
            Err(_) => {
                self.lines.truncate(len);
                self.before.truncate(len);
                Err(AllocError)
            }
        }
    }

    /// The first `n` lines.
    pub(crate) fn into_first(self, n: u64) -> Proof
        requires { n ≤ length self }
        ensures lines { result ≡ take n self }
        ensures distinct { AreDistinct result }
    {
        let DistinctLines {
            mut lines,
            last: _,
            before: _,
        } = self;
        lines.truncate(n as usize);
        Items::from_vec(lines)
    }
}
