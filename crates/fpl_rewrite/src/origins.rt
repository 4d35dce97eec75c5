ghost use Rattle.std.specs.Prelude.{◌≡◌, ◌≤◌, ◌<◌, ◌+◌, ◌^◌, ◌++◌, ◌∷◌, [], drop, length, IfSome, MatchOption};
ghost use Rattle.fpl_model.specs.Sound.{IsSound};
ghost use Rattle.fpl_log.specs.declared.step.Origin.TheVariants.{Relation, Cube};
ghost use Rattle.fpl_table.specs.Plain.{plain_basis};
ghost use Rattle.fpl_table.specs.Shape.{Agrees, HasShape};
ghost use Rattle.math_algebra.specs.Symbols.{is_odd};
ghost use Rattle.fpl_rewrite.specs.Origins.{origins_of, relations_from, triples_of, cubes_of, is_three};
ghost use Rattle.fpl_rewrite.specs.Triples.{firsts_from};
ghost use Rattle.fpl_rewrite.specs.Cursor.{cubes_from, to_come, IsNext};

use crate::triples::{Triple, next_triple};
use fpl_log::Origin;
use fpl_model::{Parity, Presentation};
use fpl_scalar::{Field, Kind};
use fpl_table::Table;

/// Where the search for the next origin goes on. Places count from 0.
#[derive(Clone, Copy, Debug)]
enum Place {
    AtRelation(u32),
    AtTriple(Triple),
    AtCube(u32),
}

/// The origins of a weight that are still to come, in their order.
#[derive(Clone, Copy, Debug)]
pub struct Origins {
    pub weight: u32,
    place: Place,
}

/// The place of the first relation of weight `w` from place `r` on.
fn next_relation<F: Field>(table: &Table<F>, p: &Presentation, w: u32, r: u32) -> Option<u32>
    requires sound { IsSound p.now }
    requires agrees { Agrees table.now p.now }
    requires weight { w ≡ table.now.weight + 1 }
    ensures value { MatchOption result
        (relations_from table.now (r + 1) (drop r p.now.relations) ≡ [])
        (λ at. relations_from table.now (r + 1) (drop r p.now.relations)
        ≡ Relation (at + 1) ∷ relations_from table.now (at + 1 + 1) (drop (at + 1) p.now.relations)) }
    ensures range { IfSome result (λ at. at + 1 < 2 ^ 32) }
{
    let relations = p.relations.as_slice();
    for at in r as usize..relations.len() {
        let relation = &relations[at];
        if p.has_weight(relation, w) {
            return Some(at as u32);
        }
    }
    None
}

/// Whether the field has three elements.
fn has_cubes<F: Field>(table: &Table<F>) -> bool
    ensures { result ≡ is_three table.now.kind }
{
    match table.field().kind() {
        Kind::Prime(p) => p == 3,
        Kind::Rational => false,
    }
}

/// Whether the basis element at place `i` is odd.
fn is_odd_at<F: Field>(table: &Table<F>, i: u32) -> bool
    requires shape { HasShape table.now }
    requires within { i < length table.now.basis }
    ensures { result ≡ is_odd (plain_basis table.now i).parity }
{
    match table.basis(i + 1).parity {
        Parity::Odd => true,
        Parity::Even => false,
    }
}

/// The place of the first odd basis element from place `i` on, three times the weight of
/// which is the weight after the table's.
fn next_cube<F: Field>(table: &Table<F>, i: u32) -> Option<u32>
    ensures value { MatchOption result
        (cubes_from table.now i ≡ [])
        (λ at. cubes_from table.now i ≡ Cube (at + 1) ∷ cubes_from table.now (at + 1)) }
    ensures range { IfSome result (λ at. at < 2 ^ 31) }
{
    if !has_cubes(table) {
        return None;
    }
    let w = table.weight() + 1;
    if w % 3 != 0 {
        return None;
    }
    let first = i.max(table.through(w / 3 - 1));
    for at in first..table.through(w / 3) {
        if is_odd_at(table, at) {
            return Some(at);
        }
    }
    None
}

impl Origins {
    /// The origins of weight `w`, which is one above the table's.
    pub fn start<F: Field>(table: &Table<F>, p: &Presentation, w: u32) -> Origins
        requires { w ≡ table.now.weight + 1 }
        ensures value { to_come table.now p.now result ≡ origins_of table.now p.now }
        ensures weight { result.weight ≡ w }
    {
        Origins {
            weight: w,
            place: Place::AtRelation(0),
        }
    }

    /// The next origin: the relations in order, then the triples of basis elements in
    /// lexicographic order, then the cubes. Needs the table and the presentation that
    /// `start` had.
    #[inline(always)]
    pub fn next<F: Field>(&mut self, table: &Table<F>, p: &Presentation) -> Option<Origin>
        requires sound { IsSound p.now }
        requires agrees { Agrees table.now p.now }
        requires weight { self.old.weight ≡ table.now.weight + 1 }
        ensures value { MatchOption result
            (to_come table.now p.now self.old ≡ [])
            (λ o. to_come table.now p.now self.old ≡ o ∷ to_come table.now p.now self.new) }
        ensures weight { self.new.weight ≡ self.old.weight }
    {
        match self.place {
            Place::AtRelation(r) => self.next_from_relation(table, p, r),
            Place::AtTriple(t) => self.next_from_triple(table, p, t),
            Place::AtCube(i) => self.next_from_cube(table, p, i),
        }
    }

    #[inline(always)]
    fn next_from_relation<F: Field>(
        &mut self,
        table: &Table<F>,
        p: &Presentation,
        r: u32,
    ) -> Option<Origin>
        requires sound { IsSound p.now }
        requires agrees { Agrees table.now p.now }
        requires weight { self.old.weight ≡ table.now.weight + 1 }
        ensures value { IsNext table.now p.now (relations_from table.now (r + 1) (drop r p.now.relations) ++ triples_of table.now ++ cubes_of table.now) result
            self.new.place }
        ensures weight { self.new.weight ≡ self.old.weight }
    {
        match next_relation(table, p, self.weight, r) {
            Some(at) => {
                self.place = Place::AtRelation(at + 1);
                Some(Origin::Relation(at + 1))
            }
            None => {
                let start = Triple {
                    first: 0,
                    second: 0,
                    third: 0,
                };
                self.next_from_triple(table, p, start)
            }
        }
    }

    #[inline(always)]
    fn next_from_triple<F: Field>(
        &mut self,
        table: &Table<F>,
        p: &Presentation,
        t: Triple,
    ) -> Option<Origin>
        ensures value { IsNext table.now p.now (firsts_from table.now t.first t.second t.third ++ cubes_of table.now) result self.new.place }
        ensures weight { self.new.weight ≡ self.old.weight }
    {
        match next_triple(table, t) {
            Some(at) => {
                self.place = Place::AtTriple(Triple {
                    first: at.first,
                    second: at.second,
                    third: at.third + 1,
                });
                Some(Origin::Jacobi(at.first + 1, at.second + 1, at.third + 1))
            }
            None => self.next_from_cube(table, p, 0),
        }
    }

    #[inline(always)]
    fn next_from_cube<F: Field>(
        &mut self,
        table: &Table<F>,
        p: &Presentation,
        i: u32,
    ) -> Option<Origin>
        ensures value { IsNext table.now p.now (cubes_from table.now i) result self.new.place }
        ensures weight { self.new.weight ≡ self.old.weight }
    {
        match next_cube(table, i) {
            Some(at) => {
                self.place = Place::AtCube(at + 1);
                Some(Origin::Cube(at + 1))
            }
            None => {
                self.place = Place::AtCube(i);
                None
            }
        }
    }
}
