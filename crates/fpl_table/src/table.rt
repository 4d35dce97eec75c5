ghost use Rattle.std.specs.Prelude.{◌≡◌, ◌≤◌, ◌<◌, ◌+◌, ◌-◌, ◌*◌, ◌^◌, ◌⊎◌, List, length, map, get_or, IfOk};
ghost use Rattle.math_algebra.specs.Tree.{none, odd};
ghost use Rattle.fpl_model.specs.Meaning.{plain, generator_in};
ghost use Rattle.fpl_model.specs.Mono.{expr_of};
ghost use Rattle.fpl_model.specs.Sound.{HaveWeights};
ghost use Rattle.fpl_table.specs.Plain.{basis_in, plain_basis, generator_at, image_row, entry_row, pairing};
ghost use Rattle.fpl_table.specs.Shape.{HasShape, IsNumbered, IsRowUpTo, basis_trees};
ghost use Rattle.fpl_table.specs.Standard.{start_of};
ghost use Rattle.fpl_table.specs.Whole.{pair_in, IsPairWithin, IsPairRegular, shape_in};

mod bracket;
mod count;
mod entry;
mod leads;
mod push;
mod solve;
mod truncate;
mod value;

use crate::shape::Shape;
use crate::{Basis, PairSign};
use fpl_model::{Generators, Mono, Parity, Presentation};
use fpl_rows::Row;
use fpl_scalar::Field;
use std::alloc::{AllocError, Global};
use std::marker::Model;
use std::rc::Rc;

/// A basis element, with its whole bracket tree.
#[derive(Drop)]
struct Element {
    basis: Basis,
    tree: Rc<Mono>,
}

/// What one weight adds.
#[derive(Drop)]
struct Level<F: Field> {
    /// How many basis elements weigh at most this weight.
    through: u32,
    /// The images of the generators of this weight; for the others an empty row.
    images: Vec<Row<F>>,
    /// For each basis element of a lower weight its entries of this weight, by partner.
    entries: Vec<Vec<Row<F>>>,
}

/// The table of a Lie superalgebra through a weight: its basis, the images of the
/// generators, and the brackets of basis elements, as rows over the basis.
///
/// Generators and basis elements count from 1. Basis elements are numbered by weight, then
/// by symbol. Positions past the length of a row count as 0.
#[derive(Drop)]
pub struct Table<F: Field> {
    alloc: Global,
    field: F,
    shapes: Vec<Shape>,
    elements: Vec<Element>,
    levels: Vec<Level<F>>,
}

impl<F: Field> Model for Table<F> {
    ghost use Rattle.std.specs.Prelude.{map, length};
    ghost use Rattle.fpl_model.specs.Meaning.{plain};
    ghost use Rattle.fpl_model.specs.Mono.{expr_of};
    ghost use Rattle.fpl_table.specs.Plain.{PlainTable, basis_in};
    ghost use Rattle.fpl_table.specs.Whole.{IsWhole, shape_in};

    ghost Value = { PlainTable };

    ghost view = { λ t. record {
      kind = F.kind_of t.field;
      generators = map shape_in t.shapes.items;
      weight = length t.levels.items;
      basis = map (λ e. basis_in e.basis) t.elements.items;
      images = map (λ l. l.images.items) t.levels.items;
      entries = map (λ l. map (λ v. v.items) l.entries.items) t.levels.items;
    } };

    ghost invariant = { λ t. IsWhole
        (record {
          kind = F.kind_of t.field;
          generators = map shape_in t.shapes.items;
          weight = length t.levels.items;
          basis = map (λ e. basis_in e.basis) t.elements.items;
          images = map (λ l. l.images.items) t.levels.items;
          entries = map (λ l. map (λ v. v.items) l.entries.items) t.levels.items;
        })
        (map (λ l. l.through) t.levels.items)
        (map (λ e. plain (expr_of e.tree.value)) t.elements.items)
        (map (λ e. e.basis.symbol) t.elements.items) };
}

fn shapes_of(alloc: Global, generators: &Generators) -> Result<Vec<Shape>, AllocError>
    ensures { IfOk result (λ shapes. map shape_in shapes.items ≡ map generator_in generators.now) }
{
    let mut shapes = Vec::new(alloc);
    for g in generators.as_slice() {
        shapes.push(Shape {
            weight: g.weight,
            parity: g.parity,
        })?;
    }
    Ok(shapes)
}

impl<F: Field> Table<F> {
    /// The table of a presentation through weight 0. The field is of the presentation's kind.
    pub fn start(alloc: Global, field: F, p: &Presentation) -> Result<Table<F>, AllocError>
        requires kind { F.kind_of field ≡ p.now.field }
        requires few { length p.now.generators ≤ 64 }
        requires weights { HaveWeights p.now.generators }
        ensures { IfOk result (λ t. t ≡ start_of p.now) }
    {
        Ok(Table {
            alloc,
            field,
            shapes: shapes_of(alloc, &p.generators)?,
            elements: Vec::new(alloc),
            levels: Vec::new(alloc),
        })
    }

    pub fn weight(&self) -> u32
        ensures value { result ≡ self.now.weight }
        ensures shape { HasShape self.now }
    {
        self.levels.len() as u32
    }

    pub fn field(&self) -> &F
        ensures { F.kind_of result.now ≡ self.now.kind }
    {
        &self.field
    }

    /// The number of basis elements.
    pub fn basis_len(&self) -> u32
        ensures value { result ≡ length self.now.basis }
        ensures shape { HasShape self.now }
    {
        self.elements.len() as u32
    }

    /// Basis element `i`.
    #[inline(always)]
    pub fn basis(&self, i: u32) -> Basis
        requires { (1 ≤ i) × (i ≤ length self.now.basis) }
        ensures value { basis_in result ≡ plain_basis self.now (i - 1) }
        ensures from_one { IsNumbered result.symbol }
        ensures shape { HasShape self.now }
    {
        self.elements[i as usize - 1].basis
    }

    /// The whole bracket tree of basis element `i`.
    pub fn mono(&self, i: u32) -> &Rc<Mono>
        requires { (1 ≤ i) × (i ≤ length self.now.basis) }
        ensures { plain (expr_of result.now.value) ≡ get_or (basis_trees self.now) (i - 1) none }
    {
        &self.elements[i as usize - 1].tree
    }

    /// The bracket of basis elements `i` and `j`, by the sign of its regular pair.
    #[inline(always)]
    pub fn pair(&self, i: u32, j: u32) -> PairSign
        requires left { (1 ≤ i) × (i ≤ length self.now.basis) }
        requires right { (1 ≤ j) × (j ≤ length self.now.basis) }
        ensures value { pair_in result ≡ pairing self.now (i - 1) (j - 1) }
        ensures within { IsPairWithin (length self.now.basis) result }
        ensures regular { IsPairRegular self.now result }
    {
        let left = self.basis(i).parity;
        if i < j {
            return PairSign::Plus(i, j);
        }
        if i == j {
            return match left {
                Parity::Odd => PairSign::Plus(i, i),
                Parity::Even => PairSign::Zero,
            };
        }
        match (left, self.basis(j).parity) {
            (Parity::Odd, Parity::Odd) => PairSign::Plus(j, i),
            _ => PairSign::Minus(j, i),
        }
    }

    /// The image of generator `g`, whose weight is at most the table's.
    pub fn image(&self, g: u32) -> &Row<F>
        requires range { (1 ≤ g) × (g ≤ length self.now.generators) }
        requires reached { (generator_at self.now (g - 1)).weight ≤ self.now.weight }
        ensures value { result.now ≡ image_row self.now (g - 1) }
        ensures row { IsRowUpTo self.now.kind (length self.now.basis) result.now }
    {
        let at = g as usize - 1;
        let weight = self.shapes[at].weight as usize;
        &self.levels[weight - 1].images[at]
    }
}
