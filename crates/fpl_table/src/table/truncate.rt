ghost use Rattle.std.specs.Prelude.{◌≡◌, ◌≤◌, map, IfOk};
ghost use Rattle.fpl_model.specs.Meaning.{plain};
ghost use Rattle.fpl_model.specs.Mono.{expr_of};
ghost use Rattle.fpl_table.specs.Plain.{basis_in};
ghost use Rattle.fpl_table.specs.Truncate.{truncate_of};

use super::{Element, Level, Table};
use crate::shape::Shape;
use fpl_rows::Row;
use fpl_scalar::Field;
use std::alloc::{AllocError, Global};

fn copy_shapes(alloc: Global, shapes: &[Shape]) -> Result<Vec<Shape>, AllocError>
    ensures { IfOk result (λ v. v.items ≡ shapes.now) }
{
    let mut all = Vec::new(alloc);
    all.extend_from_slice(shapes)?;
    Ok(all)
}

/// The same elements, which share their trees with the old ones.
fn share_elements(alloc: Global, elements: &[Element]) -> Result<Vec<Element>, AllocError>
    ensures basis { IfOk result (λ v. map (λ e. basis_in e.basis) v.items ≡ map (λ e. basis_in e.basis) elements.now) }
    ensures trees { IfOk result (λ v. map (λ e. plain (expr_of e.tree.value)) v.items ≡ map (λ e. plain (expr_of e.tree.value)) elements.now) }
    ensures symbols { IfOk result (λ v. map (λ e. e.basis.symbol) v.items ≡ map (λ e. e.basis.symbol) elements.now) }
{
    let mut all = Vec::new(alloc);
    for e in elements {
        all.push(Element {
            basis: e.basis,
            tree: e.tree.clone()?,
        })?;
    }
    Ok(all)
}

fn copy_rows<F: Field>(alloc: Global, rows: &[Row<F>]) -> Result<Vec<Row<F>>, AllocError>
    ensures { IfOk result (λ v. v.items ≡ rows.now) }
{
    let mut all = Vec::new(alloc);
    for row in rows {
        all.push(row.copy(alloc)?)?;
    }
    Ok(all)
}

fn copy_entries<F: Field>(
    alloc: Global,
    entries: &[Vec<Row<F>>],
) -> Result<Vec<Vec<Row<F>>>, AllocError>
    ensures { IfOk result (λ v. map (λ rows. rows.items) v.items ≡ map (λ rows. rows.items) entries.now) }
{
    let mut all = Vec::new(alloc);
    for rows in entries {
        all.push(copy_rows(alloc, rows)?)?;
    }
    Ok(all)
}

fn copy_levels<F: Field>(alloc: Global, levels: &[Level<F>]) -> Result<Vec<Level<F>>, AllocError>
    ensures counts { IfOk result (λ v. map (λ l. l.through) v.items ≡ map (λ l. l.through) levels.now) }
    ensures images { IfOk result (λ v. map (λ l. l.images.items) v.items ≡ map (λ l. l.images.items) levels.now) }
    ensures entries { IfOk result (λ v. map (λ l. map (λ rows. rows.items) l.entries.items) v.items
        ≡ map (λ l. map (λ rows. rows.items) l.entries.items) levels.now) }
{
    let mut all = Vec::new(alloc);
    for level in levels {
        all.push(Level {
            through: level.through,
            images: copy_rows(alloc, &level.images)?,
            entries: copy_entries(alloc, &level.entries)?,
        })?;
    }
    Ok(all)
}

impl<F: Field> Table<F> {
    /// The part of the table through weight `d`, which is at most the table's: it is copied, but for the bracket trees, which both share.
    pub fn truncate(&self, alloc: Global, d: u32) -> Result<Table<F>, AllocError>
        requires { d ≤ self.now.weight }
        ensures { IfOk result (λ t. t ≡ truncate_of self.now d) }
    {
        let count = self.through(d) as usize;
        let elements = self.elements.as_slice();
        let levels = self.levels.as_slice();
        Ok(Table {
            alloc,
            field: self.field,
            shapes: copy_shapes(alloc, &self.shapes)?,
            elements: share_elements(alloc, &elements[..count])?,
            levels: copy_levels(alloc, &levels[..d as usize])?,
        })
    }
}
