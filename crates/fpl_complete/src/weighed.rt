ghost use Rattle.std.specs.Prelude.{◌≡◌, ◌≤◌, ◌<◌, ◌+◌, ◌++◌, ◌∷◌, [], OnOk, OnErr};
ghost use Rattle.fpl_rows.specs.Meaning.{AreRows};
ghost use Rattle.fpl_table.specs.Push.{push_of};
ghost use Rattle.fpl_table.specs.Standard.{count_of};

use fpl_log::{Section, Sections};
use fpl_rows::Rows;
use fpl_scalar::Field;
use fpl_table::Table;
use std::alloc::AllocError;

/// The closed rows of a weight, and its section.
#[derive(Drop)]
pub struct Weighed<F: Field> {
    pub rows: Rows<F>,
    pub section: Section,
}

impl<F: Field> Weighed<F> {
    /// Adds the weight to a table, and its section. After a refusal both are unchanged.
    pub fn keep(self, table: &mut Table<F>, sections: &mut Sections) -> Result<(), AllocError>
        requires below { table.old.weight < 1000 }
        requires few { count_of table.old (table.old.weight + 1) ≤ 2000000 }
        requires rows { AreRows table.old.kind (count_of table.old (table.old.weight + 1)) self.rows }
        ensures table { OnOk result (table.new ≡ push_of table.old self.rows) }
        ensures sections { OnOk result (sections.new ≡ sections.old ++ self.section ∷ []) }
        ensures unchanged { OnErr result ((table.new ≡ table.old) × (sections.new ≡ sections.old)) }
    {
        let Weighed { rows, section } = self;
        sections.push(section)?;
        match table.push_weight(&rows) {
            Ok(()) => Ok(()),
            Err(refusal) => {
                sections.pop();
                Err(refusal)
            }
        }
    }
}
