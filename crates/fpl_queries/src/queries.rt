ghost use Rattle.std.specs.Prelude.{◌≡◌, ◌<◌, ◌^◌};
ghost use Rattle.fpl_model.specs.Sound.{IsSound, IsSoundEquation, count_equation};
ghost use Rattle.fpl_queries.specs.Queries.{is_beyond};

use fpl_model::{Degree, Equation, Presentation};
use fpl_scalar::Field;
use fpl_table::Table;

/// Whether the weight of a query is past the table's.
pub fn is_beyond<F: Field>(p: &Presentation, table: &Table<F>, q: &Equation) -> bool
    requires sound { IsSound p.now }
    requires query { IsSoundEquation p.now q.now }
    requires small { count_equation q.now < 2 ^ 40 }
    ensures { result ≡ is_beyond p.now table.now q.now }
{
    match p.equation_weight(q) {
        Degree::Exact(w) => w > u64::from(table.weight()),
        Degree::Any | Degree::Mixed => false,
    }
}
