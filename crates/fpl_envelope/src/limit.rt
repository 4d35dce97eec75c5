//! The weight through which there are too many words.
ghost use Rattle.std.specs.Prelude.{◌≡◌, ◌≤◌, IfOk, option_map};
ghost use Rattle.fpl_table.specs.Plain.{table_in};
ghost use Rattle.plain_envelope.specs.Listing.{word_limit};

use crate::counts::Counts;
use fpl_scalar::Field;
use fpl_table::Table;
use std::alloc::{AllocError, Global};

/// The least weight of at most `w` through which the ordered words, from weight 1 on, number more than `entries`, with that number; None where there is
/// none. No word is listed.
pub fn word_count<F: Field>(
    alloc: Global,
    table: &Table<F>,
    w: u32,
    entries: u64,
) -> Result<Option<(u32, u64)>, AllocError>
    requires within { w ≤ table.now.weight }
    requires entries { entries ≤ 2000000 }
    ensures { IfOk result (λ found. option_map (λ p. (p.0, p.1)) found ≡ word_limit (table_in table.now.kind table.now) entries w) }
{
    let mut counts = Counts::new(alloc)?;
    let mut sum = 0;
    for below in 0..w {
        let v = below + 1;
        let row = counts.next_row(alloc, table, v)?;
        sum += row[row.len() - 1];
        if sum > entries {
            return Ok(Some((v, sum)));
        }
        counts.push(table, row)?;
    }
    Ok(None)
}
