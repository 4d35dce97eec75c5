//! The texts of the view `map`.
ghost use Rattle.std.specs.Prelude.{◌≡◌, ◌≤◌, ◌<◌, ◌+◌, ◌-◌, ◌++◌, length, codes, decimal, get_or, IfOk, OnOk};
ghost use Rattle.fpl_print.specs.TableText.{text_of};
ghost use Rattle.fpl_ranks.specs.Texts.{respected_line, rank_line, map_text, broken_text};

use fpl_model::Presentation;
use fpl_print::{push_count, push_head_line};
use fpl_scalar::Residue;
use fpl_spelling::push_number;
use fpl_table::Table;
use std::alloc::{AllocError, Global};

fn push_respected(out: &mut Vec<u8>, count: usize) -> Result<(), AllocError>
    ensures { OnOk result (out.new.items ≡ out.old.items ++ respected_line count) }
{
    out.extend_from_slice(b"relations ")?;
    push_number(out, count as u64)?;
    out.extend_from_slice(b" respected\n")?;
    Ok(())
}

fn push_rank(
    out: &mut Vec<u8>,
    table: &Table<Residue>,
    rank: usize,
    w: u32,
) -> Result<(), AllocError>
    requires { (1 ≤ w) × (w ≤ table.now.weight) }
    ensures { OnOk result (out.new.items ≡ out.old.items ++ rank_line table.now w rank) }
{
    let dimension = table.through(w).saturating_sub(table.through(w - 1));
    out.extend_from_slice(b"weight ")?;
    push_number(out, w)?;
    out.extend_from_slice(b" dimension ")?;
    push_number(out, dimension)?;
    push_count(out, b" rank ", rank)
}

fn push_ranks(out: &mut Vec<u8>, table: &Table<Residue>, ranks: &[usize]) -> Result<(), AllocError>
    requires { length ranks.now ≡ table.now.weight }
    ensures { OnOk result (out.new.items ≡ out.old.items ++ text_of table.now.weight (λ v. rank_line table.now (v + 1) (get_or ranks.now v 0))) }
{
    for w in 0..table.weight() {
        push_rank(out, table, ranks[w as usize], w + 1)?;
    }
    Ok(())
}

/// The text where each relation is respected: how many there are, and for each weight of the table its dimension and
/// its rank. `ranks` begins with that of weight 1.
pub fn map_text(
    alloc: Global,
    p: &Presentation,
    table: &Table<Residue>,
    ranks: &[usize],
) -> Result<Vec<u8>, AllocError>
    requires kind { table.now.kind ≡ p.now.field }
    requires ranks { length ranks.now ≡ table.now.weight }
    ensures { IfOk result (λ text. text.items ≡ map_text p.now table.now ranks.now) }
{
    let mut out = Vec::new(alloc);
    push_head_line(&mut out, b"map", p.field, table.weight())?;
    push_respected(&mut out, p.relations.as_slice().len())?;
    push_ranks(&mut out, table, ranks)?;
    out.extend_from_slice(b"end\n")?;
    Ok(out)
}

/// The text where relation `k`, which counts from 1, is the least that isn't respected.
pub fn broken_text(
    alloc: Global,
    p: &Presentation,
    limit: u32,
    k: u32,
) -> Result<Vec<u8>, AllocError>
    ensures { IfOk result (λ text. text.items ≡ broken_text p.now.field limit k) }
{
    let mut out = Vec::new(alloc);
    push_head_line(&mut out, b"map", p.field, limit)?;
    out.extend_from_slice(b"relation ")?;
    push_number(&mut out, k)?;
    out.extend_from_slice(b" broken\nend\n")?;
    Ok(out)
}
