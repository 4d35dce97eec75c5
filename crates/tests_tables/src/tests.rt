ghost use Rattle.std.specs.Prelude.{◌≡◌, ◌≢◌, ◌≤◌, ◌<◌, ◌+◌, ◌-◌, length, IfSome};
ghost use Rattle.fpl_numbers.specs.declared.number.Kind.{Kind};
ghost use Rattle.fpl_scalar.specs.Vectors.{AreElements};
ghost use Rattle.fpl_model.specs.Meaning.{plain};
ghost use Rattle.fpl_model.specs.Sound.{IsSound, IsTerm, count_tree};
ghost use Rattle.fpl_table.specs.Shape.{IsRowUpTo};

use fpl_complete::State;
use fpl_model::{Expr, Presentation};
use fpl_reader::read;
use fpl_rows::Row;
use fpl_scalar::{Field, Kind, Residue};
use fpl_steps::Steps;
use fpl_table::Table;
use std::alloc::Global;
use std::marker::Brand;
use std::sync::ledger::{Blank, Ledger};
use std::test::Fail;

// Strictly upper triangular 5 by 5 matrices.
const TYPE_A4: &str =
    "field 32003; even e1, e2, e3, e4; relation [e1,e3]; relation [e1,e4]; relation [e2,e4]; relation [e1,[e1,e2]]; relation [e2,[e2,e1]]; relation [e2,[e2,e3]]; relation [e3,[e3,e2]]; relation [e3,[e3,e4]]; relation [e4,[e4,e3]];";

// The presentation of a short text, copied.
fn presentation(alloc: Global, text: &str) -> Option<Presentation>
    ensures { IfSome result (λ p. IsSound p) }
{
    if text.len() > 1000 {
        return None;
    }
    match read(alloc, text.as_bytes()) {
        Ok(p) => p.copy(alloc).ok(),
        Err(_) => None,
    }
}

fn raised<L: Ledger>(
    alloc: Global,
    text: &str,
    d: u32,
    steps: &mut Steps<L>,
) -> Option<State<Residue>>
    requires { d ≤ 1000 }
{
    let p = presentation(alloc, text)?;
    let Kind::Prime(prime) = p.field else {
        return None;
    };
    let field = Residue::of(prime)?;
    let Ok(mut state) = State::start(alloc, field, p) else {
        return None;
    };
    match state.raise(d, 200_000, steps) {
        Ok(()) => Some(state),
        Err(_) => None,
    }
}

// 1 at basis element `i`.
fn unit<F: Field>(alloc: Global, table: &Table<F>, i: u32) -> Option<Row<F>>
    requires { (1 ≤ i) × (i ≤ length table.now.basis) }
    ensures { IfSome result (λ r. IsRowUpTo table.now.kind (length table.now.basis) r) }
{
    let field = table.field();
    let Ok(mut row) = Row::zero(alloc, field, table.basis_len()) else {
        return None;
    };
    match row.add_at(field, i, field.one()) {
        Ok(()) => Some(row),
        Err(_) => None,
    }
}

fn is_unit<F: Field>(table: &Table<F>, row: &Row<F>, i: u32) -> bool
    requires { AreElements table.now.kind row.now }
{
    let field = table.field();
    let alone = row.lead() == Some(i) && row.next(0) == Some(i);
    alone && 0 < i && i <= row.len() && field.same(row.at(i), field.one())
}

// Whether the bracket of basis elements `i` and `j` is basis element `k`.
fn has_bracket<F: Field>(alloc: Global, table: &Table<F>, i: u32, j: u32, k: u32) -> bool {
    let count = table.basis_len();
    if i == 0 || j == 0 || i > count || j > count {
        return false;
    }
    let Some(left) = unit(alloc, table, i) else {
        return false;
    };
    let Some(right) = unit(alloc, table, j) else {
        return false;
    };
    match table.bracket(alloc, &left, &right) {
        Ok(row) => is_unit(table, &row, k),
        Err(_) => false,
    }
}

// Whether the part through weight 3 has its nine basis elements and their brackets.
fn is_part_right<F: Field>(alloc: Global, table: &Table<F>) -> bool {
    if table.weight() < 3 {
        return false;
    }
    match table.truncate(alloc, 3) {
        Ok(part) => {
            part.weight() == 3 && part.basis_len() == 9 && has_bracket(alloc, &part, 1, 6, 8)
        }
        Err(_) => false,
    }
}

// How many generators stand in a bracket tree over `count` generators.
#[tactic(auto, using(fpl_model::proofs::Plain::plain_forms))]
fn leaves(e: &Expr, count: usize) -> Option<u64>
    ensures number { IfSome result (λ n. n ≡ count_tree (plain e.now)) }
    ensures term { IfSome result (λ n. (k : Kind) → IsTerm k count (plain e.now)) }
{
    match e {
        Expr::Gen(g) => {
            if 0 < *g && *g as usize <= count {
                Some(1)
            } else {
                None
            }
        }
        Expr::Br(a, b) => {
            let left = leaves(a.get(), count)?;
            let right = leaves(b.get(), count)?;
            left.checked_add(right)
        }
        _ => None,
    }
}

// Whether the bracket tree of basis element `i` has it as its value.
fn has_tree<F: Field>(alloc: Global, state: &State<F>, i: u32) -> bool {
    let table = state.table();
    let p = state.presentation();
    if i == 0 || i > table.basis_len() {
        return false;
    }
    let Ok(e) = table.mono(i).expr(alloc) else {
        return false;
    };
    let Some(size) = leaves(&e, p.generators.as_slice().len()) else {
        return false;
    };
    if size >= 1000 {
        return false;
    }
    match table.value(alloc, p, &e) {
        Ok(row) => is_unit(table, &row, i),
        Err(_) => false,
    }
}

// What is wrong with the table of type A4 through weight 6.
fn fault_of<L: Ledger>(blank: Blank, alloc: Global) -> Option<&'static str>
    requires name { blank.name ≡ L.name }
    requires parts { blank.parts ≡ L.parts }
    requires some { 0 < blank.parts }
{
    let mut steps = Steps::<L>::new(blank);
    let Some(state) = raised(alloc, TYPE_A4, 6, &mut steps) else {
        return Some("not raised");
    };
    if !is_part_right(alloc, state.table()) {
        return Some("a part is wrong");
    }
    for i in 1..11 {
        if !has_tree(alloc, &state, i) {
            return Some("a tree is wrong");
        }
    }
    if !has_bracket(alloc, state.table(), 5, 7, 10) {
        return Some("a bracket is wrong");
    }
    None
}

#[test]
fn type_a4_is_right(rt: HostRuntime) {
    let alloc = rt.alloc();
    assert_eq!(rt; fault_of::<Brand>(Blank::new(1), alloc), None);
}
