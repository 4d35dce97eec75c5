//! What the check says of lines, and their text.

use crate::lines::{presentation, proof, small_sums};
use fpl_why::{Rule, check_proof, proof_text};
use std::alloc::Global;
use std::test::Fail;

const SEVEN: &str = "field 7; even x, y; odd u, v; relation [x,[x,y]] = [y,[y,x]]; ";

const THREE: &str = "field 3; even x, y; odd u, v; ";

/// The lines' sides as queries, and their rules; and the least line that isn't an instance.
type Row = (
    &'static str,
    &'static [(&'static str, &'static [u32])],
    Option<u64>,
);

const ROWS: [Row; 55] = [
    ("equal x = x;", &[("same", &[])], None),
    ("equal x = y;", &[("same", &[])], Some(1)),
    (
        "equal [y,x] = 6*[x,y]; equal 6*[x,y] = [y,x];",
        &[("swap", &[0, 0]), ("turn", &[1])],
        None,
    ),
    (
        "equal [y,x] = 6*[x,y]; equal [y,x] = 6*[x,y];",
        &[("swap", &[0, 0]), ("turn", &[1])],
        Some(2),
    ),
    ("equal x = x;", &[("turn", &[1])], Some(1)),
    ("equal x = x;", &[("turn", &[0])], Some(1)),
    (
        "equal [y,x] = 6*[x,y]; equal 6*[x,y] = [y,x]; equal [y,x] = [y,x];",
        &[("swap", &[0, 0]), ("turn", &[1]), ("chain", &[1, 2])],
        None,
    ),
    (
        "equal [y,x] = 6*[x,y]; equal 6*[x,y] = [y,x]; equal [y,x] = [y,x];",
        &[("swap", &[0, 0]), ("turn", &[1]), ("chain", &[2, 1])],
        Some(3),
    ),
    (
        "equal x = x; equal y = y; equal x + y = x + y;",
        &[("same", &[]), ("same", &[]), ("parts", &[1, 2])],
        None,
    ),
    (
        "equal x = x; equal y = y; equal x + y = x + y;",
        &[("same", &[]), ("same", &[]), ("parts", &[2, 1])],
        Some(3),
    ),
    (
        "equal x = x; equal y = y; equal x + y = x + y;",
        &[("same", &[]), ("same", &[]), ("parts", &[1])],
        Some(3),
    ),
    (
        "equal [y,x] = 6*[x,y]; equal 3*[y,x] = 3*(6*[x,y]);",
        &[("swap", &[0, 0]), ("factor", &[1])],
        None,
    ),
    (
        "equal [y,x] = 6*[x,y]; equal 3*[y,x] = 2*(6*[x,y]);",
        &[("swap", &[0, 0]), ("factor", &[1])],
        Some(2),
    ),
    (
        "equal x = x; equal y = y; equal [x,y] = [x,y];",
        &[("same", &[]), ("same", &[]), ("members", &[1, 2])],
        None,
    ),
    (
        "equal x = x; equal y = y; equal [x,y] = [x,y];",
        &[("same", &[]), ("same", &[]), ("members", &[2, 1])],
        Some(3),
    ),
    (
        "equal x + 2*y + 3*x = 2*y + x + 3*x;",
        &[("exchange", &[1])],
        None,
    ),
    (
        "equal x + 2*y + 3*x = 2*y + x + 3*x;",
        &[("exchange", &[2])],
        Some(1),
    ),
    ("equal x + y = y + x;", &[("exchange", &[2])], Some(1)),
    ("equal (x + y) + x = x + y + x;", &[("flat", &[1])], None),
    ("equal (x + y) + x = x + y + x;", &[("flat", &[2])], Some(1)),
    ("equal x + 0 + y = x + y;", &[("drop", &[2])], None),
    ("equal x + 0 + y = x + y;", &[("drop", &[1])], Some(1)),
    ("equal x + y = 0;", &[("empty", &[])], Some(1)),
    ("equal x + y = x;", &[("single", &[])], Some(1)),
    ("equal 3*(4*x) = 5*x;", &[("multiply", &[])], None),
    ("equal 3*(4*x) = 4*x;", &[("multiply", &[])], Some(1)),
    ("equal 1*x = x;", &[("one", &[])], None),
    ("equal 2*x = x;", &[("one", &[])], Some(1)),
    ("equal 0*x = 0;", &[("nought", &[])], None),
    ("equal 1*x = 0;", &[("nought", &[])], Some(1)),
    ("equal 3*x + 5*x + y = 1*x + y;", &[("collect", &[1])], None),
    (
        "equal 3*x + 5*x + y = 2*x + y;",
        &[("collect", &[1])],
        Some(1),
    ),
    ("equal 2*(x + y) = 2*x + 2*y;", &[("spread", &[])], None),
    ("equal 2*(x + y) = 2*x + y;", &[("spread", &[])], Some(1)),
    (
        "equal [x + y,u] = [x,u] + [y,u];",
        &[("leftsum", &[])],
        None,
    ),
    (
        "equal [x + y,u] = [y,u] + [x,u];",
        &[("leftsum", &[])],
        Some(1),
    ),
    (
        "equal [u,x + y] = [u,x] + [u,y];",
        &[("rightsum", &[])],
        None,
    ),
    (
        "equal [u,x + y] = [u,x] + [y,u];",
        &[("rightsum", &[])],
        Some(1),
    ),
    ("equal [2*x,y] = 2*[x,y];", &[("lefttimes", &[])], None),
    ("equal [2*x,y] = 3*[x,y];", &[("lefttimes", &[])], Some(1)),
    ("equal [x,2*y] = 2*[x,y];", &[("righttimes", &[])], None),
    ("equal [x,2*y] = 2*[x,y];", &[("lefttimes", &[])], Some(1)),
    ("equal [y,x] = 6*[x,y];", &[("swap", &[0, 0])], None),
    ("equal [y,x] = 1*[x,y];", &[("swap", &[0, 0])], Some(1)),
    ("equal [u,v] = 1*[v,u];", &[("swap", &[1, 1])], None),
    ("equal [u,v] = 6*[v,u];", &[("swap", &[1, 1])], Some(1)),
    ("equal [u,x] = 6*[x,u];", &[("swap", &[1, 0])], None),
    ("equal [u,x] = 6*[x,u];", &[("swap", &[0, 0])], Some(1)),
    (
        "equal [x,[y,x]] = [[x,y],x] + 1*[y,[x,x]];",
        &[("jacobi", &[0, 0])],
        None,
    ),
    (
        "equal [u,[v,x]] = [[u,v],x] + 6*[v,[u,x]];",
        &[("jacobi", &[1, 1])],
        None,
    ),
    (
        "equal [u,[v,x]] = [[u,v],x] + 1*[v,[u,x]];",
        &[("jacobi", &[1, 1])],
        Some(1),
    ),
    ("equal [x,[x,y]] = [y,[y,x]];", &[("relation", &[1])], None),
    (
        "equal [y,[y,x]] = [x,[x,y]];",
        &[("relation", &[1])],
        Some(1),
    ),
    (
        "equal [x,[x,y]] = [y,[y,x]];",
        &[("relation", &[2])],
        Some(1),
    ),
    ("equal [u,[u,u]] = 0;", &[("cube", &[])], Some(1)),
];

const MODULO_THREE: [Row; 2] = [
    ("equal [u,[u,u]] = 0;", &[("cube", &[])], None),
    ("equal [x,[x,x]] = 0;", &[("cube", &[])], Some(1)),
];

fn text_of(alloc: Global, head: &str, queries: &str) -> Option<String> {
    let mut text = String::from_str(alloc, head).ok()?;
    text.push_str(queries).ok()?;
    Some(text)
}

fn judged(alloc: Global, head: &str, row: &Row) -> Option<Option<u64>> {
    let (queries, rules, _) = row;
    let text = text_of(alloc, head, queries)?;
    let p = presentation(alloc, text.as_str())?;
    let lines = proof(alloc, &p, rules)?;
    Some(check_proof(&p, &lines))
}

#[test]
fn each_rule(rt: HostRuntime) -> Result<(), Fail> {
    for row in &ROWS {
        let (queries, _, want) = row;
        assert_eq!(rt; judged(rt.alloc(), SEVEN, row), Some(*want), "{queries}");
    }
    Ok(())
}

#[test]
fn modulo_three(rt: HostRuntime) -> Result<(), Fail> {
    for row in &MODULO_THREE {
        let (queries, _, want) = row;
        assert_eq!(rt; judged(rt.alloc(), THREE, row), Some(*want), "{queries}");
    }
    Ok(())
}

fn small_judged(alloc: Global, empty: Rule, single: Rule, flat: Rule) -> Option<Option<u64>> {
    let p = presentation(alloc, SEVEN)?;
    if p.generators.is_empty() {
        return None;
    }
    let lines = small_sums(alloc, &p, empty, single, flat)?;
    Some(check_proof(&p, &lines))
}

#[test]
fn sums_of_fewer_than_two(rt: HostRuntime) -> Result<(), Fail> {
    let alloc = rt.alloc();
    assert_eq!(rt;
        small_judged(alloc, Rule::Empty, Rule::Single, Rule::Flat(1)),
        Some(None)
    );
    assert_eq!(rt;
        small_judged(alloc, Rule::Single, Rule::Single, Rule::Flat(1)),
        Some(Some(1))
    );
    assert_eq!(rt;
        small_judged(alloc, Rule::Empty, Rule::Empty, Rule::Flat(1)),
        Some(Some(2))
    );
    assert_eq!(rt;
        small_judged(alloc, Rule::Empty, Rule::Single, Rule::Drop(1)),
        Some(Some(3))
    );
    Ok(())
}

fn is_spelled(alloc: Global, queries: &str, rules: &[(&str, &[u32])], want: &str) -> Option<bool> {
    let text = text_of(alloc, SEVEN, queries)?;
    let p = presentation(alloc, text.as_str())?;
    let lines = proof(alloc, &p, rules)?;
    let spelled = proof_text(alloc, &p, &lines).ok()?;
    Some(spelled.as_slice() == want.as_bytes())
}

const SPELLED: [(&str, &[(&str, &[u32])], &str); 2] = [
    (
        "equal [y,x] = 6*[x,y]; equal 3*[y,x] = 3*(6*[x,y]); equal 3*[y,x] = 4*[x,y];",
        &[("swap", &[0, 0]), ("factor", &[1]), ("chain", &[2, 12])],
        "l1: [y,x] = 6*[x,y] by swap even even\nl2: 3*[y,x] = 3*(6*[x,y]) by factor 1\nl3: 3*[y,x] = 4*[x,y] by chain 2 12\n",
    ),
    (
        "equal x + (y + 0) = x + y + 0; equal [u,[v,x + y]] = 0;",
        &[("parts", &[1, 2, 10]), ("jacobi", &[1, 0])],
        "l1: x + (y + 0) = x + y + 0 by parts 1 2 10\nl2: [u,[v,x + y]] = 0 by jacobi odd even\n",
    ),
];

#[test]
fn texts(rt: HostRuntime) -> Result<(), Fail> {
    for (queries, rules, want) in SPELLED {
        assert_eq!(rt;
            is_spelled(rt.alloc(), queries, rules, want),
            Some(true),
            "{queries}"
        );
    }
    Ok(())
}

const SMALL_SUMS: &str =
    "l1: sum() = 0 by empty\nl2: sum(x) = x by leftsum\nl3: sum((sum(x))) = sum(x) by collect 3\n";

fn is_small_spelled(alloc: Global) -> Option<bool> {
    let p = presentation(alloc, SEVEN)?;
    if p.generators.is_empty() {
        return None;
    }
    let lines = small_sums(alloc, &p, Rule::Empty, Rule::LeftSum, Rule::Collect(3))?;
    let spelled = proof_text(alloc, &p, &lines).ok()?;
    Some(spelled.as_slice() == SMALL_SUMS.as_bytes())
}

#[test]
fn texts_of_small_sums(rt: HostRuntime) -> Result<(), Fail> {
    assert_eq!(rt; is_small_spelled(rt.alloc()), Some(true));
    Ok(())
}
