ghost use Rattle.std.specs.Prelude.{◌≡◌, ◌≤◌, IfSome};
ghost use Rattle.fpl_numbers.specs.declared.number.Kind.TheVariants.{Prime};
ghost use Rattle.fpl_model.specs.Sound.{IsSound};
ghost use Rattle.fpl_matrices.specs.Matrices.{prime_in};

use fpl_matrices::{MapError, first_broken, read_map};
use fpl_model::Presentation;
use fpl_numbers::Kind;
use fpl_reader::read;
use std::alloc::Global;
use std::test::Fail;

/// What a text gives: the first relation that doesn't hold, or a refusal.
#[derive(Clone, Copy, Debug, PartialEq, Eq)]
enum Gives {
    Respected,
    Broken(u32),
    Refused(MapError),
}

const HEISENBERG: &str = "field 7; even x, y; relation [x,[x,y]] = 0; relation [y,[x,y]] = 0;";

const HEISENBERG_MATRICES: &str = "size 3 0\nx 0 1 0 0 0 0 0 0 0\ny 0 0 0 0 0 1 0 0 0\n";

const SQUARE: &str = "field 7; odd u; relation [u,u];";

const ROWS: [(&str, &str, Gives); 24] = [
    (HEISENBERG, HEISENBERG_MATRICES, Gives::Respected),
    (SQUARE, "size 1 1\nu 0 1 1 0", Gives::Broken(1)),
    (SQUARE, "size 1 1\nu 0 1 0 0", Gives::Respected),
    // the commutator of the odd matrix with itself would be 0
    (SQUARE, "size 1 1\nu 0 2 3 0", Gives::Broken(1)),
    // the bracket of x and y has 1 at row 1, column 3, and 0 elsewhere
    (
        "field 7; even x, y; even z:2; relation [x,y] = z;",
        "size 3 0 x 0 1 0 0 0 0 0 0 0 y 0 0 0 0 0 1 0 0 0 z 0 0 1 0 0 0 0 0 0",
        Gives::Respected,
    ),
    // sl(2|1): of two odd matrices the products are added
    (
        "field 7; odd a, b; even h:2; relation [a,b] = h;",
        "size 2 1 a 0 0 1 0 0 0 0 0 0 b 0 0 0 0 0 0 1 0 0 h 1 0 0 0 0 0 0 0 1",
        Gives::Respected,
    ),
    (
        SQUARE,
        "size 1 1\nu 1 0 0 1",
        Gives::Refused(MapError::Parity(11)),
    ),
    (
        SQUARE,
        "size 1 1\nu 0 1 1 7",
        Gives::Refused(MapError::Number(17)),
    ),
    (
        SQUARE,
        "size 1 1\nu 0 1 1 99999999999999999999999",
        Gives::Refused(MapError::Number(17)),
    ),
    (
        SQUARE,
        "size 1 1\nu 0 1 1",
        Gives::Refused(MapError::Syntax(16)),
    ),
    (
        SQUARE,
        "size 1 1\nu 0 1 1 0 0",
        Gives::Refused(MapError::Syntax(19)),
    ),
    (
        SQUARE,
        "size 1 1\nu 0 01 1 0",
        Gives::Refused(MapError::Syntax(13)),
    ),
    (
        SQUARE,
        "size 1 1\nu 0 +1 1 0",
        Gives::Refused(MapError::Syntax(13)),
    ),
    (
        SQUARE,
        "size 1 1\nv 0 1 1 0",
        Gives::Refused(MapError::Syntax(9)),
    ),
    (SQUARE, "size 33", Gives::Refused(MapError::Size(5))),
    (SQUARE, "size 33 x", Gives::Refused(MapError::Size(5))),
    (SQUARE, "size 1 32", Gives::Refused(MapError::Size(7))),
    (SQUARE, "size 0 0", Gives::Refused(MapError::Size(7))),
    (
        SQUARE,
        "size 4294967296 0",
        Gives::Refused(MapError::Size(5)),
    ),
    (SQUARE, "size 1", Gives::Refused(MapError::Syntax(6))),
    (SQUARE, "sizes 1 1", Gives::Refused(MapError::Syntax(0))),
    (SQUARE, " \t\r\n", Gives::Refused(MapError::Syntax(4))),
    (
        "field 7; even x:2; odd u; relation [u,u] = 2*x; relation [x,u] = 0;",
        "size 1 1 x 1 0 0 1 u 0 1 1 0",
        Gives::Respected,
    ),
    (
        "field 7; even x, y; relation [x,[x,[x,[x,[x,y]]]]];",
        "size 0 2 x 1 0 0 0 y 0 1 0 0",
        Gives::Broken(1),
    ),
];

// The presentation of a short text, over a prime.
fn presentation(alloc: Global, text: &str) -> Option<Presentation>
    ensures sound { IfSome result (λ p. IsSound p) }
    ensures prime { IfSome result (λ p. p.field ≡ Prime (prime_in p.field)) }
{
    if text.len() > 1000 {
        return None;
    }
    match read(alloc, text.as_bytes()) {
        Ok(p) => match p.field {
            Kind::Prime(_) => p.copy(alloc).ok(),
            Kind::Rational => None,
        },
        Err(_) => None,
    }
}

fn given(alloc: Global, text: &str, map: &str) -> Option<Gives> {
    let p = presentation(alloc, text)?;
    match read_map(alloc, &p, map.as_bytes(), 0) {
        Err(e) => Some(Gives::Refused(e)),
        Ok(a) => match first_broken(alloc, &p, &a).ok()? {
            Some(k) => Some(Gives::Broken(k)),
            None => Some(Gives::Respected),
        },
    }
}

#[test]
fn each_text(rt: HostRuntime) -> Result<(), Fail> {
    for (text, map, want) in ROWS {
        assert_eq!(rt; given(rt.alloc(), text, map), Some(want), "{text} {map}");
    }
    Ok(())
}
