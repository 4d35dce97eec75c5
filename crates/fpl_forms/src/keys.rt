//! Keys of expressions: equal expressions have equal keys, and unequal ones mostly not.
ghost use Rattle.std.specs.Prelude.{◌≡◌, map};
ghost use Rattle.math_algebra.specs.Tree.{trees};
ghost use Rattle.fpl_model.specs.Meaning.{plain};
ghost use Rattle.fpl_forms.specs.Distinct.{mixed, number_key, key_of, keys_of, sides_key};

use fpl_model::{Expr, Scalar};

#[tactic(auto, unfolding(crate::specs::Distinct::mixed))]
fn mixed(a: u32, b: u32) -> u32
    ensures { result ≡ mixed a b }
{
    ((u64::from(a) * 1000003 + u64::from(b) * 65599 + 1) % 4294967291) as u32
}

#[tactic(auto, unfolding(crate::specs::Distinct::number_key))]
fn number_key(c: &Scalar) -> u32
    ensures { result ≡ number_key c.now }
{
    (c.number().numerator.unsigned_abs() % 4294967291) as u32
}

#[cycle(keying)]
#[tactic(auto, using(fpl_model::proofs::Plain::plain_forms), unfolding(crate::specs::Distinct::key_of))]
fn key(e: &Expr) -> u32
    ensures { result ≡ key_of (plain e.now) }
{
    match e {
        Expr::Gen(g) => mixed(1, *g),
        Expr::Zero => 2,
        Expr::Sum(members) => mixed(3, keys(members.get().as_slice())),
        Expr::Times(c, e) => mixed(mixed(4, number_key(c)), key(e.get())),
        Expr::Br(a, b) => mixed(mixed(5, key(a.get())), key(b.get())),
    }
}

#[cycle(keying)]
#[tactic(auto, using(fpl_model::proofs::Plain::plain_forms), unfolding(crate::specs::Distinct::key_of))]
fn keys(es: &[Expr]) -> u32
    ensures { result ≡ keys_of (trees (map plain es.now)) }
{
    let mut all = 6;
    let mut at = es.len();
    while at > 0 {
        at -= 1;
        all = mixed(key(&es[at]), all);
    }
    all
}

/// The key of two sides.
pub(crate) fn sides_key(left: &Expr, right: &Expr) -> u32
    ensures { result ≡ sides_key left.now right.now }
{
    mixed(key(left), key(right))
}
