ghost use Rattle.std.specs.Prelude.{◌≡◌, ◌↔◌, IsTrue, map};
ghost use Rattle.fpl_model.specs.Meaning.{plain};

use fpl_model::Expr;

/// Whether two expressions are one tree.
#[cycle(comparing)]
#[tactic(auto, using(fpl_model::proofs::Plain::plain_forms))]
pub fn same(e: &Expr, f: &Expr) -> bool
    ensures { IsTrue result ↔ (plain e.now ≡ plain f.now) }
{
    match (e, f) {
        (Expr::Gen(g), Expr::Gen(h)) => g == h,
        (Expr::Zero, Expr::Zero) => true,
        (Expr::Sum(es), Expr::Sum(fs)) => same_all(es.get().as_slice(), fs.get().as_slice()),
        (Expr::Times(c, e), Expr::Times(d, f)) => {
            c.number() == d.number() && same(e.get(), f.get())
        }
        (Expr::Br(a, b), Expr::Br(c, d)) => same(a.get(), c.get()) && same(b.get(), d.get()),
        _ => false,
    }
}

/// Whether two lists of expressions are equal, member by member.
#[cycle(comparing)]
#[tactic(auto, using(fpl_model::proofs::Plain::plain_forms))]
pub fn same_all(es: &[Expr], fs: &[Expr]) -> bool
    ensures { IsTrue result ↔ (map plain es.now ≡ map plain fs.now) }
{
    if es.len() != fs.len() {
        return false;
    }
    for i in 0..es.len() {
        if !same(&es[i], &fs[i]) {
            return false;
        }
    }
    true
}
