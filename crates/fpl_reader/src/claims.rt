ghost use Rattle.std.specs.Prelude.{◌≡◌, ◌++◌, ◌∷◌, [], All, IfOk, OnOk, length};
ghost use Rattle.math_algebra.specs.Degrees.{of_both, same_parity};
ghost use Rattle.fpl_model.specs.Sound.{HaveWeights};
ghost use Rattle.fpl_model.specs.Degrees.{weight_degree, parity_degree};
ghost use Rattle.fpl_reader.specs.Reading.{is_mixed, first_place, mixed_weight_of, mixed_parity_of, with_claim, with_claims};
ghost use Rattle.fpl_reader.specs.Terms.{AreSidesTerms};

use fpl_model::{Degree, Generators, ParityOf, Presentation};
use fpl_numbers::Kind;
use fpl_syntax::{Claim, ClaimKind};
use sqlite_items::Items;
use std::alloc::{AllocError, Global};

fn is_mixed_weight(d: Degree) -> bool
    ensures { result ≡ is_mixed (weight_degree d) }
{
    matches!(d, Degree::Mixed)
}

/// The place of the first claim whose sides, taken as one sum, have two weights.
pub fn mixed_weight(p: &Presentation, claims: &[Claim]) -> Option<usize>
    requires weights { HaveWeights p.now.generators }
    requires terms { All (AreSidesTerms p.now.field (length p.now.generators)) claims.now }
    ensures { result ≡ first_place (mixed_weight_of p.now) claims.now }
{
    for c in claims {
        if is_mixed_weight(p.equation_weight(&c.equation)) {
            return Some(c.place);
        }
    }
    None
}

fn are_mixed_parities(a: ParityOf, b: ParityOf) -> bool
    ensures { result ≡ is_mixed (of_both same_parity (parity_degree a) (parity_degree b)) }
{
    match (a, b) {
        (ParityOf::Mixed, _) | (_, ParityOf::Mixed) => true,
        (ParityOf::Exact(s), ParityOf::Exact(t)) => s != t,
        _ => false,
    }
}

/// The place of the first claim whose sides, taken as one sum, have two parities.
pub fn mixed_parity(p: &Presentation, claims: &[Claim]) -> Option<usize>
    requires terms { All (AreSidesTerms p.now.field (length p.now.generators)) claims.now }
    ensures { result ≡ first_place (mixed_parity_of p.now) claims.now }
{
    for c in claims {
        let left = p.parity_of(&c.equation.left);
        if are_mixed_parities(left, p.parity_of(&c.equation.right)) {
            return Some(c.place);
        }
    }
    None
}

/// The presentation of a field and generators alone.
pub fn bare(alloc: Global, field: Kind, generators: Generators) -> Presentation
    ensures { result ≡ with_claims field generators [] }
{
    Presentation {
        field,
        generators,
        relations: Items::new(alloc),
        ideals: Items::new(alloc),
        queries: Items::new(alloc),
    }
}

fn place_claim(p: &mut Presentation, claim: Claim) -> Result<(), AllocError>
    ensures { OnOk result (p.new ≡ with_claim p.old claim) }
{
    let Claim {
        kind,
        place: _,
        equation,
    } = claim;
    match kind {
        ClaimKind::Relation => p.relations.push(equation),
        ClaimKind::Ideal => p.ideals.push(equation.left),
        ClaimKind::Equal => p.queries.push(equation),
    }
}

/// A presentation with claims added to none.
pub fn with_claims(p: Presentation, claims: Vec<Claim>) -> Result<Presentation, AllocError>
    requires bare { p ≡ with_claims p.field p.generators [] }
    ensures { IfOk result (λ all. all ≡ with_claims p.field p.generators claims.items) }
{
    let mut p = p;
    for claim in claims {
        place_claim(&mut p, claim)?;
    }
    Ok(p)
}
