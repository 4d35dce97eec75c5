//! Products of polys.
ghost use Rattle.std.specs.Prelude.{◌≡◌, ◌≤◌, ◌+◌, ◌++◌, IfOk, OnOk, All};
ghost use Rattle.plain_envelope.specs.Straight.{poly_product, times_word, multiplied};
ghost use Rattle.fpl_envelope.specs.Action.{IsOfResidues, IsEnveloped, field_in, math_in, number_in};
ghost use Rattle.fpl_envelope.specs.Polys.{poly_of, word_of, weight_in, IsTermIn, IsPolyIn, AreFactors};

use crate::poly::{Poly, Term, Word};
use crate::straightening::straighten;
use crate::sums::times;
use fpl_scalar::Field;
use fpl_table::Table;
use std::alloc::{AllocError, Global};

/// One word after the other.
fn joined(alloc: Global, left: &Word, right: &Word) -> Result<Word, AllocError>
    ensures { IfOk result (λ word. word ≡ left.now ++ right.now) }
{
    let mut letters = Vec::new(alloc);
    letters.extend_from_slice(&left.letters)?;
    letters.extend_from_slice(&right.letters)?;
    Ok(Word { letters })
}

/// Puts the products of a term with those of a poly last.
fn push_products<F: Field>(
    alloc: Global,
    table: &Table<F>,
    left: &Term<F>,
    v: &Poly<F>,
    product: &mut Poly<F>,
) -> Result<(), AllocError>
    requires residues { IsOfResidues table.now.kind }
    requires left { IsTermIn table.now left.now }
    requires right { IsPolyIn table.now v.now }
    requires light { All (λ n. weight_in table.now left.now.0 + weight_in table.now n.0 ≤ table.now.weight) v.now }
    ensures value { OnOk result (poly_of table.now.kind product.new ≡ poly_of table.now.kind product.old
        ++ times_word (field_in table.now) (word_of left.now.0) (number_in table.now left.now.1) (poly_of table.now.kind v.now)) }
    ensures poly { IsPolyIn table.now product.old → OnOk result (IsPolyIn table.now product.new) }
{
    for k in 0..v.terms.len() {
        let right = &v.terms[k];
        let word = joined(alloc, &left.word, &right.word)?;
        let number = times(table.field(), left.number, right.number);
        product.push(word, number)?;
    }
    Ok(())
}

/// The product of two polys over a prime, word by word.
fn product<F: Field>(
    alloc: Global,
    table: &Table<F>,
    u: &Poly<F>,
    v: &Poly<F>,
) -> Result<Poly<F>, AllocError>
    requires residues { IsOfResidues table.now.kind }
    requires factors { AreFactors table.now u.now v.now }
    ensures value { IfOk result (λ r. poly_of table.now.kind r
        ≡ poly_product (field_in table.now) (poly_of table.now.kind u.now) (poly_of table.now.kind v.now)) }
    ensures poly { IfOk result (λ r. IsPolyIn table.now r) }
{
    let mut product = Poly::new(alloc);
    for k in 0..u.terms.len() {
        push_products(alloc, table, &u.terms[k], v, &mut product)?;
    }
    Ok(product)
}

/// The straight form of the product of two polys over a prime, where the words of the product have weight at most the table's.
pub fn multiply<F: Field>(
    alloc: Global,
    table: &Table<F>,
    u: &Poly<F>,
    v: &Poly<F>,
) -> Result<Poly<F>, AllocError>
    requires table { IsEnveloped table.now }
    requires factors { AreFactors table.now u.now v.now }
    ensures value { IfOk result (λ r. poly_of table.now.kind r
        ≡ multiplied (field_in table.now) (math_in table.now) table.now.weight (poly_of table.now.kind u.now) (poly_of table.now.kind v.now)) }
    ensures poly { IfOk result (λ r. IsPolyIn table.now r) }
{
    let product = product(alloc, table, u, v)?;
    straighten(alloc, table, &product)
}
