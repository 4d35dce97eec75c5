//! Words, and combinations of them.
ghost use Rattle.std.specs.Prelude.{◌≡◌, ◌++◌, ◌∷◌, [], OnOk, OnErr};

use fpl_scalar::Field;
use std::alloc::{AllocError, Global};
use std::marker::Model;

/// A word: basis numbers, from 1.
#[derive(Drop)]
pub struct Word {
    pub letters: Vec<u32>,
}

impl Model for Word {
    ghost use Rattle.std.specs.Prelude.{ℕ, List};

    ghost Value = { List ℕ };

    ghost view = { λ w. w.letters.items };
}

/// A word with its number.
#[derive(Drop)]
pub struct Term<F: Field> {
    pub word: Word,
    pub number: F::Elem,
}

impl<F: Field> Model for Term<F> {
    ghost use Rattle.std.specs.Prelude.{ℕ, List};
    ghost use Rattle.fpl_numbers.specs.declared.number.Num.{Num};

    ghost Value = { List ℕ × Num };

    ghost view = { λ t. (t.word, F.number t.number) };
}

/// A combination of words.
#[derive(Drop)]
pub struct Poly<F: Field> {
    pub terms: Vec<Term<F>>,
}

impl<F: Field> Model for Poly<F> {
    ghost use Rattle.std.specs.Prelude.{ℕ, List};
    ghost use Rattle.fpl_numbers.specs.declared.number.Num.{Num};

    ghost Value = { List (List ℕ × Num) };

    ghost view = { λ u. u.terms.items };
}

impl<F: Field> Poly<F> {
    /// No term.
    pub fn new(alloc: Global) -> Poly<F>
        ensures { result ≡ [] }
    {
        Poly {
            terms: Vec::new(alloc),
        }
    }

    /// Puts a term last. On a refusal the combination is unchanged and the term is gone.
    pub fn push(&mut self, word: Word, number: F::Elem) -> Result<(), AllocError>
        ensures ok { OnOk result (self.new ≡ self.old ++ (word, F.number number) ∷ []) }
        ensures err { OnErr result (self.new ≡ self.old) }
    {
        self.terms.push(Term { word, number })?;
        Ok(())
    }

    /// The terms, in their order.
    pub fn as_slice(&self) -> &[Term<F>]
        ensures { result.now ≡ self.now }
    {
        &self.terms
    }
}
