ghost use Rattle.std.specs.Prelude.{◌≡◌, [], ◌∷◌, ◌++◌, length, slice_get, OnOk, OnErr};
ghost use Rattle.std.specs.Option.{option_copied};

use std::alloc::{AllocError, Global};
use std::marker::Model;

/// What a token is.
#[derive(Clone, Copy, Debug, PartialEq, Eq)]
pub enum TokenKind {
    /// A letter, then letters, digits and `_`.
    Word,
    /// Digits, with their value.
    Number(u128),
    /// One of `; , : = + - * / [ ] ( )`.
    Mark(u8),
}

/// A token, which stands from byte `start` up to byte `end`, counted from 0.
#[derive(Clone, Copy, Debug, PartialEq, Eq)]
pub struct Token {
    pub start: usize,
    pub end: usize,
    pub kind: TokenKind,
}

/// The tokens of a text, in their order.
#[derive(Debug, Drop)]
pub struct Tokens {
    tokens: Vec<Token>,
}

impl Model for Tokens {
    ghost use Rattle.std.specs.Prelude.{List};
    ghost use Rattle.fpl_lex.specs.declared.token.Token.{Token};

    ghost Value = { List Token };

    ghost view = { λ ts. ts.tokens.items };
}

impl Tokens {
    pub fn new(alloc: Global) -> Self
        ensures { result ≡ [] }
    {
        Tokens {
            tokens: Vec::new(alloc),
        }
    }

    pub fn len(&self) -> usize
        ensures { result ≡ length self.now }
    {
        self.tokens.len()
    }

    /// The token of this number, counted from 0.
    pub fn get(&self, n: usize) -> Option<&Token>
        ensures { option_copied result ≡ slice_get self.now n }
    {
        self.tokens.get(n)
    }

    /// Puts a token last. After a refusal the list is as before.
    pub fn push(&mut self, token: Token) -> Result<(), AllocError>
        ensures ok { OnOk result (self.new ≡ self.old ++ token ∷ []) }
        ensures err { OnErr result (self.new ≡ self.old) }
    {
        self.tokens.push(token)?;
        Ok(())
    }

    pub fn as_slice(&self) -> &[Token]
        ensures { result.now ≡ self.now }
    {
        self.tokens.as_slice()
    }
}
