ghost use Rattle.std.specs.Prelude.{◌≡◌, ◌∷◌, [], ◌++◌, MatchOption};

use fpl_lex::{Token, next_token};
use std::marker::Model;

/// The tokens of a text without faults, one at a time.
#[derive(Drop)]
pub struct Stream<'a> {
    text: &'a [u8],
    at: usize,
}

impl<'a> Model for Stream<'a> {
    ghost use Rattle.std.specs.Prelude.{List, ◌≤◌, length};
    ghost use Rattle.fpl_lex.specs.declared.token.Token.{Token};
    ghost use Rattle.fpl_reader.specs.Stream.{tokens_left, IsLexable};

    ghost Value = { List Token };

    ghost view = { λ s. tokens_left s.text.now s.at };

    ghost invariant = { λ s. IsLexable s.text.now s.at × (s.at ≤ length s.text.now) };
}

impl<'a> Stream<'a> {
    ghost use Rattle.fpl_reader.specs.Stream.{tokens_left, IsLexable};

    pub fn new(text: &'a [u8]) -> Self
        requires { IsLexable text.now 0 }
        ensures { result ≡ tokens_left text.now 0 }
    {
        Stream { text, at: 0 }
    }

    #[inline(always)]
    pub fn next(&mut self) -> Option<Token>
        ensures { MatchOption result ((self.old ≡ []) × (self.new ≡ [])) (λ t. self.old ≡ t ∷ self.new) }
    {
        match next_token(self.text, self.at) {
            Ok(Some(token)) => {
                self.at = token.end;
                Some(token)
            }
            _ => None,
        }
    }
}
