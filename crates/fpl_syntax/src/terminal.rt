ghost use Rattle.std.specs.Prelude.{◌≡◌};
ghost use Rattle.fpl_syntax.specs.Sight.{word_of};

use fpl_model::Parity;

/// A name where it stands in a text, from byte `start` up to byte `end`.
#[derive(Clone, Copy, Debug, PartialEq, Eq)]
pub struct Word {
    pub start: usize,
    pub end: usize,
    /// Whether it is the word `Q`, which names the rationals in a field statement.
    pub rationals: bool,
}

/// A number where it stands in a text.
#[derive(Clone, Copy, Debug, PartialEq, Eq)]
pub struct Numeral {
    pub place: usize,
    pub value: u128,
}

/// The statements that hold expressions.
#[derive(Clone, Copy, Debug, PartialEq, Eq)]
pub enum ClaimKind {
    Relation,
    Ideal,
    Equal,
}

/// A token as the grammar sees it. A reserved word that begins a field statement or a claim has its place.
#[derive(Clone, Copy, Debug, PartialEq, Eq)]
pub enum Terminal {
    Field(usize),
    Declare(Parity),
    Claim(ClaimKind, usize),
    Name(Word),
    Number(Numeral),
    Semicolon,
    Comma,
    Colon,
    Equals,
    Plus,
    Minus,
    Star,
    Slash,
    OpenBracket,
    CloseBracket,
    OpenGroup,
    CloseGroup,
}

impl Word {
    /// Its bytes in the text in which it stands.
    pub fn bytes(self, text: &[u8]) -> &[u8]
        ensures { result.now ≡ word_of text.now self.start self.end }
    {
        if self.start <= self.end && self.end <= text.len() {
            &text[self.start..self.end]
        } else {
            &[]
        }
    }
}
