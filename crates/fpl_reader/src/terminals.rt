ghost use Rattle.std.specs.Prelude.{◌≡◌};
ghost use Rattle.fpl_reader.specs.Terminals.{word_terminal, mark_terminal, terminal_of};

use fpl_lex::{Token, TokenKind};
use fpl_model::Parity;
use fpl_syntax::{ClaimKind, Numeral, Terminal, Word};

fn word_terminal(word: &[u8], start: usize, end: usize) -> Terminal
    ensures { result ≡ word_terminal word.now start end }
{
    if word == b"field".as_slice() {
        return Terminal::Field(start);
    }
    if word == b"even".as_slice() {
        return Terminal::Declare(Parity::Even);
    }
    if word == b"odd".as_slice() {
        return Terminal::Declare(Parity::Odd);
    }
    if word == b"relation".as_slice() {
        return Terminal::Claim(ClaimKind::Relation, start);
    }
    if word == b"ideal".as_slice() {
        return Terminal::Claim(ClaimKind::Ideal, start);
    }
    if word == b"equal".as_slice() {
        return Terminal::Claim(ClaimKind::Equal, start);
    }
    Terminal::Name(Word {
        start,
        end,
        rationals: word == b"Q".as_slice(),
    })
}

#[inline(always)]
fn mark_terminal(b: u8) -> Terminal
    ensures { result ≡ mark_terminal b }
{
    match b {
        b';' => Terminal::Semicolon,
        b',' => Terminal::Comma,
        b':' => Terminal::Colon,
        b'=' => Terminal::Equals,
        b'+' => Terminal::Plus,
        b'-' => Terminal::Minus,
        b'*' => Terminal::Star,
        b'/' => Terminal::Slash,
        b'[' => Terminal::OpenBracket,
        b']' => Terminal::CloseBracket,
        b'(' => Terminal::OpenGroup,
        _ => Terminal::CloseGroup,
    }
}

/// The terminal of a token of a text.
#[tactic(auto, unfolding(crate::specs::Terminals::terminal_of))]
#[inline(always)]
pub fn terminal_of(text: &[u8], token: Token) -> Terminal
    ensures { result ≡ terminal_of text.now token }
{
    match token.kind {
        TokenKind::Word => {
            let word = Word {
                start: token.start,
                end: token.end,
                rationals: false,
            };
            word_terminal(word.bytes(text), token.start, token.end)
        }
        TokenKind::Number(value) => Terminal::Number(Numeral {
            place: token.start,
            value,
        }),
        TokenKind::Mark(b) => mark_terminal(b),
    }
}
