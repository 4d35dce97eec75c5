ghost use Rattle.std.specs.Prelude.{◌≡◌, ◌≤◌, ◌<◌, ◌^◌, length, MatchOption};
ghost use Rattle.fpl_lex.specs.Machine.{lex_of};
ghost use Rattle.std.specs.Prelude.{Err};
ghost use Rattle.fpl_reader.specs.Stream.{IsLexable};
ghost use Rattle.fpl_reader.specs.Texts.{text_tokens};
ghost use Rattle.fpl_reader.specs.Reading.{opens, closes, too_deep};

use crate::stream::Stream;
use fpl_lex::{LexError, TokenKind, next_token};

const DEEPEST: u64 = 64;

/// The first lexical fault of a text.
pub fn lexical_fault(text: &[u8]) -> Option<LexError>
    ensures { MatchOption result (IsLexable text.now 0) (λ e. lex_of text.now ≡ Err e) }
{
    let mut at = 0;
    loop {
        match next_token(text, at) {
            Ok(Some(token)) => at = token.end,
            Ok(None) => return None,
            Err(e) => return Some(e),
        }
    }
}

#[inline(always)]
fn opens(kind: TokenKind) -> u64
    ensures value { result ≡ opens kind }
    ensures small { result ≤ 1 }
{
    match kind {
        TokenKind::Mark(b'[' | b'(') => 1,
        _ => 0,
    }
}

#[inline(always)]
fn closes(kind: TokenKind) -> u64
    ensures value { result ≡ closes kind }
    ensures small { result ≤ 1 }
{
    match kind {
        TokenKind::Mark(b']' | b')') => 1,
        _ => 0,
    }
}

/// The place of the first token with which more than 64 marks are opened and not closed.
pub fn depth_fault(text: &[u8]) -> Option<usize>
    requires lexable { IsLexable text.now 0 }
    requires few { length (text_tokens text.now) < 2 ^ 32 }
    ensures { result ≡ too_deep 0 0 (text_tokens text.now) }
{
    let mut opened = 0;
    let mut closed = 0;
    let mut stream = Stream::new(text);
    while let Some(token) = stream.next() {
        opened += opens(token.kind);
        closed += closes(token.kind);
        if opened > closed + DEEPEST {
            return Some(token.start);
        }
    }
    None
}
