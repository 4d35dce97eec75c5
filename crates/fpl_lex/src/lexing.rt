ghost use Rattle.std.specs.Prelude.{◌≡◌, ◌≤◌, ◌<◌, ◌+◌, ◌-◌, ◌^◌, ℕ, List, length, Result, IfOk};
ghost use Rattle.fpl_lex.specs.Cut.{Lexed, Reads};
ghost use Rattle.fpl_lex.specs.Machine.{class_of, with_digit, begun_by, ends_before, advance_of, lex_of, Gives, IsBefore, IsFinished, IsNext};

use crate::{LexError, Token, TokenKind, Tokens};
use std::alloc::Global;

// What finds the next token is inlined: modes and tokens are large, and a call hands them over in memory.

const MOST_NAME: usize = 32;
/// The greatest number that a text may write.
const MOST_NUMBER: u128 = 170141183460469231731687303715884105727;

/// What the bytes so far have begun and not ended, with its first byte.
#[derive(Clone, Copy, Debug, PartialEq, Eq)]
enum Mode {
    Between,
    InComment,
    InWord(usize),
    InNumber(usize, u128),
}

#[derive(Clone, Copy, Debug, PartialEq, Eq)]
enum Class {
    Letter,
    /// A digit, with its value.
    Digit(u8),
    Underscore,
    LineEnd,
    Blank,
    Hash,
    Mark,
    Other,
}

#[inline(always)]
fn class_of(b: u8) -> Class
    ensures { result ≡ class_of b }
{
    match b {
        b'A'..=b'Z' | b'a'..=b'z' => Class::Letter,
        b'0'..=b'9' => Class::Digit(b - b'0'),
        b'_' => Class::Underscore,
        b'\n' => Class::LineEnd,
        b'\t' | b'\r' | b' ' => Class::Blank,
        b'#' => Class::Hash,
        b';' | b',' | b':' | b'=' | b'+' | b'-' | b'*' | b'/' | b'[' | b']' | b'(' | b')' => {
            Class::Mark
        }
        _ => Class::Other,
    }
}

/// What a byte does.
#[derive(Clone, Copy, Debug, PartialEq, Eq)]
enum Advance {
    Into(Mode),
    /// A token ends before the byte, or with it.
    Ends(Token),
    Fault(LexError),
}

// What ends before this place: a token, or the text.
#[inline(always)]
fn finish(mode: Mode, at: usize) -> Result<Option<Token>, LexError>
    requires { IsBefore mode at }
    ensures { IsFinished mode at result }
{
    match mode {
        Mode::Between | Mode::InComment => Ok(None),
        Mode::InWord(start) => {
            if at - start > MOST_NAME {
                return Err(LexError::NameTooLong(start as u64));
            }
            Ok(Some(Token {
                start,
                end: at,
                kind: TokenKind::Word,
            }))
        }
        Mode::InNumber(start, n) => Ok(Some(Token {
            start,
            end: at,
            kind: TokenKind::Number(n),
        })),
    }
}

// What a byte begins.
#[inline(always)]
fn begin(at: usize, b: u8, class: Class) -> Advance
    requires { at < 2 ^ 64 - 1 }
    ensures { result ≡ begun_by at b class }
{
    match class {
        Class::Letter => Advance::Into(Mode::InWord(at)),
        Class::Digit(digit) => Advance::Into(Mode::InNumber(at, u128::from(digit))),
        Class::LineEnd | Class::Blank => Advance::Into(Mode::Between),
        Class::Hash => Advance::Into(Mode::InComment),
        Class::Mark => Advance::Ends(Token {
            start: at,
            end: at + 1,
            kind: TokenKind::Mark(b),
        }),
        Class::Underscore | Class::Other => Advance::Fault(LexError::BadByte(at as u64)),
    }
}

// The number with one more digit, where it is not too large.
fn with_digit(n: u128, digit: u8) -> Option<u128>
    ensures { result ≡ with_digit n digit }
{
    if n > MOST_NUMBER / 10 {
        return None;
    }
    let longer = 10 * n + u128::from(digit);
    if longer > MOST_NUMBER {
        return None;
    }
    Some(longer)
}

// What a byte does.
#[inline(always)]
fn take_byte(mode: Mode, at: usize, b: u8) -> Advance
    requires before { IsBefore mode at }
    requires fits { at < 2 ^ 64 - 1 }
    ensures { result ≡ advance_of mode at b (class_of b) }
{
    let class = class_of(b);
    match (mode, class) {
        (Mode::Between, _) => begin(at, b, class),
        (Mode::InComment, Class::LineEnd) => Advance::Into(Mode::Between),
        (Mode::InComment, _) => Advance::Into(Mode::InComment),
        (Mode::InWord(start), Class::Letter | Class::Digit(_) | Class::Underscore) => {
            Advance::Into(Mode::InWord(start))
        }
        (Mode::InNumber(start, n), Class::Digit(digit)) => match with_digit(n, digit) {
            Some(n) => Advance::Into(Mode::InNumber(start, n)),
            None => Advance::Fault(LexError::NumberTooLarge(start as u64)),
        },
        _ => end_before(mode, at),
    }
}

// A byte ends what was begun.
#[inline(always)]
fn end_before(mode: Mode, at: usize) -> Advance
    requires { IsBefore mode at }
    ensures { result ≡ ends_before mode at }
{
    match finish(mode, at) {
        Ok(Some(token)) => Advance::Ends(token),
        Ok(None) => Advance::Into(mode),
        Err(e) => Advance::Fault(e),
    }
}

/// The first token that begins at this place or after it, `None` where no more follow, or the first fault.
#[inline(always)]
pub fn next_token(text: &[u8], from: usize) -> Result<Option<Token>, LexError>
    requires { from ≤ length text.now }
    ensures { IsNext text.now from result }
{
    let mut mode = Mode::Between;
    for at in from..text.len() {
        match take_byte(mode, at, text[at]) {
            Advance::Into(next) => mode = next,
            Advance::Ends(token) => return Ok(Some(token)),
            Advance::Fault(e) => return Err(e),
        }
    }
    finish(mode, text.len())
}

fn lex(alloc: Global, text: &[u8]) -> Result<Tokens, LexError>
    ensures { Gives (λ ts. ts) result (lex_of text.now) }
{
    let mut tokens = Tokens::new(alloc);
    let mut at = 0;
    loop {
        match next_token(text, at) {
            Ok(Some(token)) => {
                at = token.end;
                tokens.push(token)?;
            }
            Ok(None) => return Ok(tokens),
            Err(e) => return Err(e),
        }
    }
}

/// The tokens of a text in their order, or the fault with the least place.
pub fn tokens(alloc: Global, text: &[u8]) -> Result<Tokens, LexError>
    ensures { Lexed text.now result }
{
    lex(alloc, text)
}

/// Each text has one reading.
pub fn one_reading()
    ensures some { (text : List ℕ) → (answer : Result (List Token) LexError) × Reads text answer }
    ensures one { (text : List ℕ) (a b : Result (List Token) LexError) → Reads text a → Reads text b → a ≡ b }
{}
