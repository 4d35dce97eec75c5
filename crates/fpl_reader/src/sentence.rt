ghost use Rattle.std.specs.Prelude.{◌≡◌, ◌<◌, ◌^◌, ℕ, length, Ok, Err, IfOk, IfErr, MatchOption};
ghost use Rattle.fpl_syntax.specs.Machine.{ended, parse_of};
ghost use Rattle.fpl_syntax.specs.Sight.{sight};
ghost use Rattle.fpl_reader.specs.Stream.{IsLexable};
ghost use Rattle.fpl_reader.specs.Texts.{text_tokens, text_terminals};
ghost use Rattle.fpl_reader.specs.Sentence.{FailsAt};

use crate::stream::Stream;
use crate::terminals::terminal_of;
use crate::{ReaderError, Reason};
use fpl_syntax::{Claim, Scope, State, step_state};
use std::alloc::Global;

fn syntax(place: usize, k: u64) -> ReaderError
    ensures { result ≡ ReaderError.Refused place (Reason.Syntax k) }
{
    ReaderError::Refused {
        place: place as u64,
        reason: Reason::Syntax(k),
    }
}

// The claims, where a sentence may end here.
fn complete(claims: Vec<Claim>, state: State) -> Option<Vec<Claim>>
    ensures { (k : ℕ) → MatchOption result (ended claims.items state k ≡ Err k) (λ all. ended claims.items state k ≡ Ok all.items) }
{
    match state {
        State::Statement => Some(claims),
        _ => None,
    }
}

/// The claims of a text, or the first token with which it begins no sentence.
pub fn parse_text(alloc: Global, scope: &Scope) -> Result<Vec<Claim>, ReaderError>
    requires lexable { IsLexable scope.now.text.now 0 }
    requires few { length (text_tokens scope.now.text.now) < 2 ^ 32 }
    ensures claims { IfOk result (λ claims. parse_of (sight scope.now) (text_terminals scope.now.text.now) ≡ Ok claims.items) }
    ensures fault { IfErr result (λ e. FailsAt scope.now.text.now e (parse_of (sight scope.now) (text_terminals scope.now.text.now))) }
{
    let mut stream = Stream::new(scope.text);
    let mut claims = Vec::new(alloc);
    let mut state = State::Statement;
    let mut k = 1;
    while let Some(token) = stream.next() {
        match step_state(
            alloc,
            scope,
            &mut claims,
            state,
            terminal_of(scope.text, token),
        ) {
            Ok(Some(next)) => state = next,
            Ok(None) => return Err(syntax(token.start, k)),
            Err(_) => return Err(ReaderError::NoMemory),
        }
        k += 1;
    }
    match complete(claims, state) {
        Some(claims) => Ok(claims),
        None => Err(syntax(scope.text.len(), k)),
    }
}
