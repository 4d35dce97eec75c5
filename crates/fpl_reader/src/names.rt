ghost use Rattle.std.specs.Prelude.{◌≡◌, IsTrue, pos};
ghost use Rattle.fpl_numbers.specs.Numbers.{is_nought};
ghost use Rattle.fpl_numbers.specs.Quotients.{whole};
ghost use Rattle.fpl_syntax.specs.Kinds.{is_field};
ghost use Rattle.fpl_syntax.specs.Sight.{sight};
ghost use Rattle.fpl_reader.specs.Stream.{IsLexable};
ghost use Rattle.fpl_reader.specs.Texts.{text_events};
ghost use Rattle.fpl_reader.specs.Reading.{unknown_in, zero_in, first_place, unknown_if, zero_if};

use crate::stream::Stream;
use crate::survey::{Event, Track, note};
use crate::terminals::terminal_of;
use fpl_numbers::Kind;
use fpl_syntax::{Scope, number_of};

#[inline(always)]
fn unknown_in(scope: &Scope, event: Option<Event>) -> Option<usize>
    ensures { result ≡ unknown_if (sight scope.now) event }
{
    match event {
        Some(Event::Used(word)) => {
            if number_of(scope, word) == 0 {
                Some(word.start)
            } else {
                None
            }
        }
        _ => None,
    }
}

/// The place of the first name in an expression that no generator has.
pub fn unknown_name(scope: &Scope) -> Option<usize>
    requires { IsLexable scope.now.text.now 0 }
    ensures { result ≡ first_place (unknown_in (sight scope.now)) (text_events scope.now.text.now) }
{
    let mut stream = Stream::new(scope.text);
    let mut track = Track::Outside;
    while let Some(token) = stream.next() {
        let (event, next) = note(track, terminal_of(scope.text, token));
        if let Some(place) = unknown_in(scope, event) {
            return Some(place);
        }
        track = next;
    }
    None
}

fn is_zero_in(kind: Kind, d: u128) -> bool
    requires { IsTrue (is_field kind) }
    ensures { result ≡ is_nought (whole kind (pos d)) }
{
    match kind {
        Kind::Rational => d == 0,
        Kind::Prime(p) => d % u128::from(p) == 0,
    }
}

#[inline(always)]
fn zero_in(kind: Kind, event: Option<Event>) -> Option<usize>
    requires { IsTrue (is_field kind) }
    ensures { result ≡ zero_if kind event }
{
    match event {
        Some(Event::Divided(d)) => {
            if is_zero_in(kind, d.value) {
                Some(d.place)
            } else {
                None
            }
        }
        _ => None,
    }
}

/// The place of the first denominator that is 0 in the field.
pub fn zero_denominator(scope: &Scope) -> Option<usize>
    requires { IsLexable scope.now.text.now 0 }
    ensures { result ≡ first_place (zero_in scope.now.kind) (text_events scope.now.text.now) }
{
    let mut stream = Stream::new(scope.text);
    let mut track = Track::Outside;
    while let Some(token) = stream.next() {
        let (event, next) = note(track, terminal_of(scope.text, token));
        if let Some(place) = zero_in(scope.kind, event) {
            return Some(place);
        }
        track = next;
    }
    None
}
