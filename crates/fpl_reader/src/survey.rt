ghost use Rattle.std.specs.Prelude.{◌≡◌, ◌++◌, OnOk, IfOk};
ghost use Rattle.fpl_reader.specs.Events.{fields_in, declared_in};
ghost use Rattle.fpl_reader.specs.Stream.{IsLexable};
ghost use Rattle.fpl_reader.specs.Texts.{text_events};
ghost use Rattle.fpl_reader.specs.Scan.{note, event_list, named_field, some_declared};

use crate::stream::Stream;
use crate::terminals::terminal_of;
use fpl_model::Parity;
use fpl_syntax::{Numeral, Terminal, Word};
use sqlite_items::Items;
use std::alloc::{AllocError, Global};

/// The field of a field statement.
#[derive(Clone, Copy, Debug, PartialEq, Eq)]
pub enum FieldName {
    Rationals,
    Prime(Numeral),
}

/// A field statement, with the place of its first word.
#[derive(Clone, Copy, Debug, PartialEq, Eq)]
pub struct FieldStatement {
    pub place: usize,
    pub name: FieldName,
}

/// A declared name, with its weight where one is given.
#[derive(Clone, Copy, Debug, PartialEq, Eq)]
pub struct DeclaredName {
    pub word: Word,
    pub parity: Parity,
    pub weight: Option<Numeral>,
}

/// What stands in a sentence.
#[derive(Clone, Copy, Debug, PartialEq, Eq)]
pub enum Event {
    FieldNamed(FieldStatement),
    Declared(DeclaredName),
    /// A name in an expression.
    Used(Word),
    /// A denominator.
    Divided(Numeral),
}

/// Where in a sentence a terminal stands.
#[derive(Clone, Copy, Debug, PartialEq, Eq)]
pub enum Track {
    Outside,
    InField(usize),
    Declaring(Parity),
    Named(Parity, Word, Option<Numeral>),
    InClaim,
    AfterSlash,
}

/// What a terminal is, and where the next one stands. Inlined, since the answer is large.
#[inline(always)]
pub fn note(track: Track, terminal: Terminal) -> (Option<Event>, Track)
    ensures { (result.0, result.1) ≡ note track terminal }
{
    match (track, terminal) {
        (Track::Outside, Terminal::Field(place)) => (None, Track::InField(place)),
        (Track::Outside, Terminal::Declare(parity)) => (None, Track::Declaring(parity)),
        (Track::Outside, Terminal::Claim(_, _)) => (None, Track::InClaim),
        (Track::InField(place), Terminal::Name(_)) => named(place, FieldName::Rationals),
        (Track::InField(place), Terminal::Number(n)) => named(place, FieldName::Prime(n)),
        (Track::Declaring(parity), Terminal::Name(word)) => (
            None,
            Track::Named(parity, word, None),
        ),
        (Track::Named(parity, word, _), Terminal::Number(n)) => {
            (None, Track::Named(parity, word, Some(n)))
        }
        (Track::Named(parity, word, weight), Terminal::Comma) => {
            (declared(parity, word, weight), Track::Declaring(parity))
        }
        (Track::Named(parity, word, weight), Terminal::Semicolon) => {
            (declared(parity, word, weight), Track::Outside)
        }
        (Track::Named(_, _, _), _) => (None, track),
        (Track::InClaim, Terminal::Name(word)) => (Some(Event::Used(word)), Track::InClaim),
        (Track::InClaim, Terminal::Slash) => (None, Track::AfterSlash),
        (Track::InClaim, Terminal::Semicolon) => (None, Track::Outside),
        (Track::InClaim, _) => (None, Track::InClaim),
        (Track::AfterSlash, Terminal::Number(d)) => (Some(Event::Divided(d)), Track::InClaim),
        (Track::AfterSlash, _) => (None, Track::InClaim),
        _ => (None, Track::Outside),
    }
}

#[inline(always)]
fn named(place: usize, name: FieldName) -> (Option<Event>, Track)
    ensures { (result.0, result.1) ≡ named_field place name }
{
    let field = FieldStatement { place, name };
    (Some(Event::FieldNamed(field)), Track::Outside)
}

#[inline(always)]
fn declared(parity: Parity, word: Word, weight: Option<Numeral>) -> Option<Event>
    ensures { result ≡ some_declared word parity weight }
{
    Some(Event::Declared(DeclaredName {
        word,
        parity,
        weight,
    }))
}

/// The field statements and the declarations of a text.
#[derive(Drop)]
pub struct Survey {
    pub fields: Items<FieldStatement>,
    pub declared: Items<DeclaredName>,
}

#[inline(always)]
fn record(event: Option<Event>, survey: &mut Survey) -> Result<(), AllocError>
    ensures fields { OnOk result (survey.new.fields ≡ survey.old.fields ++ fields_in (event_list event)) }
    ensures declared { OnOk result (survey.new.declared ≡ survey.old.declared ++ declared_in (event_list event)) }
{
    match event {
        Some(Event::FieldNamed(field)) => survey.fields.push(field),
        Some(Event::Declared(name)) => survey.declared.push(name),
        _ => Ok(()),
    }
}

/// The field statements and the declarations of a text without lexical faults.
pub fn survey_of(alloc: Global, text: &[u8]) -> Result<Survey, AllocError>
    requires { IsLexable text.now 0 }
    ensures fields { IfOk result (λ s. s.fields ≡ fields_in (text_events text.now)) }
    ensures declared { IfOk result (λ s. s.declared ≡ declared_in (text_events text.now)) }
{
    let mut survey = Survey {
        fields: Items::new(alloc),
        declared: Items::new(alloc),
    };
    let mut stream = Stream::new(text);
    let mut track = Track::Outside;
    while let Some(token) = stream.next() {
        let (event, next) = note(track, terminal_of(text, token));
        record(event, &mut survey)?;
        track = next;
    }
    Ok(survey)
}
