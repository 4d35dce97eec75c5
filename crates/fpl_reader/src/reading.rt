ghost use Rattle.std.specs.Prelude.{◌≡◌, ◌<◌, ◌≤◌, ◌^◌, None, Some, IfOk, length, map};
ghost use Rattle.std.specs.Str.{IsUtf8};
ghost use Rattle.std.specs.Prelude.{ℕ, List, ◌⊎◌};
ghost use Rattle.fpl_model.specs.declared.presentation.Presentation.{Presentation as Presented};
ghost use Rattle.fpl_reader.specs.declared.fault.Reason.{Reason as Refusal};
ghost use Rattle.fpl_reader.specs.Reading.{HasPresentation, IsRefused};
ghost use Rattle.std.specs.Prelude.{IsTrue, All};
ghost use Rattle.fpl_numbers.specs.Numbers.{is_listed};
ghost use Rattle.fpl_reader.specs.Events.{fields_in, declared_in};
ghost use Rattle.fpl_reader.specs.Stream.{IsLexable};
ghost use Rattle.fpl_reader.specs.Texts.{text_tokens, text_events};
ghost use Rattle.fpl_model.specs.Sound.{HaveWeights, IsSound};
ghost use Rattle.fpl_syntax.specs.Sight.{sight};
ghost use Rattle.fpl_reader.specs.Terms.{AreSidesTerms};
ghost use Rattle.fpl_reader.specs.Answers.{IsLexicalRefusal, IsRefusal, bare_of};
ghost use Rattle.fpl_reader.specs.Reading.{late_refusal, first_place, unknown_in, Read, weight_or_one, name_of, generator_of, kind_of, bad_prime, bad_weight_given, bad_weight, early_refusal, too_deep};

use crate::claims::{bare, mixed_parity, mixed_weight, with_claims};
use crate::declarations::early_refusal;
use crate::names::{unknown_name, zero_denominator};
use crate::sentence::parse_text;
use crate::survey::{DeclaredName, FieldName, FieldStatement, Survey, survey_of};
use crate::tokens::{depth_fault, lexical_fault};
use crate::{ReaderError, Reason};
use fpl_lex::LexError;
use fpl_model::{Generator, Generators, Name, Presentation};
use fpl_numbers::{Kind, PRIMES};
use fpl_syntax::{Claim, Numeral, Scope, minus_one};
use sqlite_items::Items;
use std::alloc::{AllocError, Global};

fn weight_or_one(weight: Option<Numeral>) -> u32
    requires { bad_weight_given weight ≡ None }
    ensures { result ≡ weight_or_one weight }
{
    match weight {
        None => 1,
        Some(n) => n.value as u32,
    }
}

// The generator that a name declares.
fn generator(alloc: Global, text: &[u8], d: &DeclaredName) -> Result<Generator, AllocError>
    requires text { IsUtf8 (name_of text.now d.now) }
    requires weight { bad_weight_given d.now.weight ≡ None }
    ensures { IfOk result (λ g. g ≡ generator_of text.now d.now) }
{
    let name = std::str::from_utf8(d.word.bytes(text)).unwrap();
    Ok(Generator {
        name: Name::of_text(alloc, name)?,
        parity: d.parity,
        weight: weight_or_one(d.weight),
    })
}

fn generators(alloc: Global, text: &[u8], names: &[DeclaredName]) -> Result<Generators, AllocError>
    requires texts { All (λ d. IsUtf8 (name_of text.now d)) names.now }
    requires weights { bad_weight names.now ≡ None }
    ensures { IfOk result (λ gs. gs ≡ map (generator_of text.now) names.now) }
{
    let mut all = Items::new(alloc);
    for d in names {
        all.push(generator(alloc, text, d)?)?;
    }
    Ok(all)
}

fn prime(p: u128) -> Kind
    requires { IsTrue (is_listed p) }
    ensures { result ≡ Kind.Prime p }
{
    Kind::Prime(p as u32)
}

fn kind_of(fields: &[FieldStatement]) -> Kind
    requires { bad_prime fields.now ≡ None }
    ensures { result ≡ kind_of fields.now }
{
    match fields {
        [first, ..] => match first.name {
            FieldName::Rationals => Kind::Rational,
            FieldName::Prime(n) => prime(n.value),
        },
        _ => Kind::Rational,
    }
}

fn refused(place: usize, reason: Reason) -> ReaderError
    ensures { result ≡ ReaderError.Refused place reason }
{
    ReaderError::Refused {
        place: place as u64,
        reason,
    }
}

fn lexical_refusal(e: LexError) -> ReaderError
    ensures { IsLexicalRefusal e result }
{
    match e {
        LexError::BadByte(place) => ReaderError::Refused {
            place,
            reason: Reason::BadByte,
        },
        LexError::NumberTooLarge(place) => ReaderError::Refused {
            place,
            reason: Reason::NumberTooLarge,
        },
        LexError::NameTooLong(place) => ReaderError::Refused {
            place,
            reason: Reason::NameTooLong,
        },
        LexError::NoMemory => ReaderError::NoMemory,
    }
}

// A text that is refused for its fields or declarations, unless it is no sentence.
fn refuse_sentence(alloc: Global, text: &[u8], place: usize, reason: Reason) -> ReaderError
    requires lexable { IsLexable text.now 0 }
    requires few { length (text_tokens text.now) < 2 ^ 32 }
    requires shallow { too_deep 0 0 (text_tokens text.now) ≡ None }
    requires early { early_refusal text.now (fields_in (text_events text.now)) (declared_in (text_events text.now)) None ≡ Some (place, reason) }
    ensures { IsRefusal text.now result }
{
    let Ok(minus_one) = minus_one(alloc, Kind::Rational) else {
        return ReaderError::NoMemory;
    };
    let scope = Scope {
        kind: Kind::Rational,
        text,
        generators: &[],
        minus_one: &minus_one,
    };
    match parse_text(alloc, &scope) {
        Ok(_) => refused(place, reason),
        Err(e) => e,
    }
}

// The first reason that the expressions give.
fn late_refusal(scope: &Scope, p: &Presentation, claims: &[Claim]) -> Option<(usize, Reason)>
    requires lexable { IsLexable scope.now.text.now 0 }
    requires weights { HaveWeights p.now.generators }
    requires terms { first_place (unknown_in (sight scope.now)) (text_events scope.now.text.now) ≡ None →
        All (AreSidesTerms p.now.field (length p.now.generators)) claims.now }
    ensures { result ≡ late_refusal (sight scope.now) (text_events scope.now.text.now) p.now claims.now }
{
    if let Some(place) = unknown_name(scope) {
        return Some((place, Reason::UnknownName));
    }
    if let Some(place) = zero_denominator(scope) {
        return Some((place, Reason::ZeroDenominator));
    }
    if let Some(place) = mixed_weight(p, claims) {
        return Some((place, Reason::MixedWeight));
    }
    match mixed_parity(p, claims) {
        Some(place) => Some((place, Reason::MixedParity)),
        None => None,
    }
}

// The presentation of a text whose fields and declarations are allowed, from its field and generators.
fn read_sentence(alloc: Global, text: &[u8], p: Presentation) -> Result<Presentation, ReaderError>
    requires lexable { IsLexable text.now 0 }
    requires few { length (text_tokens text.now) < 2 ^ 32 }
    requires shallow { too_deep 0 0 (text_tokens text.now) ≡ None }
    requires early { early_refusal text.now (fields_in (text_events text.now)) (declared_in (text_events text.now)) None ≡ None }
    requires bare { p ≡ bare_of text.now }
    ensures { Read text.now result }
{
    let minus_one = minus_one(alloc, p.field)?;
    let scope = Scope {
        kind: p.field,
        text,
        generators: p.generators.as_slice(),
        minus_one: &minus_one,
    };
    let claims = parse_text(alloc, &scope)?;
    if let Some((place, reason)) = late_refusal(&scope, &p, claims.as_slice()) {
        return Err(refused(place, reason));
    }
    match with_claims(p, claims) {
        Ok(p) => Ok(p),
        Err(_) => Err(ReaderError::NoMemory),
    }
}

fn read_text(alloc: Global, text: &[u8]) -> Result<Presentation, ReaderError>
    requires { length text.now < 2 ^ 32 }
    ensures { Read text.now result }
{
    if let Some(e) = lexical_fault(text) {
        return Err(lexical_refusal(e));
    }
    if let Some(place) = depth_fault(text) {
        return Err(refused(place, Reason::TooDeep));
    }
    let survey = survey_of(alloc, text)?;
    if let Some((place, reason)) = early_refusal(alloc, text, &survey)? {
        return Err(refuse_sentence(alloc, text, place, reason));
    }
    let Survey { fields, declared } = survey;
    let generators = generators(alloc, text, declared.as_slice())?;
    read_sentence(
        alloc,
        text,
        bare(alloc, kind_of(fields.as_slice()), generators),
    )
}

/// The presentation that a text is, which is sound. `Refused` comes exactly where it is none.
pub fn read(alloc: Global, text: &[u8]) -> Result<Presentation, ReaderError>
    requires { length text.now < 2 ^ 32 }
    ensures read { Read text.now result }
    ensures sound { IfOk result (λ p. IsSound p) }
{
    read_text(alloc, text)
}

/// A text is one presentation, or has one refusal, and not both.
pub fn one_answer()
    ensures presentation { (text : List ℕ) (p q : Presented) → HasPresentation text p → HasPresentation text q → p ≡ q }
    ensures refusal { (text : List ℕ) (a b : ℕ) (v w : Refusal) → IsRefused text a v → IsRefused text b w → (a ≡ b) × (v ≡ w) }
    ensures apart { (text : List ℕ) (p : Presented) (place : ℕ) (why : Refusal) → HasPresentation text p → IsRefused text place why → ⊥ }
    ensures some { (text : List ℕ) → ((p : Presented) × HasPresentation text p) ⊎ ((place : ℕ) × (why : Refusal) × IsRefused text place why) }
{}
