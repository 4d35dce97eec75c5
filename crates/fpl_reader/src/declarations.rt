ghost use Rattle.std.specs.Prelude.{◌≡◌, IfOk, length, [], None};
ghost use Rattle.fpl_numbers.specs.Numbers.{is_listed};
ghost use Rattle.fpl_reader.specs.Reading.{field_twice, bad_prime, bad_weight_given, bad_weight, too_many, name_twice, early_refusal};

use crate::Reason;
use crate::survey::{DeclaredName, FieldName, FieldStatement, Survey};
use fpl_numbers::is_listed;
use fpl_syntax::Numeral;
use std::alloc::{AllocError, Global};
use std::collections::BTreeMap;

fn field_twice(fields: &[FieldStatement]) -> Option<usize>
    ensures { result ≡ field_twice fields.now }
{
    match fields {
        [_, second, ..] => Some(second.place),
        _ => None,
    }
}

fn bad_prime(fields: &[FieldStatement]) -> Option<usize>
    ensures { result ≡ bad_prime fields.now }
{
    match fields {
        [first, ..] => match first.name {
            FieldName::Rationals => None,
            FieldName::Prime(n) => {
                if is_listed(n.value) {
                    None
                } else {
                    Some(n.place)
                }
            }
        },
        _ => None,
    }
}

fn bad_weight_given(weight: Option<Numeral>) -> Option<usize>
    ensures { result ≡ bad_weight_given weight }
{
    match weight {
        None => None,
        Some(n) => {
            if 1 <= n.value && n.value <= 1000 {
                None
            } else {
                Some(n.place)
            }
        }
    }
}

fn bad_weight(names: &[DeclaredName]) -> Option<usize>
    ensures { result ≡ bad_weight names.now }
{
    for d in names {
        if let Some(place) = bad_weight_given(d.weight) {
            return Some(place);
        }
    }
    None
}

fn too_many(names: &[DeclaredName]) -> Option<usize>
    ensures { result ≡ too_many names.now }
{
    match names.get(64) {
        Some(d) => Some(d.word.start),
        None => None,
    }
}

fn name_twice(
    alloc: Global,
    text: &[u8],
    names: &[DeclaredName],
) -> Result<Option<usize>, AllocError>
    ensures { IfOk result (λ place. place ≡ name_twice text.now [] names.now) }
{
    let mut seen: BTreeMap<&[u8], ()> = BTreeMap::new(alloc);
    for d in names {
        if seen.insert(d.word.bytes(text), ())?.is_some() {
            return Ok(Some(d.word.start));
        }
    }
    Ok(None)
}

/// The first reason that the fields and the declarations give.
pub fn early_refusal(
    alloc: Global,
    text: &[u8],
    survey: &Survey,
) -> Result<Option<(usize, Reason)>, AllocError>
    ensures { IfOk result (λ r. r ≡ early_refusal text.now survey.now.fields survey.now.declared None) }
{
    let fields = survey.fields.as_slice();
    let names = survey.declared.as_slice();
    if fields.is_empty() {
        return Ok(Some((text.len(), Reason::NoField)));
    }
    if let Some(place) = field_twice(fields) {
        return Ok(Some((place, Reason::FieldTwice)));
    }
    if let Some(place) = bad_prime(fields) {
        return Ok(Some((place, Reason::BadPrime)));
    }
    if let Some(place) = name_twice(alloc, text, names)? {
        return Ok(Some((place, Reason::NameTwice)));
    }
    if let Some(place) = bad_weight(names) {
        return Ok(Some((place, Reason::BadWeight)));
    }
    match too_many(names) {
        Some(place) => Ok(Some((place, Reason::TooManyGenerators))),
        None => Ok(None),
    }
}
