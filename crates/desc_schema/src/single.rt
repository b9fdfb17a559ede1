ghost use Rattle.std.specs.Prelude.{◌≡◌, Ok, Err};
ghost use Rattle.vt_outside.specs.Readings.{Agrees};
ghost use Rattle.desc_schema.specs.Faults.{reported};
ghost use Rattle.toml.specs.View.{view};
ghost use Rattle.desc_schema.specs.declared.fault.WalkError.TheVariants as errors;
ghost use Rattle.desc_schema.specs.declared.fault.WalkFault.TheVariants as faults;
ghost use Rattle.desc_schema.specs.Form.{form_of, texts_of, default_of};
ghost use Rattle.desc_schema.specs.Single.{value_of, number_of, uuid_of, word_from, otherwise_of};

use crate::fault::{KeyPlace, WalkError, WalkFault};
use crate::schema::{Otherwise, Scalar};
use crate::value::Value;
use std::alloc::Global;
use uuid::Uuid;
use vt_outside::Text;

/// Returns `node` as what it is to be by `scalar`, or its fault at the key at `at`.
pub(crate) fn value_of(
    alloc: Global,
    at: KeyPlace,
    scalar: Scalar,
    node: &toml::Value,
) -> Result<Value, WalkError>
    ensures { Agrees reported (λ found. found) result (value_of at (form_of scalar) (view node.now)) }
{
    match scalar {
        Scalar::Text => match node.as_str() {
            Some(text) => Ok(Value::Text(text_of(alloc, text)?)),
            None => wrong_kind(at),
        },
        Scalar::Number(least, most) => match node.as_integer() {
            Some(integer) => number_of(at, least, most, integer),
            None => wrong_kind(at),
        },
        Scalar::Flag => match node.as_bool() {
            Some(flag) => Ok(Value::Flag(flag)),
            None => wrong_kind(at),
        },
        Scalar::Uuid => match node.as_str() {
            Some(text) => uuid_of(at, text),
            None => wrong_kind(at),
        },
        Scalar::Word(words) => match node.as_str() {
            Some(text) => word_of(at, words, text),
            None => wrong_kind(at),
        },
    }
}

/// Returns what stands for a key that is left out, or that it must be there.
pub(crate) fn otherwise_of(
    alloc: Global,
    at: KeyPlace,
    otherwise: Otherwise,
) -> Result<Value, WalkError>
    ensures { Agrees reported (λ found. found) result (otherwise_of at (default_of otherwise)) }
{
    match otherwise {
        Otherwise::Required => Err(WalkError::Fault(WalkFault::MissingKey(at))),
        Otherwise::Text(text) => Ok(Value::Text(text_of(alloc, text)?)),
        Otherwise::Number(number) => Ok(Value::Number(number)),
        Otherwise::Flag(flag) => Ok(Value::Flag(flag)),
        Otherwise::Word(place) => Ok(Value::Word(place)),
        Otherwise::Nothing => Ok(Value::Nothing),
        Otherwise::Empty => Ok(Value::Count(0)),
    }
}

/// Returns a text with the bytes of `string`.
pub(crate) fn text_of(alloc: Global, string: &str) -> Result<Text, WalkError>
    ensures { Agrees reported (λ text. text) result (Ok string.now) }
{
    let mut text = Text::new(alloc);
    text.extend(string.as_bytes())?;
    Ok(text)
}

fn number_of(at: KeyPlace, least: u64, most: u64, integer: i64) -> Result<Value, WalkError>
    ensures { Agrees reported (λ found. found) result (number_of at least most integer) }
{
    match u64::try_from(integer) {
        Ok(number) if least <= number && number <= most => Ok(Value::Number(number)),
        _ => out_of_range(at),
    }
}

fn uuid_of(at: KeyPlace, text: &str) -> Result<Value, WalkError>
    ensures { Agrees reported (λ found. found) result (uuid_of at text.now) }
{
    match Uuid::parse_str(text) {
        Ok(uuid) => Ok(Value::Uuid(uuid.as_u128())),
        Err(_) => out_of_range(at),
    }
}

fn word_of(at: KeyPlace, words: &[&str], text: &str) -> Result<Value, WalkError>
    ensures { Agrees reported (λ found. found) result (word_from at 0 (texts_of words.now) text.now) }
{
    let mut place = 0;
    while place < words.len() {
        if *words[place] == *text {
            return Ok(Value::Word(place));
        }
        place += 1;
    }
    out_of_range(at)
}

fn wrong_kind(at: KeyPlace) -> Result<Value, WalkError>
    ensures { result ≡ Err (errors.Fault (faults.WrongKind at)) }
{
    Err(WalkError::Fault(WalkFault::WrongKind(at)))
}

fn out_of_range(at: KeyPlace) -> Result<Value, WalkError>
    ensures { result ≡ Err (errors.Fault (faults.OutOfRange at)) }
{
    Err(WalkError::Fault(WalkFault::OutOfRange(at)))
}
