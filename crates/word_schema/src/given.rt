ghost use Rattle.std.specs.Prelude.{◌≡◌, ◌≤◌, ◌∷◌, map, length, string_bytes, option_map, IfSome, MatchOption, None, Some};
ghost use Rattle.std.specs.Option.{option_and_then};
ghost use Rattle.word_schema.specs.Forms.{needs_of, pairs_of, row_of, rows_of};
ghost use Rattle.word_schema.specs.Given.{are_compatible, given_by, have_what_they_need, is_given, option_value, option_values, row_named, with_given};
ghost use Rattle.word_schema.specs.Steps.{options_given};

use crate::schema::{Exclusive, Kind, Need, OptionSchema};
use crate::single::value_of;
use crate::value::{MOST_VALUES, Value};
use arrayvec::ArrayVec;

// An option as it is given.
#[derive(Clone, Copy)]
pub(crate) struct Given {
    pub name: &'static str,
    pub value: Value,
}

impl Default for Given {
    fn default() -> Given {
        Given {
            name: "",
            value: Value::default(),
        }
    }
}

// The options that `words` are. None where they are none of these options, and where so many are given that one of them is given twice.
pub(crate) fn given_by(
    options: &[OptionSchema],
    words: &[String],
) -> Option<ArrayVec<Given, MOST_VALUES>>
    requires { length options.now ≤ 16 }
    ensures some { IfSome result (λ given. given_by (rows_of options.now) (map string_bytes words.now) ≡ Some (options_given given.items)) }
    ensures none { result ≡ None
        → option_and_then (option_values (rows_of options.now)) (given_by (rows_of options.now) (map string_bytes words.now)) ≡ None }
{
    let mut given = ArrayVec::new();
    let mut rest = words;
    while let Some((name, after)) = rest.split_first() {
        let (option, behind) = first_given(options, name.as_str(), after)?;
        given.try_push(option).ok()?;
        rest = behind;
    }
    Some(given)
}

// The option whose name stands in front, and the words behind it.
fn first_given<'a>(
    options: &[OptionSchema],
    name: &str,
    words: &'a [String],
) -> Option<(Given, &'a [String])>
    ensures option { MatchOption result (given_by (rows_of options.now) (name.now ∷ map string_bytes words.now) ≡ None)
        (λ found. given_by (rows_of options.now) (name.now ∷ map string_bytes words.now)
        ≡ with_given found.0.name.now found.0.value (given_by (rows_of options.now) (map string_bytes found.1.now))) }
    ensures behind { IfSome result (λ found. length found.1.now ≤ length words.now) }
{
    let option = row_named(name, options)?;
    match option.kind {
        Kind::Flag => Some((
            Given {
                name: option.name,
                value: Value::Flag(true),
            },
            words,
        )),
        Kind::Valued(form) => {
            let (word, behind) = words.split_first()?;
            let value = value_of(form, word.as_str())?;
            Some((
                Given {
                    name: option.name,
                    value,
                },
                behind,
            ))
        }
    }
}

// The option of this name, the first where two have it.
fn row_named(name: &str, options: &[OptionSchema]) -> Option<OptionSchema>
    ensures { option_map row_of result ≡ row_named name.now (rows_of options.now) }
{
    options.iter().find(|option| option.name == name).copied()
}

// Whether the option of this name is given.
fn is_given(name: &str, given: &[Given]) -> bool
    ensures { result ≡ is_given name.now (options_given given.now) }
{
    given.iter().any(|option| option.name == name)
}

// Whether no two options are given that exclude each other.
pub(crate) fn are_compatible(exclusive: &[Exclusive], given: &[Given]) -> bool
    ensures { result ≡ are_compatible (pairs_of exclusive.now) (options_given given.now) }
{
    exclusive.iter().all(|pair| !(is_given(pair.one, given) && is_given(pair.other, given)))
}

// Whether each option that is given, and needs another, is given with it.
pub(crate) fn have_what_they_need(needs: &[Need], given: &[Given]) -> bool
    ensures { result ≡ have_what_they_need (needs_of needs.now) (options_given given.now) }
{
    needs.iter().all(|need| !is_given(need.one, given) || is_given(need.other, given))
}

// What the option says: None where it is given twice, or where it must be given and isn't.
pub(crate) fn option_value(option: &OptionSchema, given: &[Given]) -> Option<Value>
    ensures { result ≡ option_value (row_of option.now) (options_given given.now) }
{
    let mut found = None;
    for other in given {
        if other.name == option.name {
            if found.is_some() {
                return None;
            }
            found = Some(other.value);
        }
    }
    found.or(option.default)
}
