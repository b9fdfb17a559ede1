ghost use Rattle.std.specs.Prelude.{◌≡◌};
ghost use Rattle.word_schema.specs.Forms.{form_of, texts_of};
ghost use Rattle.word_schema.specs.Given.{place_of, value_of};

use crate::numbers::{byte_of, number_within};
use crate::schema::Form;
use crate::value::Value;

// The value that `word` says.
pub(crate) fn value_of(form: Form, word: &str) -> Option<Value>
    ensures { result ≡ value_of (form_of form) word.now }
{
    match form {
        Form::Byte => Some(Value::Number(byte_of(word)? as u64)),
        Form::Number(least, most) => Some(Value::Number(number_within(least, most, word)?)),
        Form::Word(words) => Some(Value::Word(place_of(word, words)?)),
    }
}

// The place of `word` among `words`, the first where it stands there twice.
fn place_of(word: &str, words: &[&str]) -> Option<usize>
    ensures { result ≡ place_of word.now (texts_of words.now) }
{
    words.iter().position(|other| word == *other)
}
