ghost use Rattle.std.specs.Prelude.{◌≡◌, ◌<◌, [], ◌∷◌, ◌++◌, length};
ghost use Rattle.word_schema.specs.Taken.{first, rest};

use arrayvec::ArrayVec;
use std::marker::Model;

/// Holds what an operand or an option says.
#[derive(Clone, Copy, Debug, PartialEq, Eq)]
pub enum Value {
    /// Whether a flag is given.
    Flag(bool),
    /// A number, or a byte.
    Number(u64),
    /// A word, as its place among the words of its set, counted from 0.
    Word(usize),
}

impl Default for Value {
    fn default() -> Value {
        Value::Flag(false)
    }
}

// The greatest number of operands and options that a command may have.
pub(crate) const MOST_VALUES: usize = 16;

/// Holds values in order, of which the first is taken out. Contracts see the list of them. It takes no memory.
#[derive(Debug, Drop)]
pub struct Values {
    values: ArrayVec<Value, MOST_VALUES>,
}

impl Model for Values {
    ghost use Rattle.std.specs.Prelude.{List};
    ghost use Rattle.word_schema.specs.declared.value.Value.{Value as AValue};

    ghost Value = { List AValue };

    ghost view = { λ v. v.values.items };
}

impl Values {
    // No values.
    pub(crate) fn none() -> Values
        ensures { result ≡ [] }
    {
        Values {
            values: ArrayVec::new(),
        }
    }

    // Adds `value` at the end.
    pub(crate) fn push(&mut self, value: Value)
        requires { length self.old < 16 }
        ensures { self.new ≡ self.old ++ value ∷ [] }
    {
        self.values.push(value);
    }

    /// Takes the first value out and returns it, or `Value::Flag(false)` where none is left.
    pub fn take_first(&mut self) -> Value
        ensures first { result ≡ first self.old }
        ensures rest { self.new ≡ rest self.old }
    {
        self.values.pop_at(0).unwrap_or(Value::Flag(false))
    }
}
