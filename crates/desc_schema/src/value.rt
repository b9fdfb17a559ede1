ghost use Rattle.std.specs.Prelude.{◌≡◌, [], ◌∷◌, ◌++◌, length, OnOk, OnErr};
ghost use Rattle.desc_schema.specs.Taken.{first, rest};

use std::alloc::Global;
use std::collections::VecDeque;
use std::marker::Model;
use vt_outside::{OutOfMemory, Text};

/// Holds one of the values that a walk gives.
#[derive(Debug, Drop)]
pub enum Value {
    /// A text's bytes.
    Text(Text),
    /// An integer.
    Number(u64),
    /// A boolean.
    Flag(bool),
    /// The 16 bytes of a UUID as one number, the first byte the highest (RFC 9562, section 4).
    Uuid(u128),
    /// A word, as its place among the words of its key, counted from 0.
    Word(usize),
    /// Nothing: an optional key was left out.
    Nothing,
    /// How many tables, or single values, follow.
    Count(usize),
}

/// Holds values in order, of which the first is taken out. Contracts see the list of them.
#[derive(Debug, Drop)]
pub struct Values {
    values: VecDeque<Value>,
}

impl Model for Values {
    ghost use Rattle.std.specs.Prelude.{List};
    ghost use Rattle.desc_schema.specs.declared.value.Value.{Value as AValue};

    ghost Value = { List AValue };

    ghost view = { λ v. v.values.items };
}

impl Values {
    /// Makes an empty list, which will take its memory from `alloc`. It takes none yet, so it can't fail.
    pub fn new(alloc: Global) -> Values
        ensures { result ≡ [] }
    {
        Values {
            values: VecDeque::new(alloc),
        }
    }

    /// Adds `value` at the end. On `OutOfMemory` it isn't added, and the list is what it was.
    pub fn push(&mut self, value: Value) -> Result<(), OutOfMemory>
        ensures ok { OnOk result (self.new ≡ self.old ++ value ∷ []) }
        ensures err { OnErr result (self.new ≡ self.old) }
    {
        self.values.push_back(value)?;
        Ok(())
    }

    /// Returns the number of values.
    pub fn len(&self) -> usize
        ensures { result ≡ length self.now }
    {
        self.values.len()
    }

    /// Takes the first value out and returns it, or `Value::Nothing` where none is left.
    pub fn take_first(&mut self) -> Value
        ensures first { result ≡ first self.old }
        ensures rest { self.new ≡ rest self.old }
    {
        self.values.pop_front().unwrap_or(Value::Nothing)
    }
}
