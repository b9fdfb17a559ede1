use crate::value::Value;

/// Describes a command's words: its name, the operands and the options that may stand behind it, and what its help says.
#[derive(Clone, Copy, Debug)]
pub struct CommandSchema {
    /// Gives the command's name, which is its first word.
    pub name: &'static str,
    /// Lists the operands, in the order in which they stand behind the name. Each must be there.
    pub operands: &'static [OperandSchema],
    /// Lists the options, in the order of their values. Their names differ.
    pub options: &'static [OptionSchema],
    /// Lists the pairs of options of which at most one may be given.
    pub exclusive: &'static [Exclusive],
    /// Lists the pairs of options of which the first may be given only with the second.
    pub needs: &'static [Need],
    /// Names what the command reads, in capitals; nothing where it reads nothing.
    pub input: &'static str,
    /// Names what the command writes, in capitals.
    pub output: &'static str,
    /// Says what the command does, for its help.
    pub about: &'static str,
}

/// Describes an operand: what its word is to be, and what its help says.
#[derive(Clone, Copy, Debug)]
pub struct OperandSchema {
    /// Says what the word is to be.
    pub form: Form,
    /// Names the word in the help.
    pub placeholder: &'static str,
    /// Says what the operand means, for the help.
    pub about: &'static str,
}

/// Describes an option: its name, how it is given, what it says where it isn't given, and what its help says.
#[derive(Clone, Copy, Debug)]
pub struct OptionSchema {
    /// Gives the name, which is the option's first word.
    pub name: &'static str,
    /// Says whether a value stands behind the name, and which.
    pub kind: Kind,
    /// Gives the value where the option isn't given: of a flag `Flag(false)`. Without it the option must be given.
    pub default: Option<Value>,
    /// Names the value in the help; a flag has none.
    pub placeholder: &'static str,
    /// Says what the option means, for the help.
    pub about: &'static str,
}

/// Names two options of which at most one may be given.
#[derive(Clone, Copy, Debug)]
pub struct Exclusive {
    /// Gives the name of the one.
    pub one: &'static str,
    /// Gives the name of the other.
    pub other: &'static str,
}

/// Names an option that may be given only with another, and this other.
#[derive(Clone, Copy, Debug)]
pub struct Need {
    /// Gives the name of the one that needs the other.
    pub one: &'static str,
    /// Gives the name of the other.
    pub other: &'static str,
}

/// Says how an option is given.
#[derive(Clone, Copy, Debug)]
pub enum Kind {
    /// By its name alone.
    Flag,
    /// By its name and, as the next word, a value of this form.
    Valued(Form),
}

/// Says what a word is to be that says a value.
#[derive(Clone, Copy, Debug)]
pub enum Form {
    /// The two lower-case hexadecimal digits of a byte.
    Byte,
    /// The decimal digits of a number from the first number to the second, both included.
    Number(u64, u64),
    /// One of these words, which differ.
    Word(&'static [&'static str]),
}
