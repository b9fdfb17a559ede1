ghost use Rattle.std.specs.Prelude.{◌≡◌};
ghost use Rattle.aml_terms.specs.Opcodes.{opcode_of, IsNarrow};

/// What the first byte of a term or a value says (ACPI 6.5, 20.3).
#[derive(Clone, Copy, Debug, PartialEq, Eq)]
pub enum Opcode {
    /// The integer 0 or 1, which is the byte.
    Constant,
    /// An integer of so many bytes.
    Integer(usize),
    /// The integer of ones.
    Ones,
    /// A text.
    Chars,
    /// A buffer.
    Buffer,
    /// A package.
    Package,
    /// A name.
    Name,
    /// A scope.
    Scope,
    /// A second byte tells what it is.
    Extended,
    /// Nothing of the grammar.
    Other,
}

impl Opcode {
    /// Returns what `byte` says where a term or a value begins.
    #[tactic(auto, unfolding(crate::specs::Opcodes::opcode_of))]
    pub fn of(byte: u8) -> Opcode
        ensures opcode { result ≡ opcode_of byte }
        ensures narrow { IsNarrow result }
    {
        match byte {
            0x00 | 0x01 => Opcode::Constant,
            0x0A => Opcode::Integer(1),
            0x0B => Opcode::Integer(2),
            0x0C => Opcode::Integer(4),
            0x0E => Opcode::Integer(8),
            0xFF => Opcode::Ones,
            0x0D => Opcode::Chars,
            0x11 => Opcode::Buffer,
            0x12 => Opcode::Package,
            0x08 => Opcode::Name,
            0x10 => Opcode::Scope,
            0x5B => Opcode::Extended,
            _ => Opcode::Other,
        }
    }
}
