//! The commands and their options as data: a row for each, with the texts of its help.

ghost use Rattle.std.specs.Prelude.{◌≡◌, map};
ghost use Rattle.word_schema.specs.Forms.{schema_of};
ghost use Rattle.vt_words.specs.Command.{commands};

use word_schema::{CommandSchema, Exclusive, Form, Kind, Need, OperandSchema, OptionSchema, Value};

// An option with a value: its name, what stands for the value in the help, what the value is to be, and what it is where it's left out.
macro_rules! valued {
    ($name:literal, $placeholder:literal, $form:expr, $default:expr, $about:literal) => {
        OptionSchema {
            name: $name,
            kind: Kind::Valued($form),
            default: Some($default),
            placeholder: $placeholder,
            about: $about,
        }
    };
}

const TOP: OptionSchema = valued!(
    "--top",
    "M",
    Form::Number(64, 3072),
    Value::Number(64),
    "the top of the guest's memory in MiB"
);

const FILL: OptionSchema = valued!(
    "--fill",
    "XX",
    Form::Byte,
    Value::Number(0),
    "the byte that all memory holds before the load"
);

const POLICY: OptionSchema = valued!(
    "--policy",
    "P",
    Form::Word(&["low", "top", "scatter"]),
    Value::Word(0),
    "which of the free places of its zone a file gets: the lowest, the highest, or one that the seed draws"
);

const SEED: OptionSchema = valued!(
    "--seed",
    "N",
    Form::Number(0, u64::MAX),
    Value::Number(0),
    "the seed of the load's events and of the places of scatter; 0 has no events, and from 2^63 on two of them reset the guest"
);

// A flag: its name, and what it is where it's left out, or none where it must be given.
macro_rules! flag {
    ($name:literal, $default:expr, $about:literal) => {
        OptionSchema {
            name: $name,
            kind: Kind::Flag,
            default: $default,
            placeholder: "",
            about: $about,
        }
    };
}

const LIST: OptionSchema = flag!(
    "--list",
    Some(Value::Flag(false)),
    "lists the SMBIOS structures and the ACPI tables that a guest finds in this memory, whether they describe a machine or not"
);

const LEGACY: OptionSchema = flag!(
    "--legacy",
    Some(Value::Flag(false)),
    "reads the ACPI tables of an RSDP of revision 0 or 1 and its RSDT, with FADTs from 116 bytes on, as SeaBIOS leaves them to guests of pc and q35"
);

const SMBIOS2: OptionSchema = flag!(
    "--smbios2",
    Some(Value::Flag(false)),
    "lists the SMBIOS structures of the old anchor of 31 bytes, as QEMU's pc and q35 have it unless told otherwise"
);

const ANY: OptionSchema = flag!(
    "--any",
    Some(Value::Flag(false)),
    "lists what a guest's own search finds: the first RSDP of any revision, FADTs from 116 bytes on, and the first SMBIOS anchor of either form"
);

const INSTALL: OptionSchema = flag!(
    "--install",
    Some(Value::Flag(false)),
    "installs the SMBIOS files that QEMU gives outside the script, as a firmware does by itself: commands for them are added to the script"
);

const PROCESSORS: OperandSchema = OperandSchema {
    form: Form::Number(1, 4096),
    placeholder: "N",
    about: "how many processors the machine has",
};

pub(crate) const BUILD: CommandSchema = CommandSchema {
    name: "build",
    operands: &[],
    options: &[],
    exclusive: &[],
    needs: &[],
    input: "DESCRIPTION",
    output: "CONTAINER",
    about: "reads a machine's description (TOML), and writes the files that a firmware loads, in one container",
};

pub(crate) const BOOT: CommandSchema = CommandSchema {
    name: "boot",
    operands: &[],
    options: &[FILL, POLICY, SEED],
    exclusive: &[],
    needs: &[],
    input: "DESCRIPTION",
    output: "DUMP",
    about: "reads a machine's description, builds its files, loads them into a guest's memory, and writes a dump of that memory",
};

pub(crate) const LOAD: CommandSchema = CommandSchema {
    name: "load",
    operands: &[],
    options: &[TOP, INSTALL, FILL, POLICY, SEED],
    exclusive: &[],
    needs: &[],
    input: "CONTAINER",
    output: "DUMP",
    about: "reads a container, loads its files by the script among them into a guest's memory, and writes a dump of that memory",
};

pub(crate) const DECODE: CommandSchema = CommandSchema {
    name: "decode",
    operands: &[],
    options: &[LIST, LEGACY, SMBIOS2, ANY],
    exclusive: &[
        Exclusive {
            one: "--any",
            other: "--legacy",
        },
        Exclusive {
            one: "--any",
            other: "--smbios2",
        },
    ],
    needs: &[
        Need {
            one: "--smbios2",
            other: "--list",
        },
        Need {
            one: "--any",
            other: "--list",
        },
    ],
    input: "DUMP",
    output: "DESCRIPTION",
    about: "reads a dump of a guest's memory, and describes the machine that it shows from its RSDP and its SMBIOS anchor, or tells the first fault",
};

pub(crate) const GEN: CommandSchema = CommandSchema {
    name: "gen",
    operands: &[PROCESSORS],
    options: &[],
    exclusive: &[],
    needs: &[],
    input: "",
    output: "COUNTS",
    about: "loads the files of a large machine into a guest's memory, as boot does, and writes how many of what it has",
};

const COMMANDS: &[CommandSchema] = &[BUILD, BOOT, LOAD, DECODE, GEN];

/// Returns the rows of the commands, in the order in which the help lists them: those by which `read_words` reads.
pub fn commands() -> &'static [CommandSchema]
    ensures { map schema_of result.now ≡ map (λ command. command.schema) commands }
{
    COMMANDS
}
