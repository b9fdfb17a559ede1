ghost use Rattle.std.specs.Prelude.{◌≡◌, ◌∷◌, map, string_bytes, option_map, IfSome};
ghost use Rattle.word_schema.specs.Given.{values_of};
ghost use Rattle.vt_words.specs.Command.{IsLawful, boot_of, build_of, command_of, decode_of, gen_of, load_of, sought_of};
ghost use Rattle.vt_words.specs.Rows.{boot, build, decode, generate, load};

use crate::rows::{BOOT, BUILD, DECODE, GEN, LOAD};
use crate::setting::Setting;
use word_schema::read_values;

/// What the words of a command line ask for.
#[derive(Clone, Copy, Debug, PartialEq, Eq)]
pub enum Command {
    /// Builds a machine's files, loads them, and dumps the guest's memory.
    Boot(Setting),
    /// Loads a container's files, and dumps the guest's memory.
    Load(LoadOptions),
    /// Builds a machine's files, and gives their container.
    Build,
    /// Reads a dump, and describes the machine that its memory shows: by its legacy ACPI tables, or by those of an XSDT.
    Decode { legacy: bool },
    /// Reads a dump, and lists what a guest finds in its memory that looks for this.
    List(Sought),
    /// Loads the files of a machine that is generated of so many processors, and counts what it has.
    Gen(u32),
}

/// What the options of `decode --list` say of what a guest looks for.
#[derive(Clone, Copy, Debug, PartialEq, Eq)]
pub enum Sought {
    /// One kind of ACPI tables, and one of SMBIOS anchors.
    One {
        /// Whether it looks for legacy ACPI tables, or for those of an XSDT.
        legacy: bool,
        /// Whether it looks for the old anchor of SMBIOS structures, or for the 64-bit entry point.
        smbios2: bool,
    },
    /// The first of any kind.
    Any,
}

/// What the options of `load` say.
#[derive(Clone, Copy, Debug, PartialEq, Eq)]
pub struct LoadOptions {
    /// The top of memory, in MiB.
    pub top_mib: u32,
    /// Whether SMBIOS files that no command of the script names are installed.
    pub install: bool,
    /// How the files are loaded.
    pub setting: Setting,
}

/// Reads `words`, those after the program's name, as a command and its options. Returns `None` where they are none: no word, another
/// command, a word in an option's place that names none of the command's, an option that stands there twice, a name without its value,
/// a value that the option can't have, an option that must be given and isn't, two that exclude each other, or one without another that it needs.
/// Takes no memory.
pub fn read_words(words: &[String]) -> Option<Command>
    ensures command { result ≡ command_of (map string_bytes words.now) }
    ensures lawful { IfSome result IsLawful }
{
    let (name, words) = words.split_first()?;
    command_with(name.as_str(), words)
}

// The command of this name, with the words behind it.
fn command_with(name: &str, words: &[String]) -> Option<Command>
    ensures { result ≡ command_of (name.now ∷ map string_bytes words.now) }
{
    if *name == *BUILD.name {
        build_of(words)
    } else if *name == *BOOT.name {
        boot_of(words)
    } else if *name == *LOAD.name {
        load_of(words)
    } else if *name == *DECODE.name {
        decode_of(words)
    } else if *name == *GEN.name {
        gen_of(words)
    } else {
        None
    }
}

fn build_of(words: &[String]) -> Option<Command>
    ensures { result ≡ option_map build_of (values_of build (map string_bytes words.now)) }
{
    let _values = read_values(&BUILD, words)?;
    Some(Command::Build)
}

fn boot_of(words: &[String]) -> Option<Command>
    ensures { result ≡ option_map boot_of (values_of boot (map string_bytes words.now)) }
{
    let mut values = read_values(&BOOT, words)?;
    Some(Command::Boot(Setting::take(&mut values)))
}

fn load_of(words: &[String]) -> Option<Command>
    ensures { result ≡ option_map load_of (values_of load (map string_bytes words.now)) }
{
    let mut values = read_values(&LOAD, words)?;
    Some(Command::Load(LoadOptions {
        top_mib: values.take_number(3072) as u32,
        install: values.take_flag(),
        setting: Setting::take(&mut values),
    }))
}

fn decode_of(words: &[String]) -> Option<Command>
    ensures { result ≡ option_map decode_of (values_of decode (map string_bytes words.now)) }
{
    let mut values = read_values(&DECODE, words)?;
    let list = values.take_flag();
    let legacy = values.take_flag();
    let smbios2 = values.take_flag();
    let any = values.take_flag();
    Some(if list {
        Command::List(sought_of(legacy, smbios2, any))
    } else {
        Command::Decode { legacy }
    })
}

// What is looked for where these flags are given.
fn sought_of(legacy: bool, smbios2: bool, any: bool) -> Sought
    ensures { result ≡ sought_of legacy smbios2 any }
{
    if any {
        Sought::Any
    } else {
        Sought::One { legacy, smbios2 }
    }
}

fn gen_of(words: &[String]) -> Option<Command>
    ensures { result ≡ option_map gen_of (values_of generate (map string_bytes words.now)) }
{
    let mut values = read_values(&GEN, words)?;
    Some(Command::Gen(values.take_number(4096) as u32))
}
