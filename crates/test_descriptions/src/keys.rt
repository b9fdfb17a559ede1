//! The keys of a description and values of each kind, as docs/FORMATS.md has them. Nothing here is taken from the reader.

/// A line for each key, in the order in which keys are looked at: its table, its number, its name, its kind, and what is read where it is
/// left out. A number behind a `u` is how many bits an integer has, the version is the
/// integer 1, and a `word` is one of `io`, `mem32` and `mem64`. `!` marks a key that must be there, and `none` one without
/// which the machine has nothing there. Behind these stands the
/// rule that the description with every key breaks where this key has the most that it may have, and behind `without` the rule that it
/// breaks where this key is left out, if it breaks one.
pub(crate) const KEYS: &str = r#"root 0 version 1 !
root 1 top_mib u32 ! rule 1 index 0
root 2 oem_strings texts []
root 3 generation uuid none
root 4 system table !
root 5 firmware table none
root 6 chassis table none
root 7 socket tables []
root 8 dimm tables [] without rule 9 index 0
root 9 range tables [] without rule 9 index 0
root 10 slot tables []
root 11 acpi table none without rule 13 index 0
root 12 power table none without rule 14 index 0
root 13 hpet table none
root 14 apic table none without rule 15 index 0
root 15 cpu tables [] without rule 22 index 0
root 16 ioapic tables []
root 17 override tables []
root 18 nmi tables []
root 19 numa table none without rule 24 index 0
root 20 bridge table none
root 21 uart tables []
system 0 manufacturer text ""
system 1 product text ""
system 2 version text ""
system 3 serial text ""
system 4 sku text ""
system 5 family text ""
system 6 uuid uuid none
firmware 0 vendor text ""
firmware 1 version text ""
firmware 2 date text ""
firmware 3 major u8 0
firmware 4 minor u8 0
chassis 0 manufacturer text ""
chassis 1 version text ""
chassis 2 serial text ""
chassis 3 asset text ""
chassis 4 sku text ""
chassis 5 kind u8 1 rule 6 index 0
socket 0 designation text ""
socket 1 manufacturer text ""
socket 2 version text ""
socket 3 serial text ""
socket 4 asset text ""
socket 5 part text ""
socket 6 cores u16 ! rule 7 index 1
socket 7 threads u16 ! rule 7 index 1
socket 8 mhz u16 0
dimm 0 locator text ""
dimm 1 bank text ""
dimm 2 manufacturer text ""
dimm 3 serial text ""
dimm 4 asset text ""
dimm 5 part text ""
dimm 6 size_mib u32 ! rule 8 index 1
dimm 7 speed u16 0 rule 8 index 1
range 0 base_mib u32 !
range 1 size_mib u32 ! rule 10 index 1
range 2 node u8 0 rule 24 index 3
slot 0 designation text ""
slot 1 kind u8 1
slot 2 width u8 1
slot 3 used bool false
slot 4 id u16 0
slot 5 bus u8 0
slot 6 device u8 0 rule 12 index 1
slot 7 function u8 0 rule 12 index 1
acpi 0 oem_id text "BOCHS" rule 16 index 0
acpi 1 oem_table_id text "BXPC" rule 16 index 1
power 0 sci u16 9
power 1 profile u8 0
power 2 event u16 !
power 3 control u16 !
power 4 timer u16 !
power 5 gpe u16 0 without rule 17 index 0
power 6 gpe_len u8 0 rule 17 index 0 without rule 17 index 0
power 7 reset u16 0 without rule 17 index 0
power 8 reset_value u8 0
power 9 century u8 0
power 10 rtc bool true
power 11 keyboard bool true
hpet 0 address u32 0xFED00000 rule 18 index 0
hpet 1 block_id u32 0x8086A201
hpet 2 number u8 0
hpet 3 min_tick u16 100
apic 0 local u32 0xFEE00000
apic 1 legacy bool true
cpu 0 apic u32 ! rule 19 index 1
cpu 1 node u8 0 rule 24 index 1
cpu 2 enabled bool true
ioapic 0 id u8 !
ioapic 1 address u32 !
ioapic 2 gsi u32 0
override 0 irq u8 ! rule 21 index 1
override 1 gsi u32 !
override 2 flags u16 0 rule 21 index 1
nmi 0 cpu u32 none rule 22 index 1
nmi 1 flags u16 0 rule 22 index 1
nmi 2 lint u8 1 rule 22 index 1
numa 0 nodes u8 ! rule 23 index 0
numa 1 distance bytes !
bridge 0 ecam u64 0 rule 25 index 0
bridge 1 last_bus u8 255
bridge 2 window tables []
bridge 3 route tables []
window 0 kind word !
window 1 base u64 ! rule 26 index 1
window 2 size u64 ! rule 26 index 1
window 3 prefetch bool false
route 0 device u8 ! rule 27 index 1
route 1 pin u8 ! rule 27 index 1
route 2 gsi u32 !
uart 0 port u16 ! rule 28 index 1
uart 1 irq u8 ! rule 28 index 1"#;

/// Lines of values: kinds of keys, what is told of a description that has one of the values at a key of such a kind, and the values. A
/// value that is accepted is the most that its kind may have in a document. This and a value that breaks a rule are no faults of the key.
pub(crate) const VALUES: &str = r#"text uuid: wrong kind: 1 | 1.5 | true | 2024-01-02 | ['a'] | {}
bool: wrong kind: 0 | 1.5 | 'true' | 2024-01-02 | [true] | {}
1: wrong kind: '1' | 1.0 | nan | true | 2024-01-02 | [1] | {}
u8 u16 u32 u64: wrong kind: '1' | 1.0 | inf | true | 07:32:00 | [] | {}
word: wrong kind: 1 | 1.5 | true | 2024-01-02 | ['io'] | {}
texts: wrong kind: 'a' | 1 | true | {} | [{}] | [1] | ['a', 1, 'b'] | ['a', ['b']] | ['a', 2024-01-02]
bytes: wrong kind: 10 | '10' | true | {} | [{}] | ['a'] | [10, 10.0] | [10, [10]] | [10, true]
table: wrong kind: '' | 1 | true | 1979-05-27T07:32:00Z | [] | [{}]
tables: wrong kind: '' | 1 | true | {} | [1] | ['a'] | [[{}]]
uuid: out of range: '' | '00112233'
1: out of range: 0 | 2 | -1 | 9223372036854775807 | -9223372036854775808
u8: out of range: 256 | -1
u16: out of range: 65536 | -1
u32: out of range: 4294967296 | -1
u64: out of range: -1 | -9223372036854775808
word: out of range: '' | 'mem' | 'IO' | ' io' | 'io ' | 'mem320' | 'mem6'
bytes: out of range: [256] | [10, 20, -1]
text: rule 3 index 0: "\t" | 'é' | '01234567890123456789012345678901234567890123456789012345678901234'
texts: rule 3 index 0: ["\n"] | ['a', '01234567890123456789012345678901234567890123456789012345678901234']
bytes: rule 23 index 0: [] | [10] | [10, 20, 20]
1: accepted: 1
u8: accepted: 255
u16: accepted: 65535
u32: accepted: 4294967295
u64: accepted: 9223372036854775807
word: accepted: 'mem64'
bool: accepted: true
uuid: accepted: 'fffffffffffffffffffffffffffffffe'
text: accepted: '0123456789012345678901234567890123456789012345678901234567890123'"#;

// The kinds of keys.
const KINDS: &str = "1 u8 u16 u32 u64 bool word text uuid texts bytes table tables";

/// The tables that are no elements of an array, in groups whose keys are tried together.
pub(crate) const TABLES: [&str; 3] = [
    "root",
    "system firmware chassis",
    "acpi power hpet apic numa bridge",
];

/// The tables that are elements of an array, in such groups. The description with every key has two of each.
pub(crate) const ELEMENTS: [&str; 3] = [
    "socket dimm range slot",
    "cpu ioapic override nmi",
    "window route uart",
];

/// A key of a table.
#[derive(Clone, Copy)]
pub(crate) struct Key<'a> {
    /// Gives its line.
    pub(crate) line: &'a str,
    pub(crate) table: &'a str,
    /// Gives the table's place in its array, or 0 of a table that is in none.
    pub(crate) index: u32,
    /// Gives its number, in digits.
    pub(crate) number: &'a str,
    pub(crate) name: &'a str,
    pub(crate) kind: &'a str,
    pub(crate) default: &'a str,
    /// Gives the rule that the description with every key breaks where the key has its most, or nothing.
    pub(crate) rule: &'a str,
    /// Gives the rule that the description with every key breaks without it, or nothing.
    pub(crate) rule_without: &'a str,
}

impl<'a> Key<'a> {
    /// Returns the key that a line is of, in the table of this place.
    pub(crate) fn of(line: &'a str, index: u32) -> Option<Key<'a>> {
        let (table, rest) = line.split_once(" ")?;
        let (number, rest) = rest.split_once(" ")?;
        let (name, rest) = rest.split_once(" ")?;
        let (kind, rest) = rest.split_once(" ")?;
        if !is_among(KINDS, kind)
            || !is_in_a_group(&TABLES, table) && !is_in_a_group(&ELEMENTS, table)
        {
            return None;
        }
        let (rest, rule_without) = rest.split_once(" without ").unwrap_or((rest, ""));
        let (default, rule) = rest.split_once(" ").unwrap_or((rest, ""));
        Some(Key {
            line,
            table,
            index,
            number,
            name,
            kind,
            default,
            rule,
            rule_without,
        })
    }

    /// Says whether no element of an array stands behind its table.
    pub(crate) fn is_last(&self) -> bool {
        self.index == 1 || !is_in_a_group(&ELEMENTS, self.table)
    }
}

/// Values, the kinds of keys that they are tried at, and what is told of them.
#[derive(Clone, Copy)]
pub(crate) struct Values<'a> {
    pub(crate) kinds: &'a str,
    pub(crate) answer: &'a str,
    /// Gives them, with bars between them.
    pub(crate) values: &'a str,
}

impl<'a> Values<'a> {
    /// Returns the values of a line.
    pub(crate) fn of(line: &'a str) -> Option<Values<'a>> {
        let (kinds, rest) = line.split_once(": ")?;
        let (answer, values) = rest.split_once(": ")?;
        Some(Values {
            kinds,
            answer,
            values,
        })
    }
}

fn is_in_a_group(groups: &[&str], table: &str) -> bool {
    for group in groups {
        if is_among(group, table) {
            return true;
        }
    }
    false
}

/// Says whether a word is one of these.
pub(crate) fn is_among(words: &str, word: &str) -> bool {
    for other in words.split(" ") {
        if other == word {
            return true;
        }
    }
    false
}
