//! A small memory with a table of every kind, made by hand from ACPI 6.5, 5.2 and 20.2, PCI Firmware Specification 3.3, 4.1.2, and IA-PC
//! HPET 1.0a, 3.2.4. Neighbouring numbers differ, and so do their bytes.

use crate::edits::mend;
use crate::pieces::{Piece, Pieces};
use crate::rsdp::rsdp_of;
use crate::told::is_told;
use std::alloc::Global;
use std::test::Fail;
use vt_outside::Bytes;

// Where its RSDP stands.
const RSDP: u64 = 0xE_0000;

// Where its XSDT stands, in front of the other tables.
const XSDT: u64 = 0x3024;

// Where its tables begin among its bytes, behind the RSDP.
const TABLES_PLACE: usize = 36;

// Its pieces: the tables, and the RSDP.
static PIECES: [Piece; 2] = [
    Piece {
        start: XSDT,
        size: 1109,
        place: 36,
    },
    Piece {
        start: RSDP,
        size: 36,
        place: 0,
    },
];

/// A table of it.
#[derive(Clone, Copy)]
pub struct Table<'a> {
    /// How many bytes it has.
    pub size: usize,
    /// Whether these sum to zero.
    pub has_sum: bool,
    /// They in digits, with a sum of 0.
    pub digits: &'a str,
}

/// The tables, in the order of their addresses.
pub static TABLES: [Table; 10] = [
    // The XSDT names the FADT, nothing, the MADT, the SRAT, the SLIT, the SSDT, the HPET table and the MCFG.
    Table {
        size: 100,
        has_sum: true,
        digits: "\
        585344546400000002004142434445464748494a4b4c5853020203044f50515202060708543100000000000000000000000000006832000000000000e5320000\
        0000000091330000000000000434000000000000c8330000000000002d34000000000000",
    },
    Table {
        size: 64,
        has_sum: false,
        digits: "\
        464143534000000025de7b8ce18ad758dd76736419a24fb0950e6b3c51bac7084da6631489d23f60053e5becc1eab7b8bdd653c4f9022f10756e4b9c311aa768",
    },
    // The DSDT has a term of each kind, and a value of each.
    Table {
        size: 140,
        has_sum: true,
        digits: "\
        445344548c00000003004142434445464748494a4b4c4453030203044f50515203060708104f045c5f53425f5b823650434930085f4849440cd0410a08085f55\
        494400085f43525311060a0379321f085f505254120f01120c040cffff0100010b3412ff085e5e2e41423031434430320d486900082f03415f5f31425f5f3243\
        5f5f330e69321fc0e59e3b4c",
    },
    // The FADT leads to the DSDT twice by pointers of 32 bits, and to the FACS by one of 64 bits, which counts.
    Table {
        size: 276,
        has_sum: true,
        digits: "\
        464143501401000004004142434445464748494a4b4c4641040203044f50515204060708c8300000c8300000d9620f7055ce2bfc117a87c80d6623d44992ff20\
        c5fe1bac81aa77787d961384b9c2efd0352e0b5cf1da6728edc6033429f2df80a55efb0c610a57d85df6f3e49922cf30158eebbcd13a4788cd26e3940952bfe0\
        85bedb6c88300000000000000000000000000000b19a27e8ad86c3f4e9b29f40651ebbcc21ca17981db6b3a459e28ff0d54eab7c91fa07488de6a354c9127fa0\
        457e9b2c012af7f8fd16930439426f50b5ae8bdc715ae7a86d4683b4a9725f0025de7b8ce18ad758dd76736419a24fb0950e6b3c51bac7084da6631489d23f60\
        053e5becc1eab7b8bdd653c4f9022f10756e4b9c",
    },
    // The MADT has an entry of each type that is known, one of another, and a longer one.
    Table {
        size: 125,
        has_sum: true,
        digits: "\
        415049437d00000005004142434445464748494a4b4c4150050203044f50515205060708311aa7682d064374000869321fc0e59e010c3b4ca14a97189d363324\
        020ad9620f7055ce2bfc0308117a87c80d66040623d449920910ff20c5fe1bac81aa77787d9613840a0cb9c2efd0352e0b5cf1da00096728edc6033429",
    },
    // The SRAT has an entry of each type that is known, one of another, and a longer one.
    Table {
        size: 172,
        has_sum: true,
        digits: "\
        53524154ac00000006004142434445464748494a4b4c5352060203044f50515206060708f2df80a55efb0c610a57d85d0010f6f3e49922cf30158eebbcd13a47\
        012888cd26e3940952bfe085bedb6c416a37383d56d3447982af90f5eecb1cb19a27e8ad86c3f4e90218b29f40651ebbcc21ca17981db6b3a459e28ff0d54eab\
        03127c91fa07488de6a354c9127fa0457e9b021a2c012af7f8fd16930439426f50b5ae8bdc715ae7a86d4683",
    },
    // The SLIT has two bytes behind its distances.
    Table {
        size: 55,
        has_sum: true,
        digits: "534c49543700000007004142434445464748494a4b4c534c070203044f505152070607080300000000000000b4a9725f0025de7b8ce18a",
    },
    // The HPET table has four bytes more than it needs.
    Table {
        size: 60,
        has_sum: true,
        digits: "\
        485045543c00000008004142434445464748494a4b4c4850080203044f50515208060708d758dd76736419a24fb0950e6b3c51bac7084da6631489d2",
    },
    Table {
        size: 41,
        has_sum: true,
        digits: "535344542900000009004142434445464748494a4b4c5353090203044f505152090607083f60053e5b",
    },
    // What is reserved in the MCFG isn't zero, nor are the first buses of its two allocations.
    Table {
        size: 76,
        has_sum: true,
        digits: "\
        4d4346474c0000000a004142434445464748494a4b4c4d430a0203044f5051520a060708215e4c8ab3f7106d00906a2e7b51c8d34cb1179a65f80e42d81f95e0\
        6233ab075e29c4813f70bd16",
    },
];

// What is told of it.
const TOLD: &str = "
rsdp 414243444546
xsdt 02 414243444546 4748494a4b4c5853 04030202 4f505152 08070602
fadt 04 414243444546 4748494a4b4c4641 04030204 4f505152 08070604 62 700f d0efc2b9 bceb8e15 6c b483466da8e75a71 9c4b6e75102f02f9
facs 8c7bde25 58d78ae1 647376dd b04fa219 08c7ba513c6b0e95 4d 603fd289
dsdt 03 414243444546 4748494a4b4c4453 04030203 4f505152 08070603 terms
scope \\_SB_
device PCI0
name _HID int 080a41d0
name _UID int 00
name _CRS buffer 79321f
name _PRT package [ package [ int 01ffff int 01 int 1234 ones ] ]
end
name ^^AB01.CD02 text 4869
end
name A__1.B__2.C__3 int 4c3b9ee5c01f3269
madt 05 414243444546 4748494a4b4c4150 04030205 4f505152 08070605 68a71a31 7443062d
entry 00 69 32 9ee5c01f
entry 01 3b 18974aa1 2433369d
entry 02 d9 62 ce55700f fc2b
other entry 03 08
entry 04 23 49d4 92
entry 09 ac1bfec5 7877aa81 8413967d
entry 0a c2b9 2e35d0ef 0b
entry 00 67 28 3403c6ed
srat 06 414243444546 4748494a4b4c5352 04030206 4f505152 08070606
entry 00 f6 eb8e15 f3 cf2299e4
entry 01 e326cd88 416cdbbe85e0bf52 7944d3563d38376a b11ccbee
entry 02 bb1e6540 17ca21cc b3b61d98
other entry 03 12
entry 02 fdf8f72a 39049316 b5506f42
slit 07 414243444546 4748494a4b4c534c 04030207 4f505152 08070607 03 b4a9725f0025de7b8c
mcfg 0a 414243444546 4748494a4b4c4d43 0403020a 4f505152 0807060a
allocation d3c8517b2e6a9000 b14c 9a
allocation 07ab3362e0951fd8 295e 81
hpet 08 414243444546 4748494a4b4c4850 04030208 4f505152 08070608 76dd58d7 73 64 19 a2 ba513c6b0e95b04f c7 4d08
other 53534454 29";

#[test]
fn every_number_is_read(rt: HostRuntime) -> Result<(), Fail> {
    let bytes = every_table(rt.alloc())?;
    let view = Pieces {
        pieces: &PIECES,
        bytes: bytes.as_slice(),
    };
    is_told(&rt, rt.alloc(), &view, RSDP, TOLD)
}

// The bytes of the memory.
fn every_table(alloc: Global) -> Result<Bytes, Fail> {
    let mut bytes = Bytes::new(alloc);
    bytes.extend(&rsdp_of(XSDT))?;
    push_tables(alloc, &mut bytes)?;
    mend_every(&mut bytes);
    Ok(bytes)
}

fn push_tables(alloc: Global, bytes: &mut Bytes) -> Result<(), Fail> {
    for table in &TABLES {
        let decoded = hex::decode(alloc, table.digits)?;
        bytes.extend(decoded.as_slice())?;
    }
    Ok(())
}

// Sets the sums of all tables that have one.
fn mend_every(bytes: &mut Bytes) {
    let mut place = TABLES_PLACE;
    for table in &TABLES {
        if table.has_sum {
            mend(bytes, place);
        }
        place = place.saturating_add(table.size);
    }
}
