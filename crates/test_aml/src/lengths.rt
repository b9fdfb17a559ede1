//! The shortest package lengths of bodies around each border.

use aml_encode::pkg_length;
use std::process::Abort;
use std::test::Fail;

static SHORTEST: [(u32, &[u8]); 12] = [
    (0, b"\x01"),
    (62, b"\x3f"),
    (63, b"\x41\x04"),
    (64, b"\x42\x04"),
    (4_093, b"\x4f\xff"),
    (4_094, b"\x81\x00\x01"),
    (65_535, b"\x82\x00\x10"),
    (1_048_572, b"\x8f\xff\xff"),
    (1_048_573, b"\xc1\x00\x00\x01"),
    (16_777_216, b"\xc4\x00\x00\x10"),
    (268_435_450, b"\xce\xff\xff\xff"),
    (268_435_451, b"\xcf\xff\xff\xff"),
];

#[test]
fn shortest_lengths(rt: HostRuntime) -> Result<(), Fail> {
    for (body, wanted) in &SHORTEST {
        is_length(&rt, *body, *wanted);
    }
    Ok(())
}

fn is_length(rt: &impl Abort, body: u32, wanted: &[u8]) {
    if body > 268_435_451 {
        panic!(rt; "no length encloses {body} bytes");
    }
    let length = pkg_length(body);
    assert_eq!(rt;
        length.bytes.get(..usize::from(length.len)),
        Some(wanted),
        "{body}"
    );
}
