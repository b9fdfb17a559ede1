//! Numbers and sums in bytes.

use vt_bytes::{byte_sum, get_be, get_le, put_be, put_le};

#[test]
fn numbers_in_bytes(rt: HostRuntime) {
    let bytes = [0, 0x12, 0x34, 0x56, 0xFF];
    let numbers = (get_le(&bytes, 1, 3), get_be(&bytes, 1, 3), byte_sum(&bytes));
    assert_eq!(rt; numbers, (0x56_3412, 0x12_3456, 0x9B));
    let mut first = bytes;
    put_le(&mut first, 0, 2, 0xABCD);
    let mut second = first;
    put_be(&mut second, 3, 2, 0xABCD);
    let wanted = [
        [0xCD, 0xAB, 0x34, 0x56, 0xFF],
        [0xCD, 0xAB, 0x34, 0xAB, 0xCD],
    ];
    assert_eq!(rt; [first, second], wanted);
}
