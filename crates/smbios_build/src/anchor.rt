ghost use Rattle.std.specs.Prelude.{◌≡◌};
ghost use Rattle.vt_layout.specs.Rows.{spelled};
ghost use Rattle.vt_layout.specs.declared.row.Row.TheVariants.{Number};
ghost use Rattle.smbios_model.specs.Anchor.{anchor_rows, anchor_of};

/// Builds the anchor of structures that have `size` bytes, the 64-bit entry point (DSP0134 5.2.2): version 3.0.0, with zeros for
/// its checksum (byte 5) and for the address of the structures (8 bytes from 16 on). It takes no memory.
pub fn build_anchor(size: u32) -> [u8; 24]
    ensures { result ≡ spelled (anchor_rows (anchor_of size) (Number 8 0)) }
{
    let [s0, s1, s2, s3] = size.to_le_bytes();
    [
        b'_', b'S', b'M', b'3', b'_', 0, 0x18, 3, 0, 0, 1, 0, s0, s1, s2, s3, 0, 0, 0, 0, 0, 0, 0,
        0,
    ]
}
