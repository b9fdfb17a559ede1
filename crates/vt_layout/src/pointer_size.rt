ghost use Rattle.std.specs.Prelude.{◌≡◌, ◌↔◌, IsTrue};
ghost use Rattle.vt_layout.specs.Rows.{IsPointerSize};
ghost use Rattle.vt_layout.specs.PointerSize.{is_pointer_size};

/// Tells whether a pointer may have `size` bytes: 1, 2, 4 or 8.
pub fn is_pointer_size(size: u8) -> bool
    ensures test { result ≡ is_pointer_size size }
    ensures sizes { IsTrue result ↔ IsPointerSize size }
{
    matches!(size, 1 | 2 | 4 | 8)
}
