ghost use Rattle.std.specs.Prelude.{◌≡◌, ◌+◌, ◌≤◌, length, take, drop, true};
ghost use Rattle.vt_bytes.specs.Numbers.{le};
ghost use Rattle.acpi_model.specs.Form.{address_size};
ghost use Rattle.acpi_decode.specs.Seen.{is_ram, number_at};

use crate::view::MemView;
use acpi_model::Form;
use vt_bytes::get_le;

/// Reads the number in the four bytes from the offset `at` on, low byte first. They must lie within `bytes`.
pub(crate) fn get_u32(bytes: &[u8], at: usize) -> u32
    requires { at + 4 ≤ length bytes.now }
    ensures { result ≡ le (take 4 (drop at bytes.now)) }
{
    get_le(bytes, at, 4) as u32
}

/// Reads the address of a table, in as many bytes as the form `form` has for one, at `at`, where they must be RAM.
pub(crate) fn read_address<V: MemView>(view: &V, form: Form, at: u64) -> u64
    requires { is_ram (V.seen view.now) at (address_size form) ≡ true }
    ensures { result ≡ number_at (V.seen view.now) at (address_size form) }
{
    if form.extended {
        let mut bytes = [0; 8];
        view.copy_out(at, &mut bytes);
        get_le(&bytes, 0, bytes.len())
    } else {
        let mut bytes = [0; 4];
        view.copy_out(at, &mut bytes);
        get_le(&bytes, 0, bytes.len())
    }
}
