ghost use Rattle.std.specs.Prelude.{◌≡◌, ◌≤◌, length};
ghost use Rattle.cfg_directory.specs.Items.{IsItems};
ghost use Rattle.smbios_install.specs.Selectors.{greatest_select, is_taken, least_free, next_select};

use cfg_directory::Item;

// The selectors that a file may have.
const FIRST_SELECT: u16 = 0x20;

const LAST_SELECT: u16 = 0x3FFF;

/// Returns the selector of a file that is added to `items`, those of a device: one above the greatest, or where that is no file's the least
/// one from 0x20 on that no item has.
pub(crate) fn next_select(items: &[Item]) -> u16
    requires { IsItems items.now }
    ensures { result ≡ next_select items.now }
{
    let next = greatest_select(items) + 1;
    if next <= LAST_SELECT {
        next
    } else {
        least_free(items)
    }
}

// The greatest selector of items, or 0 where there are none.
fn greatest_select(items: &[Item]) -> u16
    requires { IsItems items.now }
    ensures greatest { result ≡ greatest_select items.now }
    ensures below { result ≤ 0x3FFF }
{
    let mut greatest = 0;
    for item in items {
        if greatest < item.select {
            greatest = item.select;
        }
    }
    greatest
}

// The least selector from 0x20 on that no item has.
fn least_free(items: &[Item]) -> u16
    requires { IsItems items.now }
    ensures { result ≡ least_free items.now (length items.now) 0x20 }
{
    let mut select = FIRST_SELECT;
    while is_taken(items, select) {
        select += 1;
    }
    select
}

fn is_taken(items: &[Item], select: u16) -> bool
    ensures { result ≡ is_taken items.now select }
{
    items.iter().any(|item| item.select == select)
}
