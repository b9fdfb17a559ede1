//! The description with every key, which has two elements of each array of tables. It is the first case of the file
//! `description_machines.cases`, too.

/// Its text.
pub(crate) const EVERY_KEY: &str = "# A machine with every key that a description may have today.
version = 1
top_mib = 2048
oem_strings = [\"Built in Example\", \"Second\"]
generation = \"00112233-4455-6677-8899-aabbccddeeff\"
[system]
manufacturer = \"Example Co\"
product = \"Server\"
version = \"1\"
serial = \"S-0001\"
sku = \"EX-SRV-1\"
family = \"Servers\"
uuid = \"6f1a5e0c-2b4d-4c7e-9a38-0d5c1b7e42f9\"
[firmware]
vendor = \"Example Firmware\"
version = \"2.5\"
date = \"01/02/2024\"
major = 2
minor = 255
[chassis]
manufacturer = \"Example Housing\"
version = \"3\"
serial = \"C-0001\"
asset = \"A-0001\"
sku = \"EX-BOX-1\"
kind = 127
[[socket]]
designation = \"CPU 0\"
manufacturer = \"Example Silicon\"
version = \"4\"
serial = \"P-0001\"
asset = \"A-0002\"
part = \"EX-CPU-1\"
cores = 65534
threads = 65534
mhz = 65535
[[socket]]
cores = 1
threads = 2
[[dimm]]
locator = \"DIMM 0\"
bank = \"BANK 0\"
manufacturer = \"Example Memory\"
serial = \"M-0001\"
asset = \"A-0003\"
part = \"EX-RAM-1\"
size_mib = 16777216
speed = 65534
[[dimm]]
size_mib = 1
[[range]]
base_mib = 0
size_mib = 2048
node = 1
[[range]]
base_mib = 4294967295
size_mib = 1
[[slot]]
designation = \"SLOT 0\"
kind = 255
width = 254
used = true
id = 65535
bus = 255
device = 31
function = 7
[[slot]]
[acpi]
oem_id = \"EXMPL\"
oem_table_id = \"EXSERVER\"
[power]
sci = 65535
profile = 4
event = 0x600
control = 0x604
timer = 0x608
gpe = 0x620
gpe_len = 16
reset = 0xCF9
reset_value = 15
century = 50
rtc = true
keyboard = false
[hpet]
address = 0xFED00400
block_id = 0xFFFFFFFF
number = 255
min_tick = 65535
[apic]
local = 0xFEE01000
legacy = false
[[cpu]]
apic = 255
node = 2
enabled = false
[[cpu]]
apic = 4
[[ioapic]]
id = 9
address = 0xFEC00000
gsi = 24
[[ioapic]]
id = 0
address = 4294967295
[[override]]
irq = 15
gsi = 4294967295
flags = 15
[[override]]
irq = 0
gsi = 2
[[nmi]]
cpu = 1
flags = 15
lint = 0
[[nmi]]
[numa]
nodes = 3
distance = [10, 20, 30, 40, 10, 50, 60, 255, 10]
[bridge]
ecam = 0xB0000000
last_bus = 127
[[bridge.window]]
kind = \"mem64\"
base = 0x8000000000
size = 0x800000000
prefetch = true
[[bridge.window]]
kind = \"mem32\"
base = 0xC0000000
size = 0x3C000000
[[bridge.route]]
device = 31
pin = 3
gsi = 4294967295
[[bridge.route]]
device = 1
pin = 0
gsi = 16
[[uart]]
port = 0xFFF8
irq = 15
[[uart]]
port = 0x3F8
irq = 4
";
