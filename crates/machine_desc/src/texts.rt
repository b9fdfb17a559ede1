//! The texts of a machine.

ghost use Rattle.std.specs.Prelude.{◌≡◌, ℕ, List};
ghost use Rattle.std.specs.List.{list_all};
ghost use Rattle.machine_desc.specs.Rules.{is_text, is_some_text, first_failing, texts_if, texts_of, system_texts, firmware_texts};
ghost use Rattle.machine_desc.specs.Rules.{chassis_texts, socket_texts, dimm_texts, slot_texts, acpi_texts};

use crate::machine::{Acpi, Machine, System};
use crate::smbios_parts::{Chassis, Dimm, Firmware, Slot, Socket};
use vt_outside::{Text, are_printable};

impl Machine {
    pub(crate) fn has_lawful_texts(&self) -> bool
        ensures { result ≡ list_all is_text (texts_of self.now) }
    {
        let parts = [
            are_lawful(self.oem_strings.as_slice()),
            self.system.has_lawful_texts(),
            has_lawful_texts_if(&self.firmware),
            has_lawful_texts_if(&self.chassis),
            have_lawful_texts(self.sockets.as_slice()),
            have_lawful_texts(self.dimms.as_slice()),
            have_lawful_texts(self.slots.as_slice()),
            has_lawful_texts_if(&self.acpi),
        ];
        all_hold(&parts)
    }
}

// The place of the first text that is empty.
pub(crate) fn empty_text(texts: &[Text]) -> Option<usize>
    ensures { result ≡ first_failing is_some_text texts.now }
{
    texts.iter().position(|text| text.len() == 0)
}

fn all_hold(tests: &[bool]) -> bool
    ensures { result ≡ list_all (λ test. test) tests.now }
{
    tests.iter().all(|test| *test)
}

// A part of a machine that has texts.
trait HasTexts {
    ghost texts: { Self → List (List ℕ) };

    fn has_lawful_texts(&self) -> bool
        ensures { result ≡ list_all is_text (texts self.now) };
}

fn has_lawful_texts_if<P: HasTexts>(part: &Option<P>) -> bool
    ensures { result ≡ list_all is_text (texts_if P.texts part.now) }
{
    match part {
        None => true,
        Some(part) => part.has_lawful_texts(),
    }
}

fn have_lawful_texts<P: HasTexts>(parts: &[P]) -> bool
    ensures { result ≡ list_all (λ part. list_all is_text (P.texts part)) parts.now }
{
    parts.iter().all(|part| part.has_lawful_texts())
}

fn are_lawful(texts: &[Text]) -> bool
    ensures { result ≡ list_all is_text texts.now }
{
    texts.iter().all(|text| is_lawful(text))
}

impl HasTexts for System {
    ghost texts = { system_texts };

    fn has_lawful_texts(&self) -> bool {
        is_lawful(&self.manufacturer)
            && is_lawful(&self.product)
            && is_lawful(&self.version)
            && is_lawful(&self.serial)
            && is_lawful(&self.sku)
            && is_lawful(&self.family)
    }
}

impl HasTexts for Firmware {
    ghost texts = { firmware_texts };

    fn has_lawful_texts(&self) -> bool {
        is_lawful(&self.vendor) && is_lawful(&self.version) && is_lawful(&self.date)
    }
}

impl HasTexts for Chassis {
    ghost texts = { chassis_texts };

    fn has_lawful_texts(&self) -> bool {
        is_lawful(&self.manufacturer)
            && is_lawful(&self.version)
            && is_lawful(&self.serial)
            && is_lawful(&self.asset)
            && is_lawful(&self.sku)
    }
}

impl HasTexts for Socket {
    ghost texts = { socket_texts };

    fn has_lawful_texts(&self) -> bool {
        is_lawful(&self.designation)
            && is_lawful(&self.manufacturer)
            && is_lawful(&self.version)
            && is_lawful(&self.serial)
            && is_lawful(&self.asset)
            && is_lawful(&self.part)
    }
}

impl HasTexts for Dimm {
    ghost texts = { dimm_texts };

    fn has_lawful_texts(&self) -> bool {
        is_lawful(&self.locator)
            && is_lawful(&self.bank)
            && is_lawful(&self.manufacturer)
            && is_lawful(&self.serial)
            && is_lawful(&self.asset)
            && is_lawful(&self.part)
    }
}

impl HasTexts for Slot {
    ghost texts = { slot_texts };

    fn has_lawful_texts(&self) -> bool {
        is_lawful(&self.designation)
    }
}

impl HasTexts for Acpi {
    ghost texts = { acpi_texts };

    fn has_lawful_texts(&self) -> bool {
        is_lawful(&self.oem_id) && is_lawful(&self.oem_table_id)
    }
}

fn is_lawful(text: &Text) -> bool
    ensures { result ≡ is_text text.now }
{
    text.len() <= 64 && are_printable(text.as_slice())
}
