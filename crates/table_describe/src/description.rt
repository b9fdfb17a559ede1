ghost use Rattle.std.specs.Prelude.{◌≡◌, ◌⊎◌, Ok, Err, MatchOption, IfOk, IfErr};
ghost use Rattle.machine_desc.specs.declared.machine.Machine.{Machine as AMachine};
ghost use Rattle.machine_desc.specs.Rules.{IsAccepted};
ghost use Rattle.machine_desc.specs.Fields.{HasFittingFields};
ghost use Rattle.table_model.specs.Inventory.{inventory_of};
ghost use Rattle.inventory_items.specs.Items.{items, IsFirstDifference};
ghost use Rattle.table_describe.specs.declared.description.DescribeFault.TheVariants.{NotProfile, OutOfMemory as NoMemory};
ghost use Rattle.table_describe.specs.Candidate.{candidate};
ghost use Rattle.table_describe.specs.Failing.{IsFirstFailing};
ghost use Rattle.table_describe.specs.Answered.{answered};

use crate::candidate::candidate_of;
use inventory_items::first_difference;
use inventory_items::laws::inventories_that_agree_are_one;
use machine_desc::Machine;
use std::alloc::Global;
use table_model::{Inventory, inventory_of};
use vt_outside::OutOfMemory;

/// Why an inventory isn't described.
#[derive(Clone, Copy, Debug, PartialEq, Eq)]
pub enum DescribeFault {
    /// No machine has the inventory. The item is the first that fails: 0 where the machine that is read out of it breaks a rule, and else
    /// the first in which the inventory isn't that machine's: 1 top and anchor, 2 structures, 3 RSDP and the XSDT's header, 4 FADT and FACS,
    /// 5 DSDT and the id of the generation, 6 MADT, 7 SRAT, 8 SLIT, 9 MCFG, 10 HPET, 11 other tables.
    NotProfile {
        /// The item's number.
        item: u8,
    },
    /// Memory ran out.
    OutOfMemory,
}

impl From<OutOfMemory> for DescribeFault {
    ghost from_gives = { λ _ fault. fault ≡ NoMemory };

    fn from(_fault: OutOfMemory) -> DescribeFault {
        DescribeFault::OutOfMemory
    }
}

/// Returns the machine whose inventory is `inventory`. There is at most one that is accepted. Its lists and texts, and those of a second
/// inventory that is made for the comparison, take their memory from `alloc`, copies of texts from those texts' allocators.
pub fn describe(alloc: Global, inventory: &Inventory) -> Result<Machine, DescribeFault>
    // A machine that is returned is accepted, and the inventory is its own.
    ensures accepted { IfOk result IsAccepted }
    ensures its { IfOk result (λ machine. inventory_of machine ≡ inventory.now) }

    // The machine whose inventory it is is returned, if memory suffices.
    ensures found { (machine : AMachine) → IsAccepted machine → HasFittingFields machine → inventory_of machine ≡ inventory.now
        → (result ≡ Ok machine) ⊎ (result ≡ Err NoMemory) }

    // An item that is told is the first that fails.
    ensures refused { IfErr result (λ fault. (fault ≡ NoMemory) ⊎ ((item : _) × (fault ≡ NotProfile item) × IsFirstFailing inventory.now item)) }
{
    let machine = candidate_of(alloc, inventory)?;
    let found = first_failing(alloc, inventory, &machine);
    answer(machine, found)
}

// The answer of a candidate, by the item that was found to fail.
fn answer(
    machine: Machine,
    found: Result<Option<u8>, OutOfMemory>,
) -> Result<Machine, DescribeFault>
    ensures { result ≡ answered machine found }
{
    match found {
        Ok(None) => Ok(machine),
        Ok(Some(item)) => {
            drop(machine);
            Err(DescribeFault::NotProfile { item })
        }
        Err(OutOfMemory) => {
            drop(machine);
            Err(DescribeFault::OutOfMemory)
        }
    }
}

// The first item that fails of an inventory with this candidate.
fn first_failing(
    alloc: Global,
    inventory: &Inventory,
    machine: &Machine,
) -> Result<Option<u8>, OutOfMemory>
    requires { machine.now ≡ candidate inventory.now }
    ensures { IfOk result (λ found. MatchOption found (IsAccepted machine.now × (inventory.now ≡ inventory_of machine.now)) (IsFirstFailing inventory.now)) }
{
    match machine.check() {
        Ok(()) => differing(alloc, inventory, machine),
        Err(_) => Ok(Some(0)),
    }
}

// The first item in which an inventory isn't that of an accepted machine.
fn differing(
    alloc: Global,
    inventory: &Inventory,
    machine: &Machine,
) -> Result<Option<u8>, OutOfMemory>
    requires { IsAccepted machine.now }
    ensures { IfOk result (λ found. MatchOption found (inventory.now ≡ inventory_of machine.now)
        (IsFirstDifference 1 items inventory.now (inventory_of machine.now))) }
{
    inventories_that_agree_are_one();
    let its = inventory_of(alloc, machine)?;
    let found = first_difference(alloc, inventory, &its);
    drop(its);
    found
}
