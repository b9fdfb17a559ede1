ghost use Rattle.std.specs.Prelude.{◌≡◌};
ghost use Rattle.vmtables.specs.Outcome.{line_of, status_of_fault, status_of_load};

use crate::input::InputFault;
use crate::lines::{container_line, dump_line, install_line, load_line, profile_line, tables_line};
use crate::status::Status;
use anchor_scan::ScanFault;
use cfg_directory::ImageFault;
use command_acts::LoadFault;
use desc_toml::DescFault;
use memory_dump::DumpFault;
use smbios_install::InstallFault;
use table_describe::DescribeFault;
use vm_image::ImageBuildFault;
use vt_outside::{Line, OutOfMemory, words};

/// Why a command wasn't carried out whole.
#[derive(Debug, Drop)]
pub enum Fault {
    /// The source failed.
    ReadFault,
    /// The words are no command.
    Usage,
    /// The bytes describe no accepted machine; this is their first fault.
    Description(DescFault),
    /// The bytes are no container; this is their first fault.
    Container(ImageFault),
    /// The files of SMBIOS structures that a container has aren't installed, for this reason.
    Install(InstallFault),
    /// The load of a machine's image or of a container ended before its script did, for this fault.
    Load(LoadFault),
    /// The bytes are no dump.
    Dump {
        /// Their first fault.
        fault: DumpFault,
        /// The number of the line at fault, counted from 1. Of bytes that were cut off it is how many whole lines they have.
        line: u32,
    },
    /// The tables of a dump's memory have this first fault.
    Tables(ScanFault),
    /// What a dump's memory shows is no machine's.
    NotProfile {
        /// The first item in which it isn't, as `DescribeFault` numbers them.
        item: u8,
    },
    /// The sink failed.
    WriteFault,
    /// Memory ran out.
    OutOfMemory,
    /// The source gave more bytes than an input may have.
    InputTooLong,
    /// The files of the machine have more bytes than an image may have.
    ImageTooLarge,
}

impl Fault {
    /// Returns the status of a call that this fault ended.
    pub fn status(&self) -> Status
        ensures { result ≡ status_of_fault self.now }
    {
        match self {
            Fault::ReadFault => Status::ReadFault,
            Fault::Usage => Status::Usage,
            Fault::Description(_) => Status::DescriptionRefused,
            Fault::Container(_) | Fault::Install(_) => Status::ImageRefused,
            Fault::Load(fault) => status_of_load(*fault),
            Fault::Dump { .. } => Status::DumpRefused,
            Fault::Tables(_) | Fault::NotProfile { .. } => Status::TablesRefused,
            Fault::WriteFault => Status::WriteFault,
            Fault::OutOfMemory => Status::OutOfMemory,
            Fault::InputTooLong => Status::InputTooLong,
            Fault::ImageTooLarge => Status::ImageTooLarge,
        }
    }

    /// Returns the line that tells this fault, with its line feed.
    pub fn line(&self) -> Line
        ensures { result.bytes ≡ line_of self.now }
    {
        match self {
            Fault::ReadFault => words("read fault\n"),
            Fault::Usage => words("usage: vmtables build, load, decode, boot, lint or gen\n"),
            Fault::Description(refused) => refused.line(),
            Fault::Container(refused) => container_line(*refused),
            Fault::Install(refused) => install_line(*refused),
            Fault::Load(fault) => load_line(*fault),
            Fault::Dump { fault, line } => dump_line(*fault, *line),
            Fault::Tables(fault) => tables_line(*fault),
            Fault::NotProfile { item } => profile_line(*item),
            Fault::WriteFault => words("write fault\n"),
            Fault::OutOfMemory => words("out of memory\n"),
            Fault::InputTooLong => words("input too long\n"),
            Fault::ImageTooLarge => words("image too large\n"),
        }
    }
}

fn status_of_load(fault: LoadFault) -> Status
    ensures { result ≡ status_of_load fault }
{
    match fault {
        LoadFault::NoScript | LoadFault::ScriptLength | LoadFault::Command { .. } => {
            Status::ImageRefused
        }
        LoadFault::NoRoom { .. } => Status::NoRoom,
    }
}

impl From<OutOfMemory> for Fault {
    ghost use Rattle.std.specs.Prelude.{◌≡◌};
    ghost use Rattle.vmtables.specs.declared.fault.Fault.TheVariants.{OutOfMemory};

    ghost from_gives = { λ _ fault. fault ≡ OutOfMemory };

    fn from(_fault: OutOfMemory) -> Fault {
        Fault::OutOfMemory
    }
}

impl From<InputFault> for Fault {
    ghost use Rattle.std.specs.Prelude.{◌≡◌};
    ghost use Rattle.vmtables.specs.Causes.{input_fault};

    ghost from_gives = { λ why fault. fault ≡ input_fault why };

    fn from(fault: InputFault) -> Fault {
        match fault {
            InputFault::Failed => Fault::ReadFault,
            InputFault::TooLong => Fault::InputTooLong,
            InputFault::OutOfMemory => Fault::OutOfMemory,
        }
    }
}

impl From<DescFault> for Fault {
    ghost use Rattle.vmtables.specs.Causes.{IsOfDescription};

    ghost from_gives = { IsOfDescription };

    fn from(fault: DescFault) -> Fault {
        match fault {
            DescFault::OutOfMemory => Fault::OutOfMemory,
            refused => Fault::Description(refused),
        }
    }
}

impl From<ImageBuildFault> for Fault {
    ghost use Rattle.vmtables.specs.Causes.{IsOfImage};

    ghost from_gives = { IsOfImage };

    fn from(fault: ImageBuildFault) -> Fault {
        match fault {
            ImageBuildFault::ImageTooLarge => Fault::ImageTooLarge,
            ImageBuildFault::OutOfMemory => Fault::OutOfMemory,
        }
    }
}

impl From<ImageFault> for Fault {
    ghost use Rattle.vmtables.specs.Causes.{IsOfContainer};

    ghost from_gives = { IsOfContainer };

    fn from(fault: ImageFault) -> Fault {
        match fault {
            ImageFault::OutOfMemory => Fault::OutOfMemory,
            refused => Fault::Container(refused),
        }
    }
}

impl From<InstallFault> for Fault {
    ghost use Rattle.vmtables.specs.Causes.{IsOfInstalling};

    ghost from_gives = { IsOfInstalling };

    fn from(fault: InstallFault) -> Fault {
        match fault {
            InstallFault::OutOfMemory => Fault::OutOfMemory,
            refused => Fault::Install(refused),
        }
    }
}

impl From<LoadFault> for Fault {
    ghost use Rattle.std.specs.Prelude.{◌≡◌};
    ghost use Rattle.vmtables.specs.declared.fault.Fault.TheVariants.{Load};

    ghost from_gives = { λ why fault. fault ≡ Load why };

    fn from(fault: LoadFault) -> Fault {
        Fault::Load(fault)
    }
}

impl From<ScanFault> for Fault {
    ghost use Rattle.vmtables.specs.Causes.{IsOfTables};

    ghost from_gives = { IsOfTables };

    fn from(fault: ScanFault) -> Fault {
        match fault {
            ScanFault::OutOfMemory => Fault::OutOfMemory,
            refused => Fault::Tables(refused),
        }
    }
}

impl From<DescribeFault> for Fault {
    ghost use Rattle.vmtables.specs.Causes.{IsOfDescribing};

    ghost from_gives = { IsOfDescribing };

    fn from(fault: DescribeFault) -> Fault {
        match fault {
            DescribeFault::NotProfile { item } => Fault::NotProfile { item },
            DescribeFault::OutOfMemory => Fault::OutOfMemory,
        }
    }
}
