use crate::reading::Reading;
use command_acts::LoadFault;

/// How far the firmware of a load is.
#[derive(Clone, Copy, Debug, PartialEq, Eq)]
pub enum Stage {
    /// It asks for a transfer. The one of a placed file is asked for in the step that places it.
    Asks(Reading),
    /// It awaits the transfer that it asked for.
    Awaits(Reading),
    /// It comes to the command of an index, or to the script's end.
    AtCommand(u32),
    /// It awaits the skip to where the WritePointer of an index writes, for which it asked in the step that came to the command.
    AwaitsSkip(u32),
    /// It asks for the write of the WritePointer of an index.
    AsksWrite(u32),
    /// It awaits that write.
    AwaitsWrite(u32),
    /// It has carried out the whole script.
    Done,
    /// It has ended before the script did.
    Refused(LoadFault),
}
