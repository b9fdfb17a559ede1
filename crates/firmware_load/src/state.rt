use command_acts::LoadFault;

/// How far a world is.
#[derive(Clone, Copy, Debug, PartialEq, Eq)]
pub enum State {
    /// Nothing was begun.
    Idle,
    /// A load was begun, and hasn't ended.
    Running,
    /// The load carried out its whole script.
    Done,
    /// The load ended before its script did.
    Refused(LoadFault),
}
