/// How an allocator chooses among the addresses that are free.
#[derive(Clone, Copy, Debug, PartialEq, Eq)]
pub enum Policy {
    /// The least address.
    Low,
    /// The greatest address.
    Top,
    /// The least address at or above a goal, or where none is free there, the least in the zone. The goal is the zone's start plus the
    /// remainder by the zone's length of a word of `Pcg32::seed_from_u64` (`rand_pcg`) of this seed. Words are its 32-bit outputs in
    /// their order; each range that is handed out takes the next one, and a request that is refused takes none.
    Scatter(u64),
}
