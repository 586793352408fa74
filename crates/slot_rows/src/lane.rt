//! A lane: a run of slots, numbered one after another, and whether it was taken and is out.

/// A run of slots of a table. A seat keeps a list of lanes: its list of slots then has the slots of each lane that is
/// out, in the order of the lanes, and in a lane in the order of their numbers.
#[derive(Clone, Copy)]
pub struct Lane {
    /// The number of the first slot, counted from a slot that all lanes share.
    pub first: u32,
    /// How many slots it has.
    pub count: u32,
    /// Whether it went out at some time.
    pub taken: bool,
    /// Whether its slots are out.
    pub out: bool,
}
