//! Edges.

/// A message that passes from one rank to another in each step: the rows of a grid that the receiver lacks.
#[derive(Clone, Copy, Debug, PartialEq, Eq)]
pub struct Edge {
    /// The rank that sends.
    pub from: u32,
    /// The rank that receives. With two ranks, and rows that go round the grid, two edges go each way.
    pub to: u32,
    /// The first of the rows, as many as the weights reach.
    pub row: u32,
    /// 1 where the sender's last rows go to the rank behind it, and 2 where its first rows go to the one before it.
    pub tag: u32,
}
