//! The tests of the stencil's crates, over what they export. What is text in and text out stands in `cases/`.
#![tactic(auto)]

#[cfg(test)]
mod cells;
#[cfg(test)]
mod edge;
#[cfg(test)]
mod runs;
