//! The texts of grids and weights, read and printed, the generator of grids and the summary of a grid.
#![tactic(auto)]

mod fault;
mod make;
mod number;
mod print;
mod read;
mod records;
mod rows;
mod summary;

pub use fault::TextFault;
pub use make::make_grid;
pub use number::{NumberFault, signed_within};
pub use print::print_grid;
pub use read::{read_grid, read_weights};
pub use summary::print_summary;
