//! What a running pair asks of its geometry, worked out once: no call here divides by a variable, walks over the
//! cells or allocates, but for `Tables::new`.
#![tactic(auto)]

mod tables;

pub use tables::Tables;
