//! Which send initialisation is matched with which receive initialisation (MPI 4.0, 4.2.1).
#![tactic(auto)]

mod answers;
mod keys;
mod laws;
mod ledger;
mod numbers;
mod world;

pub use answers::{InitFault, Matched, WorldFault};
pub use laws::match_laws;
pub use world::World;

/// The greatest tag.
pub const MAX_TAG: u32 = 32_767;

/// The greatest communicator.
pub const MAX_COMM: u32 = 15;

/// The most bytes of all accepted initialisations of a world together.
pub const MAX_VOLUME: u64 = 67_108_864;
