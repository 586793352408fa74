//! The receive end of a running pair: its rounds, its takes and returns, and the watchers that see partitions arrive
//! (MPI 4.0, chapter 4).
#![tactic(auto)]

mod answers;
mod arrival;
mod laws;
mod looking;
mod parts;
mod recv_end;
mod rounds;
mod watcher;

pub use answers::{EndLook, Look, TakeRefusal};
pub use arrival::Arrival;
pub use laws::{first_laws, piece_laws};
pub use recv_end::RecvEnd;
pub use watcher::Watcher;
