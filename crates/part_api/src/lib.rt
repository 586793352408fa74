//! Requests of partitioned communication (MPI 4.0, chapter 4): their states, and starts and tests through them; and
//! the list of what closed pairs leave.
#![tactic(auto)]

mod census;
mod faults;
mod plain;
mod request;
mod ruled;

pub use census::Census;
pub use faults::{FreeFault, Freed, ReqFault};
pub use part_geometry::Side;
pub use plain::{start_recv_plain, start_send_plain, test_recv_plain, test_send_plain};
pub use request::{ReqState, Request};
pub use ruled::{start_recv_ruled, start_send_ruled, test_recv_ruled, test_send_ruled};
