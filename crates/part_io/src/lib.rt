//! The edge to the outside: files that are read by name, and what is written.
//!
//! [`Shelf`] and [`Sink`] are what the rest of the program reads from and writes to. In memory they are a
//! [`SteadyShelf`] and a [`SteadySink`], whose contents a contract can name, and a [`MemShelf`] and a [`MemSink`], of
//! which chosen calls fail; over the system a [`FileShelf`], an [`OutSink`] and a [`NoteSink`], of whose bytes no
//! contract knows anything.
#![tactic(auto)]

mod answers;
mod file_shelf;
mod mem_shelf;
mod mem_sink;
mod shelf;
mod sink;
mod steady_shelf;
mod steady_sink;
mod streams;

pub use answers::{Failed, ReadAnswer};
pub use file_shelf::{FileShelf, bytes_to_end};
pub use mem_shelf::MemShelf;
pub use mem_sink::MemSink;
pub use shelf::Shelf;
pub use sink::Sink;
pub use steady_shelf::SteadyShelf;
pub use steady_sink::SteadySink;
pub use streams::{NoteSink, OutSink};
