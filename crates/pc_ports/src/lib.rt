//! The outside world: where sources are read from and answers are written to.
//!
//! [`Store`] and [`Sink`] say what a caller may rely on. [`MemoryStore`] and [`MemorySink`] tell all
//! that they hold and fail exactly where they are told to; [`HostStore`] and [`HostSink`] are the
//! files and the standard output of the system.
#![tactic(auto)]

mod host_reads;
mod host_writes;
mod lists;
mod memory_reads;
mod memory_writes;
mod reads;
mod writes;

pub use host_reads::HostStore;
pub use host_writes::HostSink;
pub use lists::{Calls, Files, LAST_COUNT, NoMemory};
pub use memory_reads::MemoryStore;
pub use memory_writes::MemorySink;
pub use reads::{FetchFault, Store};
pub use writes::{Sink, WriteFault, put_all};
