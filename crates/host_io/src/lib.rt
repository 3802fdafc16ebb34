//! The outside of the program. A `Source` is a stream that is read, a `Sink` one that is written, and a `Host`
//! holds all of them by their roles; `HostSource` and `HostSink` lend one role of a host. The contracts tell
//! the bytes that were taken, are left, were written and are flushed, names of files, and counts of faults: a
//! failed call raises its role's count and moves nothing, and no other call raises it. `MemoryHost` keeps its files
//! in memory and tells all; so does `SliceSource`, a source of bytes in memory. `RealHost` meets the system; it tells
//! names, counts, which bytes passed where, and all that the system was asked for, and the system is trusted for the files
//! (`port`). `NoSink` drops what is written to it. `emit` collects a text in a small buffer before its sink. Stands on nothing.
#![tactic(auto)]

mod client;
mod failing_host;
mod held;
mod host;
mod host_sink;
mod host_source;
mod law;
mod lent;
mod log;
mod made;
mod memory_host;
mod no_sink;
mod port;
mod reach;
mod real_host;
mod real_role;
mod role;
mod slice_source;
mod source;
mod stream;
mod trace;
mod whole;

pub use client::{load, put};
pub use failing_host::FailingHost;
pub use held::{HeldBytes, emit, emit_number};
pub use host::Host;
pub use host_sink::HostSink;
pub use host_source::HostSource;
pub use law::beside_kept;
pub use memory_host::{HostOutOfMemory, MemoryHost};
pub use no_sink::NoSink;
pub use real_host::RealHost;
pub use role::Role;
pub use slice_source::SliceSource;
pub use source::{Failed, Sink, Source};
pub use trace::Trace;
pub use whole::{fill, write_all};
