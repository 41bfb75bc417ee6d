//! The outside: what gives bytes, what takes bytes, and what holds files.
//!
//! Each trait tells by ghost members what a call did to the bytes, where the object can know it,
//! and counts its faults: a call fails only where the count rose. `MemSource::new(bytes, 10, fail)`
//! gives its bytes ten at a time, and `ReadSource::new(rt.reader())` reads standard input.
//!
//! - `traits`: sources, sinks, libraries and their faults
//! - `memory_source`, `memory_sink`, `memory_library`: objects in memory, which fail where they are told to
//! - `read_source`, `write_sink`, `folder_library`: objects over a reader, a writer and the current folder, the trusted edge
#![tactic(auto)]

mod folder_library;
mod memory_library;
mod memory_sink;
mod memory_source;
mod read_source;
mod traits;
mod write_sink;

pub use folder_library::FolderLibrary;
pub use memory_library::{Bytes, FileEntry, Files, MemLibrary};
pub use memory_sink::MemSink;
pub use memory_source::MemSource;
pub use read_source::ReadSource;
pub use traits::{Failed, Fetch, Library, Sink, Source};
pub use write_sink::WriteSink;
