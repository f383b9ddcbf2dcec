//! The outside as traits: files, input and output, and all three in memory.
#![tactic(auto)]

mod calls;
mod copying;
mod ends;
mod mem_files;
mod mem_sink;
mod mem_source;
mod writing;

pub use ends::{Failed, Files, Sink, Source};
pub use mem_files::MemFiles;
pub use mem_sink::MemSink;
pub use mem_source::MemSource;
pub use writing::{WriteFailed, write_all};
