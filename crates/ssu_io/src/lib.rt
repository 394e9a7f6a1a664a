//! What the program reads and writes: sources, sinks and shelves, the names of files, and why a call fails.
#![tactic(auto)]

mod ahead;
mod error;
mod faults;
mod file_names;
mod folder_shelf;
mod mem_shelf;
mod mem_sink;
mod mem_source;
mod real_sink;
mod real_source;
mod shelf;
mod sink;
mod sink_buffer;
mod source;
mod std_sink;
mod stored;

pub use error::{Failed, NoMemory};
pub use file_names::{FileName, file_name, is_file_name};
pub use folder_shelf::FolderShelf;
pub use mem_shelf::MemShelf;
pub use mem_sink::MemSink;
pub use mem_source::MemSource;
pub use real_sink::RealSink;
pub use real_source::RealSource;
pub use shelf::{Shelf, ShelfError};
pub use sink::Sink;
pub use sink_buffer::SinkBuffer;
pub use source::Source;
pub use std_sink::StdSink;
