//! Sources, sinks and folders: what the program reads and writes, with counted faults.
#![tactic(auto)]

mod book;
mod disk;
mod finding;
mod folder;
mod held;
mod memory_file;
mod memory_folder;
mod memory_sink;
mod memory_source;
mod sink;
mod source;
mod standard;
mod steady_folder;
mod steady_sink;
mod steady_source;
mod whole;

pub use disk::{DiskFolder, FileSource};
pub use folder::{Folder, OpenStop};
pub use memory_folder::MemFolder;
pub use memory_sink::MemSink;
pub use memory_source::MemSource;
pub use sink::{Sink, write_all};
pub use source::{Failed, Source};
pub use standard::StdSink;
pub use steady_folder::SteadyFolder;
pub use steady_sink::SteadySink;
pub use steady_source::SteadySource;
pub use whole::{WholeStop, read_whole};
