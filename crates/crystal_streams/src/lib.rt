//! Streams of bytes: where a program reads from and writes to, in memory or outside, and lines.
//!
//! **Promises.** `read_all` gives all bytes of a source, or says that there are too many, and `write_all` writes a
//! text whole or a front of it (`wholes`, the module to read first). A fault comes only where the stream counted one
//! more in that call: `Source` and `Sink` (`sources`, `sinks`) have a count of faults beside their bytes. `MemorySource`
//! and `MemorySink` (`memory`) fail at the calls that they are told to, for tests; `InputAdapter` and `OutputAdapter`
//! (`adapters`) stand before std's readers and writers, and their contracts tell nothing of the bytes. A `Line`
//! (`lines`) is one line of text while it is made, without memory of its own; `push_line` puts it behind a text.
//!
//! **Stands on** itoa, for numbers of more than one digit.
#![tactic(auto)]

mod adapters;
mod faults;
mod lines;
mod memory;
mod sinks;
mod sources;
mod wholes;

pub use adapters::{InputAdapter, OutputAdapter};
pub use faults::{Failed, NoMemory, ReadEnd, WriteFault};
pub use lines::{Line, push_line};
pub use memory::{MemorySink, MemorySource};
pub use sinks::Sink;
pub use sources::Source;
pub use wholes::{read_all, write_all};
