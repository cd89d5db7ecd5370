//! The text of a job: its grammar, its faults in their order, and the reader.
//!
//! **Promises.** `read_job` gives just what specs/Judge.antt judges a text to be: a `Job`, or the first line with a fault
//! and its first fault; or it wants memory. The judgement goes line by line. A key word has one row in the table
//! `table` of specs/Rules.antt: the first version of the header that has it, how many words follow it, the parts of a
//! job where its line may stand, and the part behind it. What its line makes of a job has one clause in specs/Judge.antt.
//! No call gives or takes a `Stage`: it and what it is made of are named to the outside because the judgement speaks of them.
//!
//! **Where to read.** specs/Rules.antt and specs/Judge.antt first. The code follows them: `keys` the table, `lines` what
//! a line makes of what is known, `arguments` the words behind a key word, `drafts` what is known while lines are read,
//! `roots` and `jobs` the job at the end. `commands` has what a job asks for, `faults` why it is refused.
//!
//! **Stands on** text_pieces for lines and words, tableau_reading for shapes and words of the crystal, tensor_words for
//! spaces and worlds.
#![tactic(auto)]

mod arguments;
mod commands;
mod drafts;
mod faults;
mod jobs;
mod keys;
mod lines;
mod roots;

pub use commands::{Ask, Asks, Command, Indices, Script, Scripts};
pub use drafts::{Draft, Known, Progress, Stage, TypedHead};
pub use faults::{JobFault, JobWhy};
pub use jobs::{Job, MOST_JOB_BYTES, read_job};
pub use keys::{JobPart, Version};
