//! The command words of the program: what they ask for, or why they are refused.
//!
//! **Promises.** `read_words` gives the settings that the words ask for, or the first fault, exactly as `judge_words`
//! of `specs/Judge.antt` says (`reading`, the module to read first). Statistics are known by the names that the caller
//! hands in, and are chosen as places among these (`statistics`, `settings`).
//!
//! **Stands on** the kit's `clap`, which cuts the words into a mode, a second word and the rest, and answers nothing itself;
//! crystal_cartan and tableau_reading for the shape of a census.
#![tactic(auto)]

mod arguments;
mod census;
mod fault;
mod number;
mod reading;
mod settings;
mod statistics;

pub use fault::WordsFault;
pub use reading::read_words;
pub use settings::{Places, Relabelling, Settings};
