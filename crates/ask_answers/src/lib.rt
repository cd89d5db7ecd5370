//! The answers to the asks of a job about its finished graph, as values: Demazure subsets over the first start, tops of
//! products with the crystal of a shape, and crystal reflections.
//!
//! **Promises.** `answers` (`asks`, the module to read first) gives the answers in the order of the asks, each as
//! specs/Answers.antt says, and all of them can be printed.
//!
//! **Definitions** are those of Bump and Schilling, Crystal Bases (2017).
//!
//! **Stands on** crystal_subsets and crystal_characters, which compute the answers (`subsets`, `tops`, `reflections`), and on
//! job_text for the asks. `values` has the type of answers; answer_text prints them.
#![tactic(auto)]

mod asks;
mod reflections;
mod subsets;
mod tops;
mod values;

pub use asks::answers;
pub use values::AskAnswer;
