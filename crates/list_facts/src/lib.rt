//! Lists: what all crates say of them.
//!
//! `Listed<T>` is a list of which contracts see the items in their order and nothing else, so that a value of a contract may be a
//! list. The lemmas that several crates need of lists, truth values and numbers are under proofs/, a file for each subject.
//!
//! It stands on std alone. Read `listed` first.
#![tactic(auto)]

mod listed;

pub use listed::Listed;
