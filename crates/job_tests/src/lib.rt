//! Jobs and command words that are read, sessions on a plain desk, and printed answers.
//!
//! Tests alone, which promise nothing: the check of a crate's tests proves the crate a second time, so they stand
//! behind the crates that they try. The modules, in an order to read them in: `jobs` of job_text; `modes` of
//! command_words; `desks` of session_desk; `texts` and `vertices` of answer_text.
#![tactic(auto)]

#[cfg(test)]
mod tests;
