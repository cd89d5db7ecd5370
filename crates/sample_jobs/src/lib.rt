//! Sample jobs: a generated job for each number, to try and to time growth with.
//!
//! **Promises.** `sample_text` gives the generated job of a number, as specs/Samples.antt says, and `sample_job` what it is
//! judged to be; every sample is a job of four sessions with 64 commands each (`samples_are_jobs`).
//!
//! **Stands on** job_text for the judgement, tensor_words and tableau_reading for words and their texts.
#![tactic(auto)]

mod samples;

pub use samples::{SAMPLE_COMMANDS, SAMPLE_SESSIONS, sample_job, sample_text, samples_are_jobs};
