//! A module for each crate, or for each thing that is tried of it.

mod desks;
mod jobs;
mod modes;
mod texts;
mod vertices;
