//! The modes, a module for each, named by its word (`match_mode` for `match`, which is a word of the language).
//!
//! What a mode promises is the file of its word under specs/Modes/. `answer_settings` in `running` calls them, a line each.

pub(crate) mod census;
pub(crate) mod grow;
pub(crate) mod match_mode;
pub(crate) mod sample;
pub(crate) mod wide;
