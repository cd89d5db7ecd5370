//! Words and arrows of the shared graph: every word gets one cell and every arrow is drawn once, whoever does it and however many
//! callers do so at once.
//!
//! Each call makes atomic steps on one table and waits for nobody.
//!
//! **Words** (`entries`, `look_ups`). `add` promises an entry: at most one of all callers that add one word learns that it is
//! new, whoever does not get `Full` gets the same cell, and `Full` comes exactly where every cell is taken by another word.
//! `add_at` promises the same, and looks first at one cell where the word may be. `find` answers `None` exactly where the word
//! is no vertex in the front that it leaves. The code looks along its path first (`path`) and owes a debt only at an empty
//! cell; no clause says so. `SPREAD` spreads codes over cells, and over the growers' hints.
//!
//! **Arrows** (`edges`). `look` answers `Blank` exactly where the arrow is not drawn in the front that it leaves, and else what
//! is drawn. `set` draws an arrow to what its operator gives: exactly one of all callers that draw one arrow learns that it
//! did, and all others find it drawn to the same target.
//!
//! It stands on the step calls of graph_rule. Read specs/Entries.antt first, then `entries` and `edges`.
#![tactic(auto)]

mod edges;
mod entries;
mod look_ups;
mod path;

pub use edges::{look, set};
pub use entries::{add, add_at};
pub use look_ups::{find, word};
pub use path::SPREAD;
