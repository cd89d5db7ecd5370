//! Words and arrows of a wide graph: every pair gets one cell, whoever puts it in and however many callers do so at once, and
//! every arrow is drawn once.
//!
//! Each call makes atomic steps on one table and waits for nobody. `add` promises that at most one of all callers that add
//! one pair is told that it is new, that whoever is not told `Full` is told the same cell, and that `Full` comes exactly
//! where the pair is no vertex and there are at least as many vertices as the capacity. `find` answers `None` exactly where
//! the pair is no vertex in the front that it leaves. `look` tells what is drawn of an arrow in the front that it leaves, and
//! of all callers that draw one arrow by `set` at most one is told that it did.
//!
//! A cell with the first half of the pair that is looked for is never passed while its second word is empty: `add` finishes
//! it or sees it finished, whoever began it. A call makes no word pending that it does not try to finish.
//!
//! It stands on the step calls of wide_rule. Read specs/Entries.antt first, then `entries`.
#![tactic(auto)]

mod edges;
mod entries;
mod look_ups;
mod path;

pub use edges::{look, set};
pub use entries::add;
pub use look_ups::find;
