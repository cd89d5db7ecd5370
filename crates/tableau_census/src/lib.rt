//! The semistandard tableaux of a shape of type A, listed without operators.
//!
//! **Promises.** `census` (`counting`) lists in ascending order the codes of the column readings of all semistandard
//! fillings of a shape, and that list is the component of the shape's top word: what the operators reach from it. It
//! tells exactly where there are more than a limit, and answers `NotTypeA` exactly for the other types. `laws` has the
//! steps of the theorem: operators keep semistandard readings, and the top word alone among them is highest. The
//! listing puts a digit into a box only where a semistandard reading begins so.
//!
//! **Definitions** are those of Bump and Schilling, Crystal Bases (2017), chapter 3, in specs/; `Semistandard` is the one
//! to read first, then `Outcomes`. `Listing` is the order in which the code goes. In proofs/, `Theorem` joins the two
//! halves: `Reached` (by `OpenPlaces`, where an operator changes a word, `Kept` and `Highest`) and `Listed`.
//!
//! **Stands on** tableau_reading for shapes and their readings, tensor_words for words and lists of codes.
#![tactic(auto)]

mod counting;
mod laws;

pub use counting::{CensusFault, census};
pub use laws::{
    beginnings_are_completed, census_is_component, census_is_unique, only_top_is_highest,
    operators_keep_semistandard, readings_are_of_fillings,
};
