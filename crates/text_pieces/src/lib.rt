//! How a byte text is cut into lines and words, and how a word is read as a decimal number.
//!
//! Each function gives exactly what the definitions of specs/Pieces.antt and specs/Numbers.antt say, for every text; it
//! borrows from the text that it is given, and takes no memory. The crate stands on std alone. Read `lines` first, then
//! `words`, which cuts at blanks what `lines` cuts at any byte, and `numbers`.
#![tactic(auto)]

mod lines;
mod numbers;
mod words;

pub use lines::{are_printed, cut};
pub use numbers::{number_of, read_digits};
pub use words::{behind, count_words, first, first_word};
