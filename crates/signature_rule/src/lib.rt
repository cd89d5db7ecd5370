//! The operators on words by the signature rule: one pass over the factors for each call.
//!
//! **Promises.** eps, phi, f_i and e_i of a word are those of the tensor product rule, in the order of the word's
//! space (`operators`, the module to read first). `lift` raises a word to the top of its component (`raising`). The
//! words of a space make a seminormal crystal (`laws`).
//!
//! For many words, `places` finds where the operators of all indices act on a word, and the lengths of all its strings,
//! by one pass over a space with tables; an operator is then a difference of codes. `LastWord` (`last_word`) keeps these
//! places from call to call, for callers that follow the arrows of one word after another. `arrow_order` has the order
//! in which all callers take arrows: f_1 to f_r, and then e_1 to e_r.
//!
//! **The rule** is that of Bump and Schilling, Crystal Bases (2017), section 2.4. Each factor writes closing signs
//! and then opening signs; an opening sign directly left of a closing sign is cancelled with it, until none stands so
//! (`brackets`). In the standard order the closing signs are phi and the opening signs eps: f_i acts at the rightmost
//! phi that is left over, e_i at the leftmost eps. In Kashiwara's order the two kinds of signs change their parts.
//!
//! **Stands on** tensor_words, with whose plain recursion word_tests compares it.
#![tactic(auto)]

mod arrow_order;
mod brackets;
mod last_word;
mod laws;
mod operators;
mod places;
mod raising;

pub use arrow_order::{arrow_at, arrow_place};
pub use last_word::LastWord;
pub use laws::{word_laws, words_are_seminormal};
pub use operators::{act, eps, lower, phi, raise};
pub use places::{ActingPlaces, StringLengths, lowered_code, places_of, raised_code, strings_of};
pub use raising::lift;
