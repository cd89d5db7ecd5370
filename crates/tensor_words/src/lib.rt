//! Words in tensor products of base crystals: spaces, codes, the tensor product rule in its two orders, weights and
//! worlds.
//!
//! **Promises.** A `Space` is a list of factors of one Cartan type in a tensor order (`spaces`, the module to read
//! first), a `Word` one digit for each of them, and its code a number below the size of the space (`words`). The
//! operators follow the two-factor rule by its plain recursion (`rule`, `reach`), the weight is the
//! sum of the factors' (`weights`). A `World` is what a graph grows from (`worlds`). What holds of all words stands in
//! `laws`: codes and words correspond, the rule holds for two words one after the other, Kashiwara's order is the
//! standard one on reversed words, eps and phi are lengths of strings, arrows lead back.
//!
//! **Definitions** are those of Bump and Schilling, Crystal Bases (2017), chapter 2, in specs/; `TensorRule` is the one
//! to read first. Contracts see a space as its Cartan type, its list of factors and its order, a word as its list of
//! digits, and a world as its space, its number of cells and the list of its roots' codes.
//!
//! **Stands on** crystal_cartan, and on vector_crystals and spin_crystals for the elements of the factors (`elements`,
//! which gives their digits as words have them, and the reverse).
#![tactic(auto)]

mod elements;
mod laws;
mod reach;
mod rule;
mod spaces;
mod steps;
mod tables;
mod weights;
mod words;
mod worlds;

pub use elements::{letter_digit, letter_of_digit, signs_digit, signs_of_digit};
pub use laws::{
    arrows_lead_back, codes_are_lexicographic, codes_correspond, codes_of_products,
    component_list_is_unique, law_of_reversal, lengths_of_strings, one_factor_rule,
    operators_keep_words, product_rule, walks_agree,
};
pub use reach::next_code;
pub use spaces::{Factor, MOST_WORDS, Order, Space, SpaceFault};
pub use steps::Steps;
pub use tables::Row;
pub use words::{Word, word_with};
pub use worlds::{Codes, MOST_CELLS, World, WorldFault};
