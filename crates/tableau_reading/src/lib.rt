//! Tableaux read as words, and the texts of words and weights.
//!
//! **Promises.** A `Shape` (`shapes`, the module to read first) has rows that fall, at most as many as a weight of the
//! type has coordinates, and at most 40 boxes; it is made by `Shape::new` or refused for the first fault that applies.
//! Its words are read column by column, from the other end in Kashiwara's tensor order (`readings`), and a `Filling` is
//! read as a word and back (`fillings`). In both orders the top word has the shape's weight, and no raising operator
//! applies to it (`laws`). A word is read from its text exactly as specs/Tokens.antt says (`parsing`), and printed
//! (`printing`) so that it is read back.
//!
//! **Definitions** are those of Bump and Schilling, Crystal Bases (2017), chapters 3 and 6, in specs/; `Readings` is the
//! one to read first. Contracts see a shape as its type, its list of row lengths and its tensor order, a filling as a
//! shape and the letters of its rows.
//!
//! **Stands on** tensor_words for words and spaces, vector_crystals and spin_crystals for their elements, text_pieces
//! for words of a line, crystal_streams for a line of output.
#![tactic(auto)]

mod fillings;
mod laws;
mod parsing;
mod printing;
mod readings;
mod shapes;

pub use fillings::Filling;
pub use laws::{text_laws, top_laws};
pub use parsing::{WordFault, read_word};
pub use printing::{print_weight, print_word};
pub use shapes::{Shape, ShapeFault};
