//! The vector crystals of the classical types: their letters, operators, weights and digits.
//!
//! **Promises.** The operators, string lengths and weights of letters are those of the lists of arrows in
//! `specs/VectorCrystals.antt`, the file to read first (`arrows`, `letters`); a letter and its digit determine each
//! other (`letters`); the laws of a seminormal crystal hold (`laws`).
//!
//! **Definitions** are those of Bump and Schilling, Crystal Bases (2017), chapter 2; the letters are listed in
//! `specs/Letters.antt`.
//!
//! **Stands on** crystal_cartan.
#![tactic(auto)]

mod arrows;
mod laws;
mod letters;

pub use arrows::{eps, lower, phi, raise};
pub use laws::letter_laws;
pub use letters::{Letter, base_size, digit, is_letter, of_digit, weight};
