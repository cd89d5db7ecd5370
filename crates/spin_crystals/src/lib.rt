//! The spin crystals of the types B and D.
//!
//! **Promises.** The operators, string lengths and weights of vectors of signs are those of the lists of arrows in
//! `specs/SpinCrystals.antt`, the file to read first (`operators`, `weights`); a vector and its digit determine each
//! other, in the whole crystal of B and in each half of D (`digits`); the laws of a seminormal crystal hold (`laws`).
//!
//! **Definitions** are those of Bump and Schilling, Crystal Bases (2017), chapter 5. A vector is kept as the bits of
//! its minus signs (`signs`).
//!
//! **Stands on** crystal_cartan.
#![tactic(auto)]

mod digits;
mod laws;
mod operators;
mod signs;
mod weights;

pub use digits::{base_size, digit, of_digit};
pub use laws::spin_laws;
pub use operators::{eps, lower, phi, raise};
pub use signs::{Half, Signs};
pub use weights::weight;
