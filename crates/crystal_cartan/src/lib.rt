//! Cartan data of the classical types: ranks, simple roots, pairings, reflections and weights.
//!
//! **Promises.** A `Cartan` is one of the types A_1 to A_8, B_2 to B_8, C_2 to C_8 and D_3 to D_8 (`types`, the module
//! to read first); its simple roots, pairings and simple reflections are those of the tables (`roots`). A `Weight` has
//! doubled coordinates, so that every weight of a spin crystal is whole; sums and differences are exact (`weights`).
//!
//! **Definitions** are those of Bump and Schilling, Crystal Bases (2017), chapter 2: in specs/, `Types` and `Weights`.
//! What all crates above share is defined here too: crystals as lists of arrows, and how an index acts on a crystal
//! (`Crystals`), the laws of a seminormal crystal (`Seminormal`), and short lists kept in arrays (`Padded`).
//!
//! **Stands on** std alone.
#![tactic(auto)]

mod roots;
mod types;
mod weights;

pub use types::{Arrow, Cartan, Kind, RankRange};
pub use weights::Weight;
