//! A module for each crate, or for each thing that is tried of it.

mod letters;
mod pieces;
mod places;
mod readings;
mod signatures;
mod spaces;
mod spins;
mod streams;
mod tensors;
mod types;
