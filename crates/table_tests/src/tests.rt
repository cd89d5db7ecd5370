//! A module for each crate, or for each thing that is tried of it.

mod cells;
mod crowds;
mod edges;
mod histories;
mod rules;
mod tight_seats;
mod wide_cells;
mod wide_worlds;
mod worlds;
