//! A module for each crate, or for each thing that is tried of it.

mod barriers;
mod gatherings;
mod growers;
mod growths;
mod parcels;
mod runs;
mod wide_growths;
