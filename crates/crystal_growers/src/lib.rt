//! Growth of the shared graph on several threads.
//!
//! `expand` (`expansion`) draws all arrows of one cell, on any desk. What it puts in comes by arrows of this cell alone.
//! Growers do the same on the shared table, and draw with each arrow the arrow back (`both_ends`), so that no arrow is looked
//! up from both of its ends; and they remember where words stood. No clause says so.
//!
//! `grow` (`growth`) draws all arrows of the given cells and of all that it adds, by growers on threads of their own, each at
//! a seat that is split off and joins again. No grower waits for another. The given cells are loaded as parcels on the
//! growers' deques (`starting`). A grower (`grower`) takes the parcels of its own deque, and steals those of others where it
//! has none; it draws their cells, pays for each as soon as it is whole, and loads the cells that it added (`offering`). What
//! no stake or number is left for, or what the deque refuses, it draws itself, with all that comes of it (`drawing`). In the
//! end all seats join, all passes come home, and what is left in the deques is drawn too (`closing`, `sweeping`). Where it
//! answers `Closed`, every given cell and every cell that the seat owes has all its arrows, and of the unpaid cells just
//! those are left that were not given. It answers `Full` only where one of its own events says that a word found no cell.
//! With either answer all stake is back, so that all growers' seats and all parcels have come back; the seat keeps the number
//! of each grower, and it owes still what it owed. That stake is back rests on what parcel_deques promises: each parcel that
//! was loaded is taken once. After want of memory part of the stake may be lost; the numbers kept before are kept. That
//! growers run side by side, and that parcels are stolen, is tested alone.
//!
//! It stands on shared_desk for the desk at a seat, on graph_rule for seats, on parcel_deques for parcels and deques, on
//! worker_gate for where growers pass, and on graph_history for what desks promise. Read `expansion` with
//! specs/Expansion.antt first, then `growth` with specs/Growth.antt, and `grower` with specs/Grower.antt.
#![tactic(auto)]

mod expansion;
mod grower;
mod growth;

pub use expansion::{Spent, expand};
pub use growth::{Grown, grow};
