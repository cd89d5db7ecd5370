//! What a seat of a wide graph has begun.
use std::collections::LinkedList;

/// A first word that was found at a cell, and is not 0. No value of it is made.
pub struct Seen {
    pub cell: u32,
    pub word: u64,
}

/// What a seat has begun and not finished: the cells that it owes, the first words that it has seen, and the cell whose
/// first word it exchanged and whose second word it has not yet tried to exchange, if there is one. No value of it is
/// made.
pub struct WideDues {
    pub owed: LinkedList<u32>,
    pub seen: LinkedList<Seen>,
    pub pending: Option<u32>,
}
