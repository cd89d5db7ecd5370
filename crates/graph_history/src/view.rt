//! What callers of a shared graph know.
use crate::event::Event;
use std::collections::LinkedList;
use tensor_words::World;

/// What a seat has begun and not finished: the cells that it owes, those among them that are unpaid, and its pledge, 1
/// between a debt and the vertex that it is for, else 0. No value of it is made.
pub struct Dues {
    pub owed: LinkedList<u32>,
    pub unpaid: LinkedList<u32>,
    pub pledge: u64,
}

/// What a seat knows of the history of its world. Contracts alone speak of it.
pub type View = shared_seats::View<World, Event, Dues>;

/// A caller number of a seat that was joined in, with its events.
pub type Kept = shared_seats::Kept<Event>;
