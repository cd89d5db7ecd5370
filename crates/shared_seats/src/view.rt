//! What a seat knows.
use std::collections::LinkedList;

/// A caller number of a seat that was joined in, with its events. No value of it is made.
pub struct Kept<E> {
    pub number: u64,
    pub calls: LinkedList<E>,
}

/// What a seat knows: its world, its caller number with its events, the numbers that it keeps for seats that joined it, the
/// numbers that it may still give (`left` of them from `next` on), its part of the stake, its front, the fronts that it had
/// at joins, and its dues, what it has begun. A seat that was joined away has the stake 0. No value of it is made.
pub struct View<W, E, D> {
    pub world: W,
    pub number: u64,
    pub calls: LinkedList<E>,
    pub kept: LinkedList<Kept<E>>,
    pub next: u64,
    pub left: u64,
    pub stake: u64,
    pub front: LinkedList<E>,
    pub olds: LinkedList<LinkedList<E>>,
    pub dues: D,
}
