//! Small graphs that several modules try.

use canonical_graph::Finished;
use crystal_cartan::{Cartan, Kind};
use plain_growth::grow_plain;
use std::alloc::Global;
use tensor_words::{Codes, Factor, Space, World};

/// The factor of vector crystals.
pub(crate) const V: Factor = Factor::Vector;

/// The tensor product of these factors.
pub(crate) fn space_of(kind: Kind, rank: u8, factors: &[Factor]) -> Option<Space> {
    Space::new(Cartan::new(kind, rank).ok()?, factors).ok()
}

/// The component of the word with this code, of at most 100 vertices.
pub(crate) fn component(
    alloc: Global,
    kind: Kind,
    rank: u8,
    factors: &[Factor],
    code: u64,
) -> Option<Finished> {
    let space = space_of(kind, rank, factors)?;
    let roots = Codes::of(vec![in alloc; code].ok()?);
    let world = World::new(space, 100, roots).ok()?;
    grow_plain(alloc, &world).ok()
}
