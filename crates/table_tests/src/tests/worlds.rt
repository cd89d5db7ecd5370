//! Small worlds.
use crystal_cartan::{Cartan, Kind};
use tensor_words::{Codes, Factor, Space, World};

/// The words of these factors in A_1, with so many cells and at most eight roots.
pub(super) fn world(factors: &[Factor], cells: u32, roots: Vec<u64>) -> Option<World> {
    let cartan = Cartan::new(Kind::A, 1).ok()?;
    let space = Space::new(cartan, factors).ok()?;
    if roots.len() > 8 {
        return None;
    }
    World::new(space, cells, Codes::of(roots)).ok()
}
