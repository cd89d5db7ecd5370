//! Small spaces.
use crystal_cartan::{Cartan, Kind};
use tensor_words::{Factor, Space};

/// The space of these factors, in the standard order.
pub(super) fn made(kind: Kind, rank: u8, factors: &[Factor]) -> Option<Space> {
    Space::new(Cartan::new(kind, rank).ok()?, factors).ok()
}
