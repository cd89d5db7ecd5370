//! The answers to asks, as values.

use crystal_cartan::Weight;
use tableau_reading::Shape;

/// What an ask about a finished graph is answered. Vertices stand as their ranks.
#[derive(Debug, Drop)]
pub enum AskAnswer {
    /// The members of the Demazure subset of these indices, in ascending rank.
    Demazure {
        indices: Vec<u8>,
        ranks: Vec<u32>,
    },
    /// The vertices that are tops beside the top of this shape, in ascending rank, each with the weight of the product.
    Tops {
        shape: Shape,
        tops: Vec<(u32, Weight)>,
    },
    /// The images of all vertices under the crystal reflection at this index, in ascending rank of the vertices.
    Reflection {
        index: u8,
        images: Vec<u32>,
    },
}
