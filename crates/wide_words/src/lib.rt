//! Words of two machine words: a word of a high space followed by a word of a low one, and the growing graphs of such
//! words.
//!
//! **Promises.** A `WideSpace` is two spaces of one Cartan type and one tensor order, and its word is held as a pair of
//! codes, a `WideCode` (`spaces`, the module to read first). `act` is the operator on the word of all factors
//! (`operators`); `WideSteps` finds all operators of a word by one pass over each half (`steps`). A `WideWorld` is what a
//! graph of wide words grows from (`worlds`). What holds of pairs and of legal histories of such a graph stands in `laws`:
//! pairs and codes correspond and ascend alike, every vertex is reached, the vertices of a closed graph are the reached
//! words and are counted as they are, a word that finds no room means that the reached words outnumber the capacity. That
//! vertices and arrows stay in every longer history is a law of graph_history, `states_stay`, which speaks of all lists of
//! events.
//!
//! **Definitions** stand in specs/; `WideSpaces` is the one to read first, then `WideHistory`. The code of a wide word is a
//! number without limit, that of the word of all factors (`number`); a pair is how two machine words hold it. So a wide
//! graph is a graph over the whole space, and its states, events and calls are those of graph_history. Only two acts have
//! other conditions, since a graph has some cells more than its capacity; and it has no debts.
//!
//! **Stands on** tensor_words for words and the tensor product rule, signature_rule for the operators of each half, and
//! graph_history for histories.
#![tactic(auto)]

mod laws;
mod operators;
mod spaces;
mod steps;
mod worlds;

pub use laws::{
    counts_are_unique, pairs_are_words, pairs_ascend, pairs_correspond, vertices_are_pairs,
    wide_closed_fits, wide_closed_is_components, wide_closed_is_counted, wide_closed_is_reached,
    wide_full_stays, wide_spent_outnumbers, wide_states_are_simple, wide_vertices_are_reached,
    wide_vertices_fit,
};
pub use spaces::{Mixed, WideCode, WideSpace};
pub use steps::{WideReading, WideSteps};
pub use worlds::WideWorld;
