//! The growing crystal graph as a list of events.
//!
//! **Promises.** An event is what one caller did or found; a list of events is legal where each says the truth of the
//! graph that the ones before it have made (`event`, the module to read first; specs/History). What legal histories
//! say of crystals stands in `laws`: no word has two cells, every vertex is reached from a root, the vertices of a closed
//! graph are the reached words, where a word found no cell the reached words outnumber the cells, and the debts are at
//! least the vertices that are not whole, so that a tally of 0 tells a closed graph.
//!
//! **A desk** (`desk`) is where one caller works on such a graph. What a call does to a desk is one relation,
//! `Goes` of specs/Desks, and the acts that it names. `PlainDesk` is the desk over lists in memory, for one thread;
//! callers on many threads have desks of their own over a shared table, in the crates above. `view` has what such
//! callers know, for contracts alone.
//!
//! **Stands on** tensor_words and signature_rule for operators on codes, on shared_seats for what callers know together,
//! and on the kit's atomic_table, whose seat carries a history that a running program never stores.
#![tactic(auto)]

mod answer;
mod desk;
mod event;
mod front;
mod journal;
mod laws;
mod operators;
mod plain_calls;
mod plain_desk;
mod view;

pub use answer::{Added, Draw, Look};
pub use desk::Desk;
pub use event::{Act, Event, Origin};
pub use front::Front;
pub use laws::{
    closed_fits, closed_is_components, closed_is_reached, debts_cover, full_stays,
    spent_outnumbers, states_are_simple, states_stay, tally_closes, vertices_are_reached,
    vertices_fit,
};
pub use plain_desk::PlainDesk;
pub use view::{Dues, Kept, View};
