//! Pointed components compared.
//!
//! **Promises.** `compare` (`comparing`) tells whether two components with one marked word each are the same crystal, the
//! arrows of the second relabelled: a yes lists which words stand beside each other, a no is the first list of arrows that
//! tells the two marks apart, the shortest and among these the lexicographically least. Arrows are relabelled by a
//! `Relabel` (`relabelling`): all kept, or those of the star, which exchanges lowering and raising.
//!
//! **Definitions** are in specs/; `Telling` is the one to read first. Contracts see a `Relabel` as its Cartan type and
//! whether it is the star, `Pairs` as a list of pairs of codes, and `Arrows` as a list of arrows.
//!
//! **Stands on** tensor_words for spaces and walks, and on signature_rule for the operators of a word by one pass. Read
//! `comparing` first, then `search`, which goes breadth first over pairs of codes (`found`) that the operators on two
//! marked words (`marked`) lead to.
#![tactic(auto)]

mod comparing;
mod found;
mod listings;
mod marked;
mod relabelling;
mod search;

pub use comparing::{MatchFault, Verdict, compare};
pub use listings::{Arrows, Pairs};
pub use relabelling::Relabel;
