//! Subsets of a finished graph: Demazure subsets, and the vertices that are tops beside a weight.
//!
//! **Promises.** `demazure` (`subsets`, the module to read first) lists just the vertices that the lowering operators of
//! a list of indices make of one, the last index first, in ascending rank. `product_tops` (`tops`) lists just the
//! vertices of which every eps is at most the pairing of a weight, each with the sum of the two weights; `laws` says
//! that these are the tops of a tensor product, in both tensor orders. A top is a highest weight element: a word that
//! every raising operator takes to zero. Vertices go by their ranks.
//!
//! **Definitions** are those of Bump and Schilling, Crystal Bases (2017), section 2.3 and chapter 13, in specs/.
//!
//! **Stands on** canonical_graph for finished graphs, signature_rule for the lengths of all strings of a word.
#![tactic(auto)]

mod laws;
mod subsets;
mod tops;

pub use laws::product_tops_law;
pub use subsets::demazure;
pub use tops::product_tops;
