//! Characters of finished graphs, crystal reflections, and statistics, which are fed the vertices one after another.
//!
//! What it promises: `character` lists the weights that occur, falling, each with its multiplicity, and a graph has but
//! one such list (`characters_are_unique`); `reflect` gives the crystal reflection of a vertex, which reflects its weight
//! and is its own inverse; `feed` and `feed_chosen` feed statistics every vertex once, in ascending rank; each of the
//! three statistics reports by its rule what it was fed. The multiplicity of a weight is the number of vertices that have
//! it. The reflection of a vertex is that of Bump and Schilling, Crystal Bases (2017), chapter 2: f_i or e_i as often as
//! the pairing of its weight says.
//!
//! It stands on `canonical_graph`, whose finished graphs it reads by rank, on `signature_rule` for strings of words, and on
//! `tableau_reading` for weights as text. Read `statistics` first: it says what a statistic is; then `items`, what one is
//! fed, and `feeding`. The three keep their items in a `Tally`, which reports them by a rule (`rules`). A new statistic is a
//! rule like `Ends`, with its definition in `specs/Reports`, or a type of its own.
#![tactic(auto)]

mod character_tally;
mod counting;
mod end_tally;
mod feeding;
mod items;
mod laws;
mod printing;
mod reflections;
mod rules;
mod statistics;
mod string_tally;
mod tallies;
mod weights;

pub use character_tally::CharacterTally;
pub use counting::character;
pub use end_tally::EndTally;
pub use feeding::{feed, feed_chosen};
pub use items::Item;
pub use laws::{characters_are_unique, reflections_keep_multiplicities, tallies_are_exact};
pub use reflections::reflect;
pub use rules::{Rule, Tally};
pub use statistics::Statistic;
pub use string_tally::StringTally;
pub use tallies::{Character, Multiplicity};
