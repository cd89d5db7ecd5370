//! What a comparison answers with: pairs of codes, and arrows.

use crystal_cartan::Arrow;
use list_facts::Listed;

/// A list of pairs of codes.
pub type Pairs = Listed<(u64, u64)>;

/// A list of arrows, to be applied in turn.
pub type Arrows = Listed<Arrow>;
