//! Wide worlds.
ghost use Rattle.std.specs.Prelude.{◌≡◌, ◌≤◌, ◌<◌, length, All};
ghost use Rattle.tensor_words.specs.Worlds.{most_cells};
ghost use Rattle.wide_words.specs.WideSpaces.{IsWide};
ghost use Rattle.wide_words.specs.WideHistory.{IsWideWorld};

use crate::spaces::{WideCode, WideSpace};
use std::marker::Model;

/// A wide space, the number of words that a graph in it may have, and the pairs of the words that it grows from.
#[derive(Debug, Drop)]
pub struct WideWorld {
    space: WideSpace,
    capacity: u32,
    roots: Vec<WideCode>,
}

impl Model for WideWorld {
    ghost use Rattle.wide_words.specs.WideHistory.{WideWorldType, IsWideWorld};

    ghost Value = { WideWorldType };

    ghost view = { λ w. record { space = w.space; capacity = w.capacity; roots = w.roots.items } };

    ghost invariant = { λ w. IsWideWorld (record { space = w.space; capacity = w.capacity; roots = w.roots.items }) };
}

impl WideWorld {
    /// The world of these words of the space. The capacity is 1 to 1,048,576, and there is at least one root.
    pub fn new(space: WideSpace, capacity: u32, roots: Vec<WideCode>) -> WideWorld
        requires some { 1 ≤ capacity }
        requires few { capacity ≤ most_cells }
        requires rooted { 0 < length roots.items }
        requires words { All (IsWide space) roots.items }
        ensures value { result ≡ record { space = space; capacity = capacity; roots = roots.items } }
        ensures world { IsWideWorld result }
    {
        let _high = space.high();
        WideWorld {
            space,
            capacity,
            roots,
        }
    }

    /// The space whose words the graph has.
    pub fn space(&self) -> &WideSpace
        ensures space { result.now ≡ self.now.space }
        ensures world { IsWideWorld self.now }
    {
        &self.space
    }

    /// The number of words that the graph may have, 1 to 1,048,576.
    pub fn capacity(&self) -> u32
        ensures capacity { result ≡ self.now.capacity }
        ensures world { IsWideWorld self.now }
    {
        self.capacity
    }

    /// The pairs of the roots.
    pub fn roots(&self) -> &[WideCode]
        ensures roots { result.now ≡ self.now.roots }
        ensures world { IsWideWorld self.now }
    {
        self.roots.as_slice()
    }
}
