//! The wide graph that threads share.
ghost use Rattle.std.specs.Prelude.{◌≡◌, ◌≤◌, ◌<◌, length, All, IfOk};
ghost use Rattle.tensor_words.specs.Worlds.{most_cells};
ghost use Rattle.wide_words.specs.WideSpaces.{IsWide};
ghost use Rattle.wide_words.specs.WideHistory.{IsWideWorld};
ghost use Rattle.wide_rule.specs.Parting.{first_view};

use crate::rule::{Running, WideView};
use crate::seat::WideSeat;
use atomic_table::Table;
use crystal_streams::NoMemory;
use std::alloc::Global;
use std::marker::Model;
use wide_words::{WideCode, WideSpace, WideWorld};

/// A crystal graph of wide words that callers of any number of threads grow together, each through a seat of its own. It
/// is shared by reference. No call on it waits for another.
#[derive(Drop)]
pub struct WideGraph {
    pub(crate) board: Table<(), WideView, WideWorld, Running, Global>,
    world: WideWorld,
}

impl Model for WideGraph {
    ghost use Rattle.std.specs.Prelude.{◌≡◌};
    ghost use Rattle.wide_rule.specs.Layout.{word_count};
    ghost use Rattle.wide_rule.specs.Values.{WideGraphValue};

    ghost Value = { WideGraphValue };

    ghost view = { λ g. record { table = g.board.shared.table_id; world = g.world } };

    ghost invariant = { λ g. (g.board.shared.key ≡ g.world) × (g.board.shared.table_id.words ≡ word_count g.world) };
}

impl WideGraph {
    /// A graph of these words of the space with no vertex, and its first seat: number 0, the numbers 1 to 2^32 - 1 to
    /// give, the whole stake and an empty front. The capacity is 1 to 1,048,576; there are 32 cells more. All memory is
    /// taken here.
    pub fn new(
        alloc: Global,
        space: WideSpace,
        capacity: u32,
        roots: Vec<WideCode>,
    ) -> Result<(WideGraph, WideSeat), NoMemory>
        requires some { 1 ≤ capacity }
        requires few { capacity ≤ most_cells }
        requires rooted { 0 < length roots.items }
        requires words { All (IsWide space) roots.items }
        ensures world { IfOk result (λ made. made.0.world ≡ record { space = space; capacity = capacity; roots = roots.items }) }
        ensures table { IfOk result (λ made. made.1.table ≡ made.0.table) }
        ensures view { IfOk result (λ made. made.1.view ≡ first_view (record { space = space; capacity = capacity; roots = roots.items })) }
    {
        let world = WideWorld::new(space, capacity, roots);
        WideGraph::of(alloc, world)
    }

    fn of(alloc: Global, world: WideWorld) -> Result<(WideGraph, WideSeat), NoMemory>
        ensures world { IfOk result (λ made. made.0.world ≡ world) }
        ensures table { IfOk result (λ made. made.1.table ≡ made.0.table) }
        ensures view { IfOk result (λ made. made.1.view ≡ first_view world) }
    {
        let cells = world.capacity() as usize + 32;
        let rank = usize::from(world.space().high().cartan().rank());
        let words = vec![in alloc; 0; 1 + 2 * cells + cells * (2 * rank)]?;
        let (board, token) = Table::of_words(alloc, words.as_slice(), &world)?;
        let graph = WideGraph { board, world };
        Ok((graph, WideSeat::first(token)))
    }

    /// The world that it grows in.
    pub fn world(&self) -> &WideWorld
        ensures value { result.now ≡ self.now.world }
        ensures world { IsWideWorld self.now.world }
    {
        let _capacity = self.world.capacity();
        &self.world
    }
}
