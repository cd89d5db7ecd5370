//! The graph that threads share.
ghost use Rattle.std.specs.Prelude.{◌≡◌, IfOk};
ghost use Rattle.tensor_words.specs.Worlds.{IsWorld};
ghost use Rattle.graph_rule.specs.Parting.{first_view};

use crate::rule::Running;
use crate::seat::Seat;
use atomic_table::Table;
use crystal_streams::NoMemory;
use graph_history::View;
use std::alloc::Global;
use std::marker::Model;
use tensor_words::{Steps, World};

/// A crystal graph that callers of any number of threads grow together, each through a seat of its own. It is shared by
/// reference. No call on it waits for another.
#[derive(Drop)]
pub struct Graph {
    pub(crate) board: Table<(), View, World, Running, Global>,
    world: World,
    steps: Steps,
}

impl Model for Graph {
    ghost use Rattle.std.specs.Prelude.{◌≡◌};
    ghost use Rattle.graph_rule.specs.Layout.{word_count};
    ghost use Rattle.graph_rule.specs.Values.{GraphValue};

    ghost Value = { GraphValue };

    ghost view = { λ g. record { table = g.board.shared.table_id; world = g.world } };

    ghost invariant = { λ g. (g.board.shared.key ≡ g.world) × (g.board.shared.table_id.words ≡ word_count g.world) × (g.steps ≡ g.world.space) };
}

impl Graph {
    /// A graph of this world with no vertex, and its first seat: number 0, the numbers 1 to 2^32 - 1 to give, the whole
    /// stake and an empty front. All memory is taken here.
    pub fn new(alloc: Global, world: World) -> Result<(Graph, Seat), NoMemory>
        ensures world { IfOk result (λ made. made.0.world ≡ world) }
        ensures table { IfOk result (λ made. made.1.table ≡ made.0.table) }
        ensures view { IfOk result (λ made. made.1.view ≡ first_view world) }
    {
        let cells = world.cells() as usize;
        let rank = world.space().cartan().rank() as usize;
        let words = vec![in alloc; 0; 1 + cells + cells * (2 * rank)]?;
        let steps = Steps::new(alloc, *world.space())?;
        let (board, token) = Table::of_words(alloc, words.as_slice(), &world)?;
        let graph = Graph {
            board,
            world,
            steps,
        };
        Ok((graph, Seat::first(token)))
    }

    /// The tables of the operators of its world's space.
    pub fn steps(&self) -> &Steps
        ensures value { result.now ≡ self.now.world.space }
    {
        &self.steps
    }

    /// The world that it grows in.
    pub fn world(&self) -> &World
        ensures value { result.now ≡ self.now.world }
        ensures world { IsWorld self.now.world }
    {
        let _cells = self.world.cells();
        &self.world
    }
}
