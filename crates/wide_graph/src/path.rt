//! The path of a pair: all cells in a round, from the pair's home on.
ghost use Rattle.std.specs.Prelude.{◌≡◌, ◌<◌, ◌+◌, ◌%◌};
ghost use Rattle.graph_rule.specs.Layout.{home};
ghost use Rattle.wide_rule.specs.Layout.{cell_count, mixed};

use wide_rule::WideGraph;
use wide_words::WideCode;

/// The odd number next to 2^64 divided by the golden ratio, which spreads numbers that lie close.
const SPREAD: u64 = 11_400_714_819_323_198_485;

/// How many cells the graph has.
pub(crate) fn cells(graph: &WideGraph) -> u32
    ensures { result ≡ cell_count graph.now.world }
{
    graph.world().capacity() + 32
}

/// The cell at which the search for a pair begins.
#[tactic(auto, unfolding(graph_rule::specs::Layout::home))]
pub(crate) fn home(code: WideCode, cells: u32) -> u32
    requires { 0 < cells }
    ensures { result ≡ home cells (mixed code) }
{
    ((mixed(code).wrapping_mul(SPREAD) >> 32) % u64::from(cells)) as u32
}

/// The number whose path is that of the pair.
fn mixed(code: WideCode) -> u64
    ensures { result ≡ mixed code }
{
    code.high.wrapping_add(code.low.wrapping_mul(3))
}

/// The cell after this one, in a round.
pub(crate) fn following(cell: u32, cells: u32) -> u32
    requires { cell < cells }
    ensures { result ≡ (cell + 1) % cells }
{
    if cell + 1 == cells { 0 } else { cell + 1 }
}
