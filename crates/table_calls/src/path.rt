//! The path of a code: all cells in a round, from the code's home on.
ghost use Rattle.std.specs.Prelude.{◌≡◌, ◌<◌, ◌≤◌, ◌+◌, ◌-◌, ◌%◌};
ghost use Rattle.tensor_words.specs.Worlds.{most_cells};
ghost use Rattle.graph_rule.specs.Layout.{home};

/// The odd number next to 2^64 divided by the golden ratio, which spreads codes that lie close.
pub const SPREAD: u64 = 11_400_714_819_323_198_485;

/// The cell at which the search for a code begins.
#[tactic(auto, unfolding(graph_rule::specs::Layout::home))]
pub(crate) fn home(code: u64, cells: u32) -> u32
    requires { 0 < cells }
    ensures is { result ≡ home cells code }
    ensures below { result < cells }
{
    ((code.wrapping_mul(SPREAD) >> 32) % u64::from(cells)) as u32
}

/// The cell after this one, in a round.
pub(crate) fn following(cell: u32, cells: u32) -> u32
    requires below { cell < cells }
    requires few { cells ≤ most_cells }
    ensures { result ≡ (cell + 1) % cells }
{
    if cell + 1 == cells { 0 } else { cell + 1 }
}

/// The cell with this number, in a round.
pub(crate) fn in_round(number: u32, cells: u32) -> u32
    requires within { number ≤ cells }
    requires some { 0 < cells }
    ensures { result ≡ number % cells }
{
    if number == cells { 0 } else { number }
}

/// How many steps the first straight stretch of a path has that begins at this cell: it ends before the first of all cells,
/// or before the path's last cell. What comes behind it, but for that cell, is straight too.
pub(crate) fn first_stretch(start: u32, cells: u32) -> u32
    requires { start < cells }
    ensures within { start + result ≤ cells }
    ensures steps { result < cells }
    ensures straight { (start + result) % cells + (cells - 1 - result) < cells }
{
    u32::min(cells - start, cells - 1)
}
