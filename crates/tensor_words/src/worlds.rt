//! Lists of codes, and worlds.
ghost use Rattle.std.specs.Prelude.{◌≡◌, ℕ, ◌+◌, ◌≤◌, ◌<◌, ◌^◌, ◌↔◌, length, IsTrue, IfOk, None, All, Contains};
ghost use Rattle.std.specs.List.Sorted.{IsStrictlyIncreasing};
ghost use Rattle.tensor_words.specs.Worlds.{IsWorld, world_of, place_of_no_word, place_of_no_rise};

use crate::spaces::Space;
use list_facts::Listed;
use std::marker::Model;

/// The most cells of a world.
pub const MOST_CELLS: u32 = 1_048_576;

/// A list of codes.
pub type Codes = Listed<u64>;

/// Why a space, a number of cells and roots make no world.
#[derive(Clone, Copy, Debug, PartialEq, Eq)]
pub enum WorldFault {
    /// The number of cells is outside 1 to 1,048,576.
    CellsRange,
    /// There is no root.
    NoRoot,
    /// The code at this place, counted from 1, is no word of the space.
    NotAWord { place: u32 },
    /// The code at this place, counted from 1, is not above the one before.
    NotAscending { place: u32 },
}

/// A space, the number of cells that a graph in it may take, and the codes of the words that it grows from,
/// strictly ascending.
#[derive(Debug, Drop)]
pub struct World {
    space: Space,
    cells: u32,
    roots: Codes,
}

impl Model for World {
    ghost use Rattle.tensor_words.specs.Worlds.{WorldType, IsWorld};

    ghost Value = { WorldType };

    ghost view = { λ w. record { space = w.space; cells = w.cells; roots = w.roots } };

    ghost invariant = { λ w. IsWorld (record { space = w.space; cells = w.cells; roots = w.roots }) };
}

impl World {
    /// The world, or the first fault that applies. On a fault the roots are dropped.
    #[tactic(auto, unfolding(crate::specs::Worlds::world_of))]
    pub fn new(space: Space, cells: u32, roots: Codes) -> Result<World, WorldFault>
        requires few { length roots < 2 ^ 32 }
        ensures exact { result ≡ world_of space cells roots }
        ensures world { IfOk result IsWorld }
    {
        if cells == 0 || cells > MOST_CELLS {
            return Err(WorldFault::CellsRange);
        }
        if roots.len() == 0 {
            return Err(WorldFault::NoRoot);
        }
        if let Some(place) = first_no_word(roots.as_slice(), space.size()) {
            return Err(WorldFault::NotAWord { place });
        }
        if let Some(place) = first_no_rise(roots.as_slice()) {
            return Err(WorldFault::NotAscending { place });
        }
        Ok(World {
            space,
            cells,
            roots,
        })
    }

    /// The space whose words the graph has.
    pub fn space(&self) -> &Space
        ensures space { result.now ≡ self.now.space }
        ensures world { IsWorld self.now }
    {
        &self.space
    }

    /// The number of cells, 1 to 1,048,576.
    pub fn cells(&self) -> u32
        ensures cells { result ≡ self.now.cells }
        ensures world { IsWorld self.now }
    {
        self.cells
    }

    /// The codes of the roots.
    pub fn roots(&self) -> &Codes
        ensures roots { result.now ≡ self.now.roots }
        ensures world { IsWorld self.now }
    {
        &self.roots
    }

    /// Whether this is the code of a root.
    pub fn has_root(&self, code: u64) -> bool
        ensures { IsTrue result ↔ Contains self.now.roots code }
    {
        self.roots.as_slice().binary_search(&code).is_ok()
    }
}

/// The first place, counted from 1, whose code is not below the size.
fn first_no_word(codes: &[u64], size: u64) -> Option<u32>
    requires { length codes.now < 2 ^ 32 }
    ensures place { result ≡ place_of_no_word size 1 codes.now }
    ensures words { result ≡ None → All (λ c. c < size) codes.now }
{
    for (place, code) in codes.iter().enumerate() {
        if *code >= size {
            return Some(place as u32 + 1);
        }
    }
    None
}

/// The first place, counted from 1, whose code is not above the one before.
fn first_no_rise(codes: &[u64]) -> Option<u32>
    requires few { length codes.now < 2 ^ 32 }
    requires some { 0 < length codes.now }
    ensures place { result ≡ place_of_no_rise codes.now }
    ensures ascending { result ≡ None → IsStrictlyIncreasing codes.now }
{
    for place in 0..codes.len() - 1 {
        if codes[place] >= codes[place + 1] {
            return Some(place as u32 + 2);
        }
    }
    None
}
