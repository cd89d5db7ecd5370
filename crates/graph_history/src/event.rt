//! Events of a growing graph.
use crystal_cartan::Arrow;

/// Where a new vertex comes from: it is a root, or the operator of an arrow gives it at the vertex of a cell.
#[derive(Clone, Copy, Debug, PartialEq, Eq)]
pub enum Origin {
    Root,
    By { cell: u32, arrow: Arrow },
}

/// What one step of a caller did or found.
#[derive(Clone, Copy, Debug, PartialEq, Eq)]
pub enum Act {
    /// The word was new and is now the vertex of this cell.
    Added {
        cell: u32,
        code: u64,
        origin: Origin,
    },
    /// The word is the vertex of this cell.
    Met {
        cell: u32,
        code: u64,
    },
    /// The word is no vertex.
    Missed {
        code: u64,
    },
    /// The word is no vertex, and every cell is taken.
    Spent {
        code: u64,
    },
    /// The arrow was not drawn and now leads to this cell, or to zero.
    Drew {
        cell: u32,
        arrow: Arrow,
        to: Option<u32>,
    },
    /// The arrow is drawn, and leads to this cell or to zero.
    Saw {
        cell: u32,
        arrow: Arrow,
        to: Option<u32>,
    },
    /// The arrow is not drawn.
    Blank {
        cell: u32,
        arrow: Arrow,
    },
    /// One debt more: something is begun that is not finished.
    Owed,
    /// One debt less. Where a cell is named, it is paid for a vertex that is whole.
    Settled {
        cell: Option<u32>,
    },
    /// There are so many debts.
    Tally {
        debts: u64,
    },
}

/// An act with the number of the caller who did it.
#[derive(Clone, Copy, Debug, PartialEq, Eq)]
pub struct Event {
    pub caller: u64,
    pub act: Act,
}
