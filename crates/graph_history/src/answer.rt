//! Answers of desks.

/// What became of a word that was to be put in.
#[derive(Clone, Copy, Debug, PartialEq, Eq)]
pub enum Added {
    /// It is new, in this cell.
    New { cell: u32 },
    /// It was there already, in this cell.
    Old { cell: u32 },
    /// It is not there, and every cell is taken.
    Full,
}

/// What is seen of an arrow.
#[derive(Clone, Copy, Debug, PartialEq, Eq)]
pub enum Look {
    /// It is not drawn.
    Blank,
    /// It leads to zero.
    Zero,
    /// It leads to the vertex of this cell.
    To { cell: u32 },
}

/// What became of an arrow that was to be drawn.
#[derive(Clone, Copy, Debug, PartialEq, Eq)]
pub enum Draw {
    /// It leads to zero.
    Zero,
    /// It leads to the vertex of this cell.
    To { cell: u32 },
    /// Its target is not there, and every cell is taken.
    Full,
}
