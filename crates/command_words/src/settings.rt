//! What accepted command words ask for.

use list_facts::Listed;
use tableau_reading::Shape;

/// Places in the list of the statistics, counted from 0, in the order of the words that named them.
pub type Places = Listed<usize>;

/// How the arrows of two components are set against each other.
#[derive(Clone, Copy, Debug, PartialEq, Eq)]
pub enum Relabelling {
    /// Each arrow against itself.
    Same,
    /// The relabelling of the Lusztig involution.
    Star,
}

/// What accepted command words ask for. The number of growers is 1 to 16.
#[derive(Debug, Drop)]
pub enum Settings {
    /// Grow the crystal of the job that is read, and report the chosen statistics.
    Grow { growers: u32, chosen: Places },
    /// Grow the crystal of the sample job of this number.
    Sample { growers: u32, number: u32 },
    /// List the semistandard tableaux of a shape of type A, in the standard tensor order.
    Census { shape: Shape },
    /// Compare the first two starts of the job that is read, and their components.
    Match { relabelling: Relabelling },
    /// Grow the words of two words of the space of the job that is read, one after the other.
    Wide { growers: u32 },
}
