//! What a job asks for: the commands of its sessions, and the asks at its end.

use crystal_cartan::Arrow;
use list_facts::Listed;
use tableau_reading::Shape;

/// A command of a session. Words stand as their codes.
#[derive(Clone, Copy, Debug, PartialEq, Eq)]
pub enum Command {
    /// Puts the word in, as a root.
    Add(u64),
    /// Asks whether the word is there.
    Find(u64),
    /// Asks where the arrow of the word leads, as far as it is drawn.
    Look(Arrow, u64),
    /// Draws the arrow of the word, and puts in what it leads to.
    Move(Arrow, u64),
    /// The weight of the word.
    Wt(u64),
    /// The length of the raising string at the word.
    Eps(u8, u64),
    /// The length of the lowering string at the word.
    Phi(u8, u64),
    /// Asks whether the graph is closed.
    Done,
}

/// An ask at the end of a job.
#[derive(Debug, Drop)]
pub enum Ask {
    /// The Demazure subset of these indices over the first start; the last index acts first.
    Demazure(Indices),
    /// The highest-weight elements of the product with the crystal of this shape.
    Tops(Shape),
    /// The crystal reflection at this index.
    Reflect(u8),
}

/// The indices of a `demazure` ask.
pub type Indices = Listed<u8>;

/// The commands of one session, in order.
pub type Script = Listed<Command>;

/// The sessions of a job, in order.
pub type Scripts = Listed<Script>;

/// The asks of a job, in order.
pub type Asks = Listed<Ask>;
