//! How seats that know one history go on. Each call does nothing: its contract is the theorem.
ghost use Rattle.shared_seats.specs.Laws.{SeatsOpen, WholeIsAlone, StepsKeep, SplitsKeep, JoinsKeep};

/// The first seat of a table.
pub fn seats_open<W, E, D>()
    ensures { SeatsOpen W E D }
{}

/// A seat with the whole stake.
pub fn whole_is_alone<W, E, D>()
    ensures { WholeIsAlone W E D }
{}

/// A seat takes a step: what others did is in its front, and its own events come last.
pub fn steps_keep<W, E, D>()
    ensures { StepsKeep W E D }
{}

/// A seat is split.
pub fn splits_keep<W, E, D>()
    ensures { SplitsKeep W E D }
{}

/// A seat takes in another.
pub fn joins_keep<W, E, D>()
    ensures { JoinsKeep W E D }
{}
