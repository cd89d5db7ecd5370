//! Laws of semistandard readings in type A. Each call does nothing: its contract is the theorem.
ghost use Rattle.tableau_census.specs.Laws.{BeginningsAreCompleted, CensusIsComponent, CensusIsUnique, OnlyTopIsHighest, OperatorsKeepSemistandard, ReadingsAreOfFillings};

/// A filling is semistandard exactly where the digits of its reading weakly rise along rows and strictly rise down
/// columns.
pub fn readings_are_of_fillings()
    ensures { ReadingsAreOfFillings }
{}

/// What an operator makes of a semistandard reading is zero or a semistandard reading.
pub fn operators_keep_semistandard()
    ensures { OperatorsKeepSemistandard }
{}

/// A semistandard reading with every eps zero is the top word.
pub fn only_top_is_highest()
    ensures { OnlyTopIsHighest }
{}

/// There is at most one census of a shape.
pub fn census_is_unique()
    ensures { CensusIsUnique }
{}

/// The census of a shape is the component of its top word: the semistandard tableaux are what the operators reach.
pub fn census_is_component()
    ensures { CensusIsComponent }
{}

/// Every beginning that the listing makes is that of a semistandard reading, so that it visits no box in vain.
pub fn beginnings_are_completed()
    ensures { BeginningsAreCompleted }
{}
