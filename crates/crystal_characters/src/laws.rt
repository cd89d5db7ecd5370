//! Laws of characters. Each call does nothing: its contract is the theorem.
ghost use Rattle.crystal_characters.specs.Characters.{CharactersAreUnique, TalliesAreExact};
ghost use Rattle.crystal_characters.specs.Reflections.{ReflectionsKeepMultiplicities};

/// In a finished graph a weight and its simple reflections have the same multiplicity.
pub fn reflections_keep_multiplicities()
    ensures { ReflectionsKeepMultiplicities }
{}

/// A finished graph has at most one character.
pub fn characters_are_unique()
    ensures { CharactersAreUnique }
{}

/// The tally of a list of weights lists exactly those that occur, falling, each with its number of occurrences.
pub fn tallies_are_exact()
    ensures { TalliesAreExact }
{}
