//! Laws, as functions whose contracts state them.
ghost use Rattle.tableau_reading.specs.Laws.{TopHasRows, TopIsHighest, TopHasWeight, TextsAreRead};

/// The top word of a shape has the i-th letter in every box of row i, from 1; no raising operator applies to it, and
/// its weight is that of the shape (Bump and Schilling, Crystal Bases, 2017, chapters 3 and 6). The call does nothing: its contract is the theorem.
pub fn top_laws()
    ensures rows { TopHasRows }
    ensures highest { TopIsHighest }
    ensures weight { TopHasWeight }
{}

/// What is printed of a word is read as the word. The call does nothing: its contract is the theorem.
pub fn text_laws()
    ensures { TextsAreRead }
{}
