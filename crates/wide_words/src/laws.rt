//! Laws of wide words and of legal wide histories. Each call does nothing: its contract is the theorem.
ghost use Rattle.wide_words.specs.WideLaws.{PairsCorrespond, PairsAscend, PairsAreWords, WideStatesAreSimple, VerticesArePairs, WideVerticesAreReached, WideClosedIsReached, WideClosedIsComponents, WideSpentOutnumbers, WideVerticesFit, WideFullStays, WideClosedFits, WideClosedIsCounted, CountsAreUnique};

/// The pairs of words and the codes of the whole space correspond one to one.
pub fn pairs_correspond()
    ensures { PairsCorrespond }
{}

/// Ascending codes are pairs that ascend by the high half, and then by the low one.
pub fn pairs_ascend()
    ensures { PairsAscend }
{}

/// The word of a pair is the word of its high half followed by that of its low half.
pub fn pairs_are_words()
    ensures { PairsAreWords }
{}

/// In the state of a legal history no two vertices share a cell or a code, each arrow of a cell is drawn at most once,
/// and leads to what its operator gives.
pub fn wide_states_are_simple()
    ensures { WideStatesAreSimple }
{}

/// The code of each vertex is the number of just one pair.
pub fn vertices_are_pairs()
    ensures { VerticesArePairs }
{}

/// Each vertex is reached from those roots that are vertices.
pub fn wide_vertices_are_reached()
    ensures { WideVerticesAreReached }
{}

/// The vertices of a closed graph are exactly the words reached from those roots that are vertices.
pub fn wide_closed_is_reached()
    ensures { WideClosedIsReached }
{}

/// The codes of a closed graph that has all roots are, ascending, the component list.
pub fn wide_closed_is_components()
    ensures { WideClosedIsComponents }
{}

/// Where an event says that a word finds no room, the reached words outnumber the capacity.
pub fn wide_spent_outnumbers()
    ensures { WideSpentOutnumbers }
{}

/// There are no more vertices than cells, which are 32 more than the capacity.
pub fn wide_vertices_fit()
    ensures { WideVerticesFit }
{}

/// The number of vertices never falls, so a graph that has as many as its capacity stays so.
pub fn wide_full_stays()
    ensures { WideFullStays }
{}

/// In a closed graph that has all roots the reached words outnumber the capacity exactly where the vertices do.
pub fn wide_closed_fits()
    ensures { WideClosedFits }
{}

/// The vertices of a closed graph that has all roots are the reached words, each once, with their lowering arrows.
pub fn wide_closed_is_counted()
    ensures { WideClosedIsCounted }
{}

/// A world determines how many words are reached, and how many lowering arrows join them.
pub fn counts_are_unique()
    ensures { CountsAreUnique }
{}
