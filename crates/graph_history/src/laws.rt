//! Laws of legal histories. Each call does nothing: its contract is the theorem.
ghost use Rattle.graph_history.specs.Laws.{StatesAreSimple, StatesStay, VerticesAreReached, ClosedIsReached, ClosedIsComponents, SpentOutnumbers, VerticesFit, FullStays, ClosedFits, DebtsCover, TallyCloses};

/// In the state of a legal history no two vertices share a cell or a code, each arrow of a cell is drawn at most once,
/// and leads to what its operator gives.
pub fn states_are_simple()
    ensures { StatesAreSimple }
{}

/// Each vertex and each drawn arrow stays in every longer history.
pub fn states_stay()
    ensures { StatesStay }
{}

/// Each vertex is reached from those roots that are vertices.
pub fn vertices_are_reached()
    ensures { VerticesAreReached }
{}

/// The vertices of a closed graph are exactly the words reached from those roots that are vertices.
pub fn closed_is_reached()
    ensures { ClosedIsReached }
{}

/// The codes of a closed graph that has all roots are, ascending, the component list.
pub fn closed_is_components()
    ensures { ClosedIsComponents }
{}

/// Where an event says that every cell is taken, the reached words outnumber the cells.
pub fn spent_outnumbers()
    ensures { SpentOutnumbers }
{}

/// There are no more vertices than cells.
pub fn vertices_fit()
    ensures { VerticesFit }
{}

/// Where every cell is taken no vertex comes any more.
pub fn full_stays()
    ensures { FullStays }
{}

/// Where the graph is closed and has all roots, the reached words do not outnumber the cells.
pub fn closed_fits()
    ensures { ClosedFits }
{}

/// The debts are at least the vertices that are not whole.
pub fn debts_cover()
    ensures { DebtsCover }
{}

/// A tally of 0 stands only where the graph is closed.
pub fn tally_closes()
    ensures { TallyCloses }
{}
