//! Vertices are put in, and their arrows are drawn, at one seat.
ghost use Rattle.std.specs.Prelude.{◌≡◌, ◌≤◌, true, false, cond, Some, All, IfOk, IfErr};
ghost use Rattle.crystal_cartan.specs.declared.types.Arrow.{Arrow as ArrowType};
ghost use Rattle.tensor_words.specs.Operators.{IsArrow, op};
ghost use Rattle.tensor_words.specs.Laws.{reversed_arrow};
ghost use Rattle.graph_history.specs.History.{state_of, HasVertex, HasCode, IsUndrawn, IsDrawn, IsOrigin, IsWhole};
ghost use Rattle.wide_words.specs.WideSpaces.{whole, IsWide, number};
ghost use Rattle.wide_words.specs.WideHistory.{flat};
ghost use Rattle.wide_words.specs.WideReadings.{IsReading};
ghost use Rattle.wide_growth.specs.Drawing.{IsVertex, arrows_of, IsReady, GoesOn, IsArrowDrawn, IsStop};
ghost use Rattle.wide_growth.specs.Rounds.{CanDraw, HasDrawn};

use crystal_cartan::Arrow;
use graph_history::{Added, Look, Origin};
use std::alloc::AllocError;
use wide_graph::{add, look, set};
use wide_rule::{WideGraph, WideSeat};
use wide_words::{WideCode, WideReading, WideSteps};

/// A vertex whose arrows are to be drawn.
#[derive(Clone, Copy, Debug, PartialEq, Eq)]
pub(crate) struct OpenVertex {
    pub(crate) cell: u32,
    pub(crate) code: WideCode,
}

/// Why growth stopped.
#[derive(Clone, Copy, Debug, PartialEq, Eq)]
pub(crate) enum Stop {
    /// More words are reached than the capacity.
    Full,
    /// There was no memory.
    NoMemory,
}

/// Puts a word in, unless it is there, and answers its cell. A new vertex is pushed.
pub(crate) fn enter(
    graph: &WideGraph,
    seat: &mut WideSeat,
    code: WideCode,
    origin: Origin,
    added: &mut Vec<OpenVertex>,
) -> Result<u32, Stop>
    requires ready { IsReady graph.now seat.old }
    requires code { IsWide graph.now.world.space code }
    requires origin { IsOrigin (flat graph.now.world) (state_of seat.old.view.front) (number graph.now.world.space code) origin }
    ensures goes { IfOk result (λ _. GoesOn seat.old seat.new added.old.items added.new.items) }
    ensures there { IfOk result (λ cell. HasVertex (state_of seat.new.view.front) cell (number graph.now.world.space code)) }
    ensures stop { IfErr result (IsStop graph.now.world) }
{
    seat.reveal();
    match add(graph, seat, code, origin) {
        Added::New { cell } => match added.push(OpenVertex { cell, code }) {
            Ok(()) => Ok(cell),
            Err(_) => Err(Stop::NoMemory),
        },
        Added::Old { cell } => Ok(cell),
        Added::Full => Err(Stop::Full),
    }
}

/// Puts the roots in.
pub(crate) fn enter_roots(
    graph: &WideGraph,
    seat: &mut WideSeat,
    added: &mut Vec<OpenVertex>,
) -> Result<(), Stop>
    requires ready { IsReady graph.now seat.old }
    ensures goes { IfOk result (λ _. GoesOn seat.old seat.new added.old.items added.new.items) }
    ensures there { IfOk result (λ _. All (λ root. HasCode (state_of seat.new.view.front) (number graph.now.world.space root)) graph.now.world.roots) }
    ensures stop { IfErr result (IsStop graph.now.world) }
{
    seat.reveal();
    let roots = graph.world().roots();
    'roots: for root in roots {
        match enter(graph, seat, *root, Origin::Root, added) {
            Ok(_) => (),
            Err(stop) => return Err(stop),
        }
    }
    Ok(())
}

/// Draws all arrows of these vertices, and answers how many of the lowering ones lead to a word. Vertices that are put in
/// are pushed.
pub(crate) fn draw_all(
    graph: &WideGraph,
    steps: &WideSteps,
    seat: &mut WideSeat,
    waiting: &[OpenVertex],
    added: &mut Vec<OpenVertex>,
) -> Result<u64, Stop>
    requires can { CanDraw graph.now seat.old waiting.now }
    requires steps { steps.now ≡ graph.now.world.space }
    ensures drawn { IfOk result (λ arrows. HasDrawn seat.old seat.new waiting.now added.old.items added.new.items arrows) }
    ensures stop { IfErr result (IsStop graph.now.world) }
{
    let _world = graph.world();
    seat.reveal();
    let mut arrows = 0;
    'vertices: for vertex in waiting {
        match draw_vertex(graph, steps, seat, *vertex, added) {
            Ok(more) => arrows += u64::from(more),
            Err(stop) => return Err(stop),
        }
    }
    Ok(arrows)
}

/// Draws all arrows of one vertex, and answers how many of the lowering ones lead to a word.
fn draw_vertex(
    graph: &WideGraph,
    steps: &WideSteps,
    seat: &mut WideSeat,
    vertex: OpenVertex,
    added: &mut Vec<OpenVertex>,
) -> Result<u8, Stop>
    requires ready { IsReady graph.now seat.old }
    requires steps { steps.now ≡ graph.now.world.space }
    requires there { IsVertex graph.now.world seat.old.view.front vertex }
    ensures goes { IfOk result (λ _. GoesOn seat.old seat.new added.old.items added.new.items) }
    ensures drawn { IfOk result (λ _. IsWhole (flat graph.now.world) (state_of seat.new.view.front) vertex.cell) }
    ensures counted { IfOk result (λ arrows. arrows ≡ arrows_of graph.now.world.space vertex) }
    ensures few { IfOk result (λ arrows. arrows ≤ 8) }
    ensures stop { IfErr result (IsStop graph.now.world) }
{
    seat.reveal();
    let rank = steps.cartan().rank();
    let reading = steps.read(vertex.code);
    let mut arrows = 0;
    'indices: for before in 0..rank {
        match draw_index(graph, steps, seat, vertex, &reading, before + 1, added) {
            Ok(leads) => arrows += one_if(leads),
            Err(stop) => return Err(stop),
        }
    }
    Ok(arrows)
}

/// 1 where the arrow leads to a word, else 0.
fn one_if(leads: bool) -> u8
    ensures value { result ≡ cond leads 1 0 }
    ensures few { result ≤ 1 }
{
    if leads { 1 } else { 0 }
}

/// Draws both arrows of one index, and answers whether the lowering one leads to a word.
fn draw_index(
    graph: &WideGraph,
    steps: &WideSteps,
    seat: &mut WideSeat,
    vertex: OpenVertex,
    reading: &WideReading,
    index: u8,
    added: &mut Vec<OpenVertex>,
) -> Result<bool, Stop>
    requires ready { IsReady graph.now seat.old }
    requires steps { steps.now ≡ graph.now.world.space }
    requires there { IsVertex graph.now.world seat.old.view.front vertex }
    requires reading { IsReading steps.now reading.now × (reading.now.code ≡ vertex.code) }
    requires low { 1 ≤ index }
    requires high { index ≤ graph.now.world.space.high.cartan.rank }
    ensures lowering { IfOk result (λ leads. IsArrowDrawn seat.old seat.new added.old.items added.new.items vertex (record { down = true; index = index }) leads) }
    ensures raising { IfOk result (λ _. IsDrawn (state_of seat.new.view.front) vertex.cell (record { down = false; index = index })) }
    ensures stop { IfErr result (IsStop graph.now.world) }
{
    let down = Arrow { down: true, index };
    let up = Arrow { down: false, index };
    let leads = draw_arrow(graph, steps, seat, vertex, reading, down, added)?;
    draw_arrow(graph, steps, seat, vertex, reading, up, added)?;
    Ok(leads)
}

/// Draws an arrow of a vertex, unless it is drawn, and answers whether it leads to a word.
fn draw_arrow(
    graph: &WideGraph,
    steps: &WideSteps,
    seat: &mut WideSeat,
    vertex: OpenVertex,
    reading: &WideReading,
    arrow: Arrow,
    added: &mut Vec<OpenVertex>,
) -> Result<bool, Stop>
    requires ready { IsReady graph.now seat.old }
    requires steps { steps.now ≡ graph.now.world.space }
    requires there { IsVertex graph.now.world seat.old.view.front vertex }
    requires reading { IsReading steps.now reading.now × (reading.now.code ≡ vertex.code) }
    requires arrow { IsArrow (whole graph.now.world.space) arrow }
    ensures drawn { IfOk result (λ leads. IsArrowDrawn seat.old seat.new added.old.items added.new.items vertex arrow leads) }
    ensures stop { IfErr result (IsStop graph.now.world) }
{
    match look(graph, seat, vertex.cell, arrow) {
        Look::Zero => Ok(false),
        Look::To { .. } => Ok(true),
        Look::Blank => match steps.step(reading, arrow) {
            None => {
                set(graph, seat, vertex.cell, arrow, None);
                Ok(false)
            }
            Some(code) => draw_to(graph, seat, vertex, arrow, code, added),
        },
    }
}

/// Draws an arrow to the word that its operator gives, and the arrow back. So that word's vertex need not look up this one
/// again.
fn draw_to(
    graph: &WideGraph,
    seat: &mut WideSeat,
    vertex: OpenVertex,
    arrow: Arrow,
    code: WideCode,
    added: &mut Vec<OpenVertex>,
) -> Result<bool, Stop>
    requires ready { IsReady graph.now seat.old }
    requires there { IsVertex graph.now.world seat.old.view.front vertex }
    requires arrow { IsArrow (whole graph.now.world.space) arrow }
    requires code { IsWide graph.now.world.space code }
    requires leads { op (whole graph.now.world.space) arrow (number graph.now.world.space vertex.code) ≡ Some (number graph.now.world.space code) }
    ensures drawn { IfOk result (λ leads. IsArrowDrawn seat.old seat.new added.old.items added.new.items vertex arrow leads) }
    ensures stop { IfErr result (IsStop graph.now.world) }
{
    let cell = vertex.cell;
    match enter(graph, seat, code, Origin::By { cell, arrow }, added) {
        Ok(to) => {
            set(graph, seat, cell, arrow, Some(to));
            set(graph, seat, to, reversed(arrow), Some(cell));
            Ok(true)
        }
        Err(stop) => Err(stop),
    }
}

/// The arrow of the same index the other way.
fn reversed(arrow: Arrow) -> Arrow
    ensures { result ≡ reversed_arrow arrow }
{
    Arrow {
        down: !arrow.down,
        index: arrow.index,
    }
}
