//! A desk at one seat of the shared graph.
ghost use Rattle.std.specs.Prelude.{◌≡◌, ◌<◌, List, [], ◌∷◌, Some, Contains, MatchResult, vec_len, vec_capacity};
ghost use Rattle.tensor_words.specs.Spaces.{size};
ghost use Rattle.tensor_words.specs.Operators.{IsArrow, op};
ghost use Rattle.tensor_words.specs.Worlds.{IsWorld};
ghost use Rattle.graph_history.specs.declared.event.Act.{Act as ActType};
ghost use Rattle.graph_history.specs.declared.event.Act.TheVariants.{Settled, Tally};
ghost use Rattle.graph_history.specs.History.{state_of, HasVertex, HasSome, HasArrow, IsOrigin, IsWhole, IsLegal};
ghost use Rattle.graph_history.specs.Desks.{Goes, Does, Drawing, find_acts, look_acts, added_cells};
ghost use Rattle.graph_rule.specs.Layout.{LeadsTo};
ghost use Rattle.graph_rule.specs.Rule.{whole, IsKnown};
ghost use Rattle.graph_rule.specs.Told.{drawn_acts};
ghost use Rattle.graph_rule.specs.Values.{Belongs};
ghost use Rattle.table_calls.specs.Entries.{Enters, IsAddedIn};
ghost use Rattle.shared_desk.specs.SharedDesks.{standing_of, Worked, Entered};

use crate::hints::Hints;
use crystal_cartan::Arrow;
use graph_history::{Added, Draw, Look, Origin};
use graph_rule::{Graph, Seat, pay, tally};
use signature_rule::LastWord;
use std::alloc::Global;
use std::marker::Model;
use std::snapshot::Snapshot;
use table_calls::{add, add_at, find, look, set, word};
use tensor_words::World;

/// There was no memory for a desk. The seat is handed back.
#[derive(Drop)]
pub struct NoRoom {
    pub seat: Seat,
}

/// A desk at a seat of the shared graph. Its bond is the seat as it was handed in, and its unpaid cells are the seat's.
/// It keeps the list of the cells that it added; the seat owes just these besides those that it owed before.
#[derive(Drop)]
pub struct SharedDesk<'a> {
    graph: &'a Graph,
    first: Snapshot<Seat>,
    seat: Seat,
    room: u64,
    added: Vec<u32>,
    last: LastWord,
    hints: Hints,
}

impl<'a> Model for SharedDesk<'a> {
    ghost use Rattle.std.specs.Prelude.{◌≡◌, vec_capacity};
    ghost use Rattle.shared_desk.specs.SharedDesks.{DeskValue, IsShared};

    ghost Value = { DeskValue };

    ghost view = { λ d. record { first = d.first.value; seat = d.seat; room = d.room; added = d.added.items } };

    ghost invariant = { λ d. IsShared d.graph.now d.first.value d.seat d.room d.added.items (vec_capacity d.added) × (d.last ≡ d.seat.view.world.space) };
}

impl<'a> SharedDesk<'a> {
    /// A desk at this seat, with room for so many adds and draws. Takes the memory of the list of added cells, and no
    /// more afterwards.
    pub fn new(
        alloc: Global,
        graph: &'a Graph,
        seat: Seat,
        room: usize,
    ) -> Result<SharedDesk<'a>, NoRoom>
        requires belongs { Belongs seat graph.now }
        requires pledge { seat.view.dues.pledge ≡ 0 }
        ensures { MatchResult result (λ d. d ≡ record { first = seat; seat = seat; room = room; added = [] }) (λ e. e.seat ≡ seat) }
    {
        SharedDesk::with_hints(alloc, graph, seat, room, Hints::none(alloc))
    }

    /// The same with hints where words may be.
    pub fn with_hints(
        alloc: Global,
        graph: &'a Graph,
        seat: Seat,
        room: usize,
        hints: Hints,
    ) -> Result<SharedDesk<'a>, NoRoom>
        requires belongs { Belongs seat graph.now }
        requires pledge { seat.view.dues.pledge ≡ 0 }
        ensures { MatchResult result (λ d. d ≡ record { first = seat; seat = seat; room = room; added = [] }) (λ e. e.seat ≡ seat) }
    {
        seat.reveal();
        let Ok(added) = Vec::with_capacity(alloc, room) else {
            return Err(NoRoom { seat });
        };
        let last = LastWord::new(*graph.world().space());
        Ok(SharedDesk {
            graph,
            first: Snapshot::of(&seat),
            seat,
            room: room as u64,
            added,
            last,
            hints,
        })
    }

    /// The seat, and the cells that the desk added, in the order in which it did.
    pub fn into_parts(self) -> (Seat, Vec<u32>)
        ensures seat { result.0 ≡ self.entry.seat }
        ensures added { result.1.items ≡ self.entry.added }
        ensures worked { (acts : List ActType) × Worked self.entry.first result.0 acts × (result.1.items ≡ added_cells acts) }
    {
        (self.seat, self.added)
    }

    /// The same with the hints.
    pub fn into_parts_with_hints(self) -> (Seat, Vec<u32>, Hints)
        ensures seat { result.0 ≡ self.entry.seat }
        ensures added { result.1.items ≡ self.entry.added }
        ensures worked { (acts : List ActType) × Worked self.entry.first result.0 acts × (result.1.items ≡ added_cells acts) }
    {
        (self.seat, self.added, self.hints)
    }

    /// The world in which the graph grows.
    pub fn world(&self) -> &World
        ensures value { result.now ≡ self.now.seat.view.world }
        ensures known { IsKnown self.now.seat.view }
    {
        self.seat.reveal();
        self.graph.world()
    }

    pub fn room_left(&self) -> u64
        ensures { result ≡ self.now.room }
    {
        self.room
    }

    /// The cell of the word with this code.
    pub fn seek(&mut self, code: u64) -> Option<u32>
        requires { code < size self.old.seat.view.world.space }
        ensures { Does (standing_of self.old) (standing_of self.new) 0 (find_acts code result) }
    {
        find(self.graph, &mut self.seat, code)
    }

    /// Where an arrow leads, if it is drawn.
    pub fn glance(&mut self, cell: u32, arrow: Arrow) -> Look
        requires there { HasSome (state_of self.old.seat.view.front) cell }
        requires arrow { IsArrow self.old.seat.view.world.space arrow }
        ensures { Does (standing_of self.old) (standing_of self.new) 0 (look_acts cell arrow result) }
    {
        look(self.graph, &mut self.seat, cell, arrow)
    }

    /// The code of the vertex of a cell.
    pub fn code_at(&mut self, cell: u32) -> u64
        requires { HasSome (state_of self.old.seat.view.front) cell }
        ensures goes { Goes (standing_of self.old) (standing_of self.new) 0 [] }
        ensures was { HasVertex (state_of self.old.seat.view.front) cell result }
        ensures is { HasVertex (state_of self.new.seat.view.front) cell result }
    {
        self.seat.reveal();
        let _world = self.graph.world();
        match word(self.graph, &mut self.seat, cell) {
            Some(code) => code,
            None => unreachable!(),
        }
    }

    /// Pays for the vertex of an unpaid cell.
    pub fn pay_debt(&mut self, cell: u32)
        requires unpaid { Contains self.old.seat.view.dues.unpaid cell }
        requires finished { IsWhole self.old.seat.view.world (state_of self.old.seat.view.front) cell }
        ensures { Does (standing_of self.old) (standing_of self.new) 0 (Settled (Some cell) ∷ []) }
    {
        pay(self.graph, &mut self.seat, cell);
    }

    /// The number of debts.
    pub fn count(&mut self) -> u64
        ensures does { Does (standing_of self.old) (standing_of self.new) 0 (Tally result ∷ []) }
        ensures settled { self.old.seat.view.stake ≡ whole → self.old.seat.view.dues.unpaid ≡ [] → result ≡ 0 }
    {
        tally(self.graph, &mut self.seat)
    }

    /// Puts in a word, and notes its cell where it is new.
    pub fn enter(&mut self, code: u64, origin: Origin) -> Added
        requires origin { IsOrigin self.old.seat.view.world (state_of self.old.seat.view.front) code origin }
        requires room { 0 < self.old.room }
        ensures { Entered self.old self.new code origin result }
    {
        self.room -= 1;
        let answer = add_near(self.graph, &mut self.seat, &self.hints, code, origin);
        self.hints.note(code, answer);
        if let Added::New { cell } = answer {
            self.added.push_reserved(cell);
        }
        answer
    }

    /// Draws an arrow to its target, or sees it drawn.
    pub fn mark(&mut self, cell: u32, arrow: Arrow, to: Option<u32>) -> bool
        requires arrow { IsArrow self.old.seat.view.world.space arrow }
        requires target { LeadsTo self.old.seat.view.world (state_of self.old.seat.view.front) cell arrow to }
        ensures { Does (standing_of self.old) (standing_of self.new) 0 (drawn_acts cell arrow to result) }
    {
        set(self.graph, &mut self.seat, cell, arrow, to)
    }

    /// The code of what the operator of an arrow makes of a word.
    pub fn next(&mut self, code: u64, arrow: Arrow) -> Option<u64>
        requires code { code < size self.old.seat.view.world.space }
        requires arrow { IsArrow self.old.seat.view.world.space arrow }
        ensures same { self.new ≡ self.old }
        ensures value { result ≡ op self.old.seat.view.world.space arrow code }
    {
        self.last.next(self.graph.steps(), code, arrow)
    }

    /// Draws an arrow. The word that its operator gives is put in first.
    pub fn reach(&mut self, cell: u32, arrow: Arrow) -> Draw
        requires there { HasSome (state_of self.old.seat.view.front) cell }
        requires arrow { IsArrow self.old.seat.view.world.space arrow }
        requires room { 0 < self.old.room }
        ensures { Drawing (standing_of self.old) (standing_of self.new) cell arrow result }
    {
        let code = self.code_at(cell);
        let _world = self.world();
        match self.next(code, arrow) {
            None => {
                self.mark(cell, arrow, None);
                Draw::Zero
            }
            Some(next) => self.reach_word(cell, arrow, code, next),
        }
    }

    /// Draws an arrow to the word with the code `next`, which its operator gives.
    fn reach_word(&mut self, cell: u32, arrow: Arrow, _code: u64, next: u64) -> Draw
        requires there { HasVertex (state_of self.old.seat.view.front) cell _code }
        requires arrow { IsArrow self.old.seat.view.world.space arrow }
        requires leads { op self.old.seat.view.world.space arrow _code ≡ Some next }
        requires room { 0 < self.old.room }
        ensures { Drawing (standing_of self.old) (standing_of self.new) cell arrow result }
    {
        match self.enter(next, Origin::By { cell, arrow }) {
            Added::New { cell: to } | Added::Old { cell: to } => {
                self.mark(cell, arrow, Some(to));
                Draw::To { cell: to }
            }
            Added::Full => Draw::Full,
        }
    }
}

/// Puts in a word. Where there are hints, it is looked for first where one says.
fn add_near(graph: &Graph, seat: &mut Seat, hints: &Hints, code: u64, origin: Origin) -> Added
    requires belongs { Belongs seat.old graph.now }
    requires origin { IsOrigin seat.old.view.world (state_of seat.old.view.front) code origin }
    requires pledge { seat.old.view.dues.pledge ≡ 0 }
    ensures table { seat.new.table ≡ seat.old.table }
    ensures entry { Enters seat.old.view seat.new.view code origin result }
    ensures exact { IsAddedIn seat.new.view.world (state_of seat.new.view.front) code result }
{
    match hints.near(code) {
        Some(near) => add_at(graph, seat, code, origin, near),
        None => add(graph, seat, code, origin),
    }
}
