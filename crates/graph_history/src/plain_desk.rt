//! A desk over lists in memory.
ghost use Rattle.std.specs.Prelude.{◌≡◌, ◌≢◌, ℕ, ◌+◌, ◌-◌, ◌*◌, ◌<◌, ◌≤◌, ◌^◌, List, [], ◌∷◌, ◌++◌, length, replicate, slice_get, vec_len, vec_capacity, MatchOption, IfSome, IfOk, IsTrue, ◌↔◌, Some, None, Contains};
ghost use Rattle.tensor_words.specs.Spaces.{size};
ghost use Rattle.tensor_words.specs.Operators.{IsArrow, op};
ghost use Rattle.tensor_words.specs.Worlds.{IsWorld};
ghost use Rattle.graph_history.specs.declared.event.Act.TheVariants.{Added as AddedAct, Drew, Owed, Settled};
ghost use Rattle.graph_history.specs.declared.event.Origin.TheVariants.{By};
ghost use Rattle.graph_history.specs.History.{state_of, target_at, HasVertex, HasSome, HasArrow, IsNew, IsOrigin, IsWhole, IsLegal, IsLegalAct, MayDraw, IsUndrawn};
ghost use Rattle.graph_history.specs.Desks.{by, Does};
ghost use Rattle.graph_history.specs.ArrowRows.{edge_place, edge_word, seen};
ghost use Rattle.graph_history.specs.Plain.{unpaid_of, standing_of, with_acts, entry_acts, IsQuiet, IsDrawing};

use crate::answer::{Added, Draw, Look};
use crate::event::{Act, Event, Origin};
use crate::front::Front;
use crate::journal::Journal;
use crate::operators::Operators;
use crystal_cartan::Arrow;
use crystal_streams::NoMemory;
use indexmap::IndexSet;
use signature_rule::arrow_place;
use std::alloc::Global;
use std::marker::Model;
use tensor_words::World;

/// The word of an arrow that is not drawn.
const UNDRAWN: u32 = 0;

/// The word of an arrow to zero.
const TO_ZERO: u32 = 1;

/// What is added to a cell to make the word of an arrow that leads to it.
const FIRST_TARGET: u32 = 2;

/// A desk over lists in memory, for one thread. Its callers follow each other, each with a number of its own. Its bond
/// is the list of the events of all other callers.
///
/// A cell is the place at which its code was put in, and a word is looked up by hash. The arrows of a cell get their
/// words when its vertex comes.
#[derive(Drop)]
pub struct PlainDesk {
    world: World,
    caller: u64,
    room: u64,
    codes: IndexSet<u64>,
    edges: Vec<u32>,
    debts: u64,
    operators: Operators,
    journal: Journal,
}

impl Model for PlainDesk {
    ghost use Rattle.std.specs.Prelude.{◌≡◌, vec_capacity};
    ghost use Rattle.indexmap.specs.IndexSet.{spare};
    ghost use Rattle.graph_history.specs.Plain.{PlainValue, IsDesk};

    ghost Value = { PlainValue };

    ghost view = { λ d. record { world = d.world; caller = d.caller; front = d.journal; room = d.room } };

    ghost invariant = { λ d. IsDesk d.world d.codes.keys (spare d.codes) d.edges.items (vec_capacity d.edges) d.debts d.journal × (d.operators ≡ d.world.space) };
}

/// The word of an arrow that leads to this cell, or to zero.
fn word_of(to: Option<u32>) -> u32
    requires { IfSome to (λ t. t < 2 ^ 31) }
    ensures { result ≡ edge_word (Some to) }
{
    match to {
        None => TO_ZERO,
        Some(cell) => cell + FIRST_TARGET,
    }
}

/// Appends the row of a new vertex, whose arrows are not drawn. No memory is taken.
fn push_row(edges: &mut Vec<u32>, row: usize)
    requires { vec_len edges.old + row ≤ vec_capacity edges.old }
    ensures items { edges.new.items ≡ edges.old.items ++ replicate row 0 }
    ensures capacity { vec_capacity edges.old ≤ vec_capacity edges.new }
{
    if edges.resize(edges.len() + row, UNDRAWN).is_err() {
        unreachable!();
    }
}

impl PlainDesk {
    /// A desk whose front is empty and whose caller has this number. All its memory is taken here.
    pub fn new(alloc: Global, world: World, caller: u64) -> Result<PlainDesk, NoMemory>
        ensures { IfOk result (λ d. d ≡ record { world = world; caller = caller; front = []; room = 2 ^ 64 - 1 }) }
    {
        let cells = world.cells() as usize;
        let row = 2 * world.space().cartan().rank() as usize;
        let codes = IndexSet::with_capacity(alloc, cells)?;
        let edges = Vec::with_capacity(alloc, cells * row)?;
        let operators = Operators::new(alloc, *world.space())?;
        let journal = Journal::new(alloc, &world)?;
        Ok(PlainDesk {
            world,
            caller,
            room: u64::MAX,
            codes,
            edges,
            debts: 0,
            operators,
            journal,
        })
    }

    /// Goes on under this caller number.
    pub fn call_as(&mut self, caller: u64)
        ensures { self.new ≡ record self.old { caller = caller } }
    {
        self.caller = caller;
    }

    /// The history so far. It is legal.
    pub fn front(&self) -> Front
        ensures front { result ≡ self.now.front }
        ensures legal { IsLegal self.now.world self.now.front }
    {
        self.journal.front()
    }

    /// The world in which the graph grows.
    pub fn world(&self) -> &World
        ensures value { result.now ≡ self.now.world }
        ensures world { IsWorld self.now.world }
        ensures legal { IsLegal self.now.world self.now.front }
    {
        &self.world
    }

    pub(crate) fn room_left(&self) -> u64
        ensures { result ≡ self.now.room }
    {
        self.room
    }

    /// Tells what holds of every desk.
    pub(crate) fn known(&self)
        ensures world { IsWorld self.now.world }
        ensures legal { IsLegal self.now.world self.now.front }
    {
        let _world = &self.world;
    }

    pub(crate) fn use_up(&mut self)
        requires { 0 < self.old.room }
        ensures { self.new ≡ record self.old { room = self.old.room - 1 } }
    {
        self.room -= 1;
    }

    /// Notes an act that changes nothing in the graph.
    pub(crate) fn note(&mut self, act: Act)
        requires legal { IsLegalAct self.old.world (state_of self.old.front) act }
        requires quiet { IsQuiet act }
        ensures value { self.new ≡ with_acts self.old (act ∷ []) }
        ensures does { Does (standing_of self.old) (standing_of self.new) 0 (act ∷ []) }
    {
        self.journal.note(Event {
            caller: self.caller,
            act,
        });
        self.known();
    }

    /// The number of debts.
    pub(crate) fn debts(&self) -> u64
        ensures value { result ≡ (state_of self.now.front).debts }
        ensures settled { unpaid_of self.now.front ≡ [] → result ≡ 0 }
    {
        self.debts
    }

    /// Pays for the vertex of an unpaid cell.
    pub(crate) fn pay_debt(&mut self, cell: u32)
        requires unpaid { Contains (unpaid_of self.old.front) cell }
        requires whole { IsWhole self.old.world (state_of self.old.front) cell }
        ensures { Does (standing_of self.old) (standing_of self.new) 0 (Settled (Some cell) ∷ []) }
    {
        self.debts -= 1;
        self.journal.note(Event {
            caller: self.caller,
            act: Act::Settled { cell: Some(cell) },
        });
        self.known();
    }

    /// The cell of the word with this code.
    pub(crate) fn seek(&self, code: u64) -> Option<u32>
        ensures { MatchOption result (IsNew (state_of self.now.front) code) (λ c. HasVertex (state_of self.now.front) c code) }
    {
        let place = self.codes.get_index_of(&code)?;
        Some(place as u32)
    }

    fn is_full(&self) -> bool
        ensures { IsTrue result ↔ (length (state_of self.now.front).vertices ≡ self.now.world.cells) }
    {
        self.codes.len() == self.world.cells() as usize
    }

    /// The code of the vertex of this cell.
    pub(crate) fn code_at(&self, cell: u32) -> u64
        requires { HasSome (state_of self.now.front) cell }
        ensures { HasVertex (state_of self.now.front) cell result }
    {
        self.codes.as_slice()[cell as usize]
    }

    /// The place of the word of this arrow.
    fn place(&self, cell: u32, arrow: Arrow) -> usize
        requires cell { cell < length (state_of self.now.front).vertices }
        requires arrow { IsArrow self.now.world.space arrow }
        ensures place { result ≡ edge_place self.now.world.space.cartan.rank cell arrow }
        ensures fits { result < length (state_of self.now.front).vertices * (2 * self.now.world.space.cartan.rank) }
    {
        let rank = self.world.space().cartan().rank();
        let place = arrow_place(rank, arrow);
        cell as usize * (2 * usize::from(rank)) + place
    }

    /// What is drawn of this arrow.
    pub(crate) fn target(&self, cell: u32, arrow: Arrow) -> Look
        requires there { HasSome (state_of self.now.front) cell }
        requires arrow { IsArrow self.now.world.space arrow }
        ensures { target_at (state_of self.now.front).drawn cell arrow ≡ seen result }
    {
        match self.edges[self.place(cell, arrow)] {
            UNDRAWN => Look::Blank,
            TO_ZERO => Look::Zero,
            word => Look::To {
                cell: word - FIRST_TARGET,
            },
        }
    }

    /// Owes for a new word, and puts it into the next cell.
    fn put(&mut self, code: u64, origin: Origin) -> u32
        requires word { code < size self.old.world.space }
        requires fresh { IsNew (state_of self.old.front) code }
        requires free { length (state_of self.old.front).vertices ≢ self.old.world.cells }
        requires origin { IsOrigin self.old.world (state_of self.old.front) code origin }
        ensures { self.new ≡ with_acts self.old (Owed ∷ AddedAct result code origin ∷ []) }
    {
        let cell = self.codes.len() as u32;
        let row = 2 * self.world.space().cartan().rank() as usize;
        if self.codes.insert(code).is_err() {
            unreachable!();
        }
        push_row(&mut self.edges, row);
        self.debts += 1;
        self.journal.note(Event {
            caller: self.caller,
            act: Act::Owed,
        });
        self.journal.note(Event {
            caller: self.caller,
            act: Act::Added { cell, code, origin },
        });
        cell
    }

    /// Draws an arrow.
    fn mark(&mut self, cell: u32, arrow: Arrow, to: Option<u32>)
        requires { MayDraw self.old.world (state_of self.old.front) cell arrow to }
        ensures { self.new ≡ with_acts self.old (Drew cell arrow to ∷ []) }
    {
        let place = self.place(cell, arrow);
        self.edges[place] = word_of(to);
        self.journal.note(Event {
            caller: self.caller,
            act: Act::Drew { cell, arrow, to },
        });
    }

    /// The code of what the operator of an arrow makes of the word with this code, `None` for zero.
    fn next(&mut self, code: u64, arrow: Arrow) -> Option<u64>
        requires code { code < size self.old.world.space }
        requires arrow { IsArrow self.old.world.space arrow }
        ensures same { self.new ≡ self.old }
        ensures value { result ≡ op self.old.world.space arrow code }
        ensures word { IfSome result (λ next. next < size self.old.world.space) }
    {
        self.operators.next(code, arrow)
    }

    /// Puts in a word, unless it is there.
    pub(crate) fn enter(&mut self, code: u64, origin: Origin) -> Added
        requires word { code < size self.old.world.space }
        requires origin { IsOrigin self.old.world (state_of self.old.front) code origin }
        ensures { self.new ≡ with_acts self.old (entry_acts code origin result) }
    {
        if let Some(cell) = self.seek(code) {
            self.note(Act::Met { cell, code });
            return Added::Old { cell };
        }
        self.enter_new(code, origin)
    }

    fn enter_new(&mut self, code: u64, origin: Origin) -> Added
        requires word { code < size self.old.world.space }
        requires fresh { IsNew (state_of self.old.front) code }
        requires origin { IsOrigin self.old.world (state_of self.old.front) code origin }
        ensures { self.new ≡ with_acts self.old (entry_acts code origin result) }
    {
        if self.is_full() {
            self.note(Act::Spent { code });
            return Added::Full;
        }
        let cell = self.put(code, origin);
        Added::New { cell }
    }

    /// Draws an arrow, unless it is drawn.
    pub(crate) fn reach(&mut self, cell: u32, arrow: Arrow) -> Draw
        requires there { HasSome (state_of self.old.front) cell }
        requires arrow { IsArrow self.old.world.space arrow }
        ensures { IsDrawing self.old self.new cell arrow result }
    {
        match self.target(cell, arrow) {
            Look::Blank => self.draw_blank(cell, arrow),
            Look::Zero => self.see(cell, arrow, None),
            Look::To { cell: to } => self.see(cell, arrow, Some(to)),
        }
    }

    /// Sees an arrow that is drawn.
    fn see(&mut self, cell: u32, arrow: Arrow, to: Option<u32>) -> Draw
        requires there { HasSome (state_of self.old.front) cell }
        requires drawn { HasArrow (state_of self.old.front) cell arrow to }
        ensures { IsDrawing self.old self.new cell arrow result }
    {
        self.note(Act::Saw { cell, arrow, to });
        self.known();
        match to {
            None => Draw::Zero,
            Some(cell) => Draw::To { cell },
        }
    }

    /// Draws an arrow that is not drawn.
    fn draw_blank(&mut self, cell: u32, arrow: Arrow) -> Draw
        requires there { HasSome (state_of self.old.front) cell }
        requires arrow { IsArrow self.old.world.space arrow }
        requires undrawn { IsUndrawn (state_of self.old.front) cell arrow }
        ensures { IsDrawing self.old self.new cell arrow result }
    {
        self.known();
        let code = self.code_at(cell);
        match self.next(code, arrow) {
            None => {
                self.mark(cell, arrow, None);
                self.known();
                Draw::Zero
            }
            Some(next) => self.draw_to(cell, arrow, code, next),
        }
    }

    /// Draws an arrow that is not drawn to the word with the code `next`, which its operator gives.
    fn draw_to(&mut self, cell: u32, arrow: Arrow, _code: u64, next: u64) -> Draw
        requires there { HasVertex (state_of self.old.front) cell _code }
        requires arrow { IsArrow self.old.world.space arrow }
        requires undrawn { IsUndrawn (state_of self.old.front) cell arrow }
        requires leads { op self.old.world.space arrow _code ≡ Some next }
        requires word { next < size self.old.world.space }
        ensures { IsDrawing self.old self.new cell arrow result }
    {
        let entered = self.enter(next, Origin::By { cell, arrow });
        self.known();
        match entered {
            Added::New { cell: to } | Added::Old { cell: to } => {
                self.mark(cell, arrow, Some(to));
                self.known();
                Draw::To { cell: to }
            }
            Added::Full => Draw::Full,
        }
    }
}
