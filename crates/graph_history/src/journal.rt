//! A list of events for contracts alone.
ghost use Rattle.std.specs.Prelude.{◌≡◌, [], ◌∷◌, ◌++◌, IfOk, ⊤};
ghost use Rattle.tensor_words.specs.Worlds.{WorldType};
ghost use Rattle.graph_history.specs.declared.event.Act.TheVariants.{Missed};
ghost use Rattle.graph_history.specs.declared.event.Event.{Event as EventType};
ghost use Rattle.graph_history.specs.Notes.{noting_view, noted};

use crate::event::Event;
use crate::front::Front;
use crate::view::View;
use atomic_table::{Play, Seat, Table, TableRule};
use std::alloc::{AllocError, Global};
use std::marker::{Brand, Model, PhantomData};
use tensor_words::World;

/// The rule that always holds.
pub struct Always;

impl TableRule<(), View, World> for Always {
    ghost holds = { λ w s. ⊤ };

    ghost first = { noting_view };
}

/// The event that a step notes.
pub trait Noting {
    ghost event: { EventType };
}

impl Noting for Brand {
    ghost event = { record { caller = 0; act = Missed 0 } };
}

/// A step that notes an event.
pub struct Note<N> {
    of: PhantomData<N>,
}

impl<N: Noting> Play<(), View> for Note<N> {
    ghost then = { noted N.event };
}

/// A list of events, of which a running program keeps nothing: a table of one word, whose one seat has seen them.
#[derive(Drop)]
pub struct Journal {
    board: Table<(), View, World, Always, Global>,
    token: Seat<(), View>,
}

impl Model for Journal {
    ghost use Rattle.std.specs.Prelude.{List, [], ◌≡◌};
    ghost use Rattle.graph_history.specs.declared.event.Event.{Event};

    ghost Value = { List Event };

    ghost view = { λ j. j.token.me.0.front };

    ghost invariant = { λ j. (j.board.shared.table_id.words ≡ 1) × (j.token.table_id ≡ j.board.shared.table_id) };
}

impl Journal {
    /// No event.
    pub(crate) fn new(alloc: Global, world: &World) -> Result<Journal, AllocError>
        ensures { IfOk result (λ j. j ≡ []) }
    {
        let (board, token) = Table::of_words(alloc, &[0], world)?;
        Ok(Journal { board, token })
    }

    /// Notes one more event.
    pub(crate) fn note(&mut self, event: Event)
        ensures { self.new ≡ self.old ++ event ∷ [] }
    {
        self.note_as::<Brand>(event);
    }

    fn note_as<N: Noting>(&mut self, _event: Event)
        requires { N.event ≡ _event }
        ensures { self.new ≡ self.old ++ _event ∷ [] }
    {
        let board = &self.board;
        board.shared.load::<Note<N>>(&mut self.token, 0);
    }

    /// The events so far.
    pub(crate) fn front(&self) -> Front
        ensures { result ≡ self.now }
    {
        Front::of(&self.token)
    }
}
