//! The calls of a desk over lists in memory.
ghost use Rattle.graph_history.specs.Plain.{standing_of};

use crate::answer::{Added, Draw, Look};
use crate::desk::Desk;
use crate::event::{Act, Event, Origin};
use crate::plain_desk::PlainDesk;
use crystal_cartan::Arrow;
use std::collections::LinkedList;
use tensor_words::Space;

impl Desk for PlainDesk {
    type Bond = LinkedList<Event>;

    ghost standing = { standing_of };

    fn space(&self) -> &Space {
        self.world().space()
    }

    fn room(&self) -> u64 {
        self.room_left()
    }

    fn add(&mut self, code: u64) -> Added {
        self.known();
        self.use_up();
        let answer = self.enter(code, Origin::Root);
        self.known();
        answer
    }

    fn find(&mut self, code: u64) -> Option<u32> {
        let found = self.seek(code);
        match found {
            Some(cell) => self.note(Act::Met { cell, code }),
            None => self.note(Act::Missed { code }),
        }
        found
    }

    fn look(&mut self, cell: u32, arrow: Arrow) -> Look {
        let look = self.target(cell, arrow);
        match look {
            Look::Blank => self.note(Act::Blank { cell, arrow }),
            Look::Zero => self.note(Act::Saw {
                cell,
                arrow,
                to: None,
            }),
            Look::To { cell: to } => self.note(Act::Saw {
                cell,
                arrow,
                to: Some(to),
            }),
        }
        look
    }

    fn draw(&mut self, cell: u32, arrow: Arrow) -> Draw {
        self.use_up();
        self.reach(cell, arrow)
    }

    fn word(&mut self, cell: u32) -> u64 {
        self.known();
        self.code_at(cell)
    }

    fn pay(&mut self, cell: u32) {
        self.pay_debt(cell);
    }

    fn tally(&mut self) -> u64 {
        let debts = self.debts();
        self.note(Act::Tally { debts });
        debts
    }
}
