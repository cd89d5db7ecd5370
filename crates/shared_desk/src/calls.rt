//! The calls of a desk at a seat of the shared graph.
ghost use Rattle.shared_desk.specs.SharedDesks.{standing_of};

use crate::desk::SharedDesk;
use crystal_cartan::Arrow;
use graph_history::{Added, Desk, Draw, Look, Origin};
use graph_rule::Seat;
use tensor_words::Space;

impl<'a> Desk for SharedDesk<'a> {
    type Bond = Seat;

    ghost standing = { standing_of };

    fn space(&self) -> &Space {
        self.world().space()
    }

    fn room(&self) -> u64 {
        self.room_left()
    }

    fn add(&mut self, code: u64) -> Added {
        self.enter(code, Origin::Root)
    }

    fn find(&mut self, code: u64) -> Option<u32> {
        self.seek(code)
    }

    fn look(&mut self, cell: u32, arrow: Arrow) -> Look {
        self.glance(cell, arrow)
    }

    fn draw(&mut self, cell: u32, arrow: Arrow) -> Draw {
        self.reach(cell, arrow)
    }

    fn word(&mut self, cell: u32) -> u64 {
        self.code_at(cell)
    }

    fn pay(&mut self, cell: u32) {
        self.pay_debt(cell);
    }

    fn tally(&mut self) -> u64 {
        self.count()
    }
}
