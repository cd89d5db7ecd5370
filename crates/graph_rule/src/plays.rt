//! What the steps tell, and how views are cut and joined. A step's cell, code and origin or arrow and target, the numbers
//! and the stake of a split and the cells that are handed over are told to the table by ghost members, which a private
//! function picks.
ghost use Rattle.std.specs.Prelude.{ℕ, true, List, [], Option, None};
ghost use Rattle.crystal_cartan.specs.declared.types.Arrow.{Arrow as ArrowType};
ghost use Rattle.graph_history.specs.declared.event.Origin.{Origin as OriginType};
ghost use Rattle.graph_history.specs.declared.event.Origin.TheVariants.{Root};
ghost use Rattle.graph_rule.specs.Told.{looked, confirmed, sought, sought_empty, claimed, meets, owes, releases, pays, tallied, glanced, drawn};
ghost use Rattle.graph_rule.specs.Parting.{hand_left, hand_right, joined, nobody};

use atomic_table::{Join, Play, Split};
use graph_history::View;
use std::marker::{Brand, PhantomData};

/// What a step is asked for: a cell, and the code that is looked for or put in, with its origin.
pub(crate) trait Asked {
    ghost cell: { ℕ };

    ghost code: { ℕ };

    ghost origin: { OriginType };
}

impl Asked for Brand {
    ghost cell = { 0 };

    ghost code = { 0 };

    ghost origin = { Root };
}

/// A load of a cell.
pub(crate) struct LoadCell<J> {
    of: PhantomData<J>,
}

impl<J: Asked> Play<(), View> for LoadCell<J> {
    ghost then = { looked J.cell };
}

/// A load of a cell to see whether it has a code.
pub(crate) struct Confirm<J> {
    of: PhantomData<J>,
}

impl<J: Asked> Play<(), View> for Confirm<J> {
    ghost then = { confirmed J.cell J.code };
}

/// A load of a cell in search of a code.
pub(crate) struct Seek<J> {
    of: PhantomData<J>,
}

impl<J: Asked> Play<(), View> for Seek<J> {
    ghost then = { sought J.cell J.code };
}

/// A load of a cell in search of a place for a code.
pub(crate) struct SeekRoom<J> {
    of: PhantomData<J>,
}

impl<J: Asked> Play<(), View> for SeekRoom<J> {
    ghost then = { sought_empty J.cell J.code };
}

/// An exchange of a cell from empty to a code.
pub(crate) struct Claim<J> {
    of: PhantomData<J>,
}

impl<J: Asked> Play<(), View> for Claim<J> {
    ghost then = { claimed J.cell J.code J.origin };
}

/// What a step on an arrow is asked for: the cell and the arrow, and the target that it is drawn to.
pub(crate) trait AskedArrow {
    ghost cell: { ℕ };

    ghost arrow: { ArrowType };

    ghost target: { Option ℕ };
}

impl AskedArrow for Brand {
    ghost cell = { 0 };

    ghost arrow = { record { down = true; index = 1 } };

    ghost target = { None };
}

/// A load of the word of an arrow.
pub(crate) struct Glance<J> {
    of: PhantomData<J>,
}

impl<J: AskedArrow> Play<(), View> for Glance<J> {
    ghost then = { glanced J.cell J.arrow };
}

/// An exchange of the word of an arrow from not drawn to a target.
pub(crate) struct DrawArrow<J> {
    of: PhantomData<J>,
}

impl<J: AskedArrow> Play<(), View> for DrawArrow<J> {
    ghost then = { drawn J.cell J.arrow J.target };
}

/// A load that takes in the whole history.
pub(crate) struct Meet;

impl Play<(), View> for Meet {
    ghost then = { meets };
}

/// One more debt.
pub(crate) struct Owe;

impl Play<(), View> for Owe {
    ghost then = { owes };
}

/// The pledged debt is taken back.
pub(crate) struct Release;

impl Play<(), View> for Release {
    ghost then = { releases };
}

/// The debt of a cell is paid.
pub(crate) struct Pay<J> {
    of: PhantomData<J>,
}

impl<J: Asked> Play<(), View> for Pay<J> {
    ghost then = { pays J.cell };
}

/// A load of the number of debts.
pub(crate) struct Count;

impl Play<(), View> for Count {
    ghost then = { tallied };
}

/// What a seat that is split off gets.
pub(crate) trait Portion {
    ghost numbers: { ℕ };

    ghost stake: { ℕ };

    ghost cells: { List ℕ };
}

impl Portion for Brand {
    ghost numbers = { 1 };

    ghost stake = { 0 };

    ghost cells = { [] };
}

/// A seat is split, or cells are handed to a new seat.
pub(crate) struct Part<J> {
    of: PhantomData<J>,
}

impl<J: Portion> Split<View> for Part<J> {
    ghost left = { hand_left J.numbers J.stake J.cells };

    ghost right = { hand_right J.numbers J.stake J.cells };
}

/// A seat joins another.
pub(crate) struct Both;

impl Join<View> for Both {
    ghost both = { joined };

    ghost spent = { nobody };
}
