//! What the steps tell, and how views are cut and joined. A step's cell, pair and origin or arrow and target, and the
//! numbers and the stake of a split are told to the table by ghost members, which a private function picks.
ghost use Rattle.std.specs.Prelude.{ℕ, true, Option, None};
ghost use Rattle.crystal_cartan.specs.declared.types.Arrow.{Arrow as ArrowType};
ghost use Rattle.graph_history.specs.declared.event.Origin.{Origin as OriginType};
ghost use Rattle.graph_history.specs.declared.event.Origin.TheVariants.{Root};
ghost use Rattle.wide_words.specs.declared.spaces.WideCode.{WideCode as CodeType};
ghost use Rattle.wide_rule.specs.Told.{first_sought, second_sought, first_sought_empty, second_sought_empty, first_claimed, second_claimed, glanced, drawn, meets};
ghost use Rattle.wide_rule.specs.Parting.{cut_left, cut_right, joined, nobody};

use crate::rule::WideView;
use atomic_table::{Join, Play, Split};
use std::marker::{Brand, PhantomData};

/// What a step on a cell is asked for: the cell, and the pair that is looked for or put in, with its origin.
pub(crate) trait Asked {
    ghost cell: { ℕ };

    ghost code: { CodeType };

    ghost origin: { OriginType };
}

impl Asked for Brand {
    ghost cell = { 0 };

    ghost code = { record { high = 0; low = 0 } };

    ghost origin = { Root };
}

/// A load of a first word in search of a pair.
pub(crate) struct SeekFirst<J> {
    of: PhantomData<J>,
}

impl<J: Asked> Play<(), WideView> for SeekFirst<J> {
    ghost then = { first_sought J.cell J.code };
}

/// A load of a second word in search of a pair.
pub(crate) struct SeekSecond<J> {
    of: PhantomData<J>,
}

impl<J: Asked> Play<(), WideView> for SeekSecond<J> {
    ghost then = { second_sought J.cell J.code };
}

/// A load of a first word in search of a place for a pair.
pub(crate) struct SeekRoomFirst<J> {
    of: PhantomData<J>,
}

impl<J: Asked> Play<(), WideView> for SeekRoomFirst<J> {
    ghost then = { first_sought_empty J.cell J.code };
}

/// A load of a second word in search of a place for a pair.
pub(crate) struct SeekRoomSecond<J> {
    of: PhantomData<J>,
}

impl<J: Asked> Play<(), WideView> for SeekRoomSecond<J> {
    ghost then = { second_sought_empty J.cell J.code };
}

/// An exchange of a first word from 0 to that of a pair.
pub(crate) struct ClaimFirst<J> {
    of: PhantomData<J>,
}

impl<J: Asked> Play<(), WideView> for ClaimFirst<J> {
    ghost then = { first_claimed J.cell J.code };
}

/// An exchange of a second word from 0 to that of a pair.
pub(crate) struct ClaimSecond<J> {
    of: PhantomData<J>,
}

impl<J: Asked> Play<(), WideView> for ClaimSecond<J> {
    ghost then = { second_claimed J.cell J.code J.origin };
}

/// What a step on an arrow is asked for: the cell and the arrow, and the target that it is drawn to.
pub(crate) trait AskedArrow {
    ghost cell: { ℕ };

    ghost arrow: { ArrowType };

    ghost target: { Option ℕ };
}

impl AskedArrow for Brand {
    ghost cell = { 0 };

    ghost arrow = { record { down = true; index = 1 } };

    ghost target = { None };
}

/// A load of the word of an arrow.
pub(crate) struct Glance<J> {
    of: PhantomData<J>,
}

impl<J: AskedArrow> Play<(), WideView> for Glance<J> {
    ghost then = { glanced J.cell J.arrow };
}

/// An exchange of the word of an arrow from not drawn to a target.
pub(crate) struct DrawArrow<J> {
    of: PhantomData<J>,
}

impl<J: AskedArrow> Play<(), WideView> for DrawArrow<J> {
    ghost then = { drawn J.cell J.arrow J.target };
}

/// A load that takes in the whole history.
pub(crate) struct Meet;

impl Play<(), WideView> for Meet {
    ghost then = { meets };
}

/// What a seat that is split off gets.
pub(crate) trait Portion {
    ghost numbers: { ℕ };

    ghost stake: { ℕ };
}

impl Portion for Brand {
    ghost numbers = { 1 };

    ghost stake = { 0 };
}

/// A seat is split.
pub(crate) struct Part<J> {
    of: PhantomData<J>,
}

impl<J: Portion> Split<WideView> for Part<J> {
    ghost left = { cut_left J.numbers J.stake };

    ghost right = { cut_right J.numbers J.stake };
}

/// A seat joins another.
pub(crate) struct Both;

impl Join<WideView> for Both {
    ghost both = { joined };

    ghost spent = { nobody };
}
