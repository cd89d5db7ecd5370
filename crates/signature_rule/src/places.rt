//! What the operators of all indices do to a word, by one pass over the factors.
//!
//! The signs of all indices are closed at once: an array holds one number for each index, at the index less 1, and
//! each factor makes new arrays.
ghost use Rattle.std.specs.Prelude.{◌≡◌, ℕ, ◌-◌, ◌+◌, ◌≤◌, ◌<◌, nat_le, nat_lt, if◌then◌else◌, IfSome, length, slice_index, MatchOption};
ghost use Rattle.std.specs.Option.{option_map};
ghost use Rattle.crystal_cartan.specs.Types.{HasIndex};
ghost use Rattle.tensor_words.specs.Spaces.{size};
ghost use Rattle.tensor_words.specs.Codes.{IsWord, code_of};
ghost use Rattle.tensor_words.specs.TensorRule.{action};
ghost use Rattle.signature_rule.specs.Places.{ArePlaces, AreStrings, entry_place, bottom_entry, closing_in, opening_in};

use std::simd::prelude::*;
use tensor_words::{Order, Row, Steps, Word};

/// The entry of an index whose operator gives zero.
const NOWHERE: u8 = 255;

/// The places, counted from 0, where the operators of the indices act on a word: the entry of an index stands at the
/// index less 1, and is 255 only where the operator gives zero.
#[derive(Clone, Copy, Debug, PartialEq, Eq)]
pub struct ActingPlaces {
    pub lower: [u8; 8],
    pub raise: [u8; 8],
}

/// How often e_i and f_i can be applied to a word: the entry of an index i stands at the index less 1.
#[derive(Clone, Copy, Debug, PartialEq, Eq)]
pub struct StringLengths {
    pub eps: [u8; 8],
    pub phi: [u8; 8],
}

/// Where the operators of all indices act on the word.
pub fn places_of(steps: &Steps, word: &Word) -> ActingPlaces
    requires { IsWord steps.now word.now }
    ensures { ArePlaces steps.now word.now result }
{
    let space = steps.space();
    let order = space.order();
    let mut open = u8x8::splat(0);
    let mut last_closing = u8x8::splat(NOWHERE);
    let mut first_opening = u8x8::splat(NOWHERE);
    'factors: for place in 0..space.count() {
        let row = steps.row(place, space.digit_in(word, place));
        let closing = closing_signs(order, row);
        let opening = opening_signs(order, row);
        last_closing = last_left_over(open, closing, place, last_closing);
        first_opening = first_open(open, closing, opening, place, first_opening);
        open = open_behind(open, closing, opening);
    }
    match order {
        Order::Standard => ActingPlaces {
            lower: last_closing.to_array(),
            raise: first_opening.to_array(),
        },
        Order::Kashiwara => ActingPlaces {
            lower: first_opening.to_array(),
            raise: last_closing.to_array(),
        },
    }
}

/// How often the operators of all indices can be applied to the word.
pub fn strings_of(steps: &Steps, word: &Word) -> StringLengths
    requires { IsWord steps.now word.now }
    ensures { AreStrings steps.now word.now result }
{
    let space = steps.space();
    let order = space.order();
    let mut open = u8x8::splat(0);
    let mut left_over = u8x8::splat(0);
    'factors: for place in 0..space.count() {
        let row = steps.row(place, space.digit_in(word, place));
        let closing = closing_signs(order, row);
        left_over = left_behind(open, closing, left_over);
        open = open_behind(open, closing, opening_signs(order, row));
    }
    match order {
        Order::Standard => StringLengths {
            eps: open.to_array(),
            phi: left_over.to_array(),
        },
        Order::Kashiwara => StringLengths {
            eps: left_over.to_array(),
            phi: open.to_array(),
        },
    }
}

/// The closing signs that a factor writes, phi in the standard order and eps in Kashiwara's.
fn closing_signs(order: Order, row: &Row) -> u8x8
    ensures { result ≡ closing_in order row.now }
{
    match order {
        Order::Standard => u8x8::from_array(row.phi),
        Order::Kashiwara => u8x8::from_array(row.eps),
    }
}

/// The opening signs that a factor writes, eps in the standard order and phi in Kashiwara's.
fn opening_signs(order: Order, row: &Row) -> u8x8
    ensures { result ≡ opening_in order row.now }
{
    match order {
        Order::Standard => u8x8::from_array(row.eps),
        Order::Kashiwara => u8x8::from_array(row.phi),
    }
}

/// The code of what f_i makes of the word, `None` for zero.
pub fn lowered_code(
    steps: &Steps,
    code: u64,
    word: &Word,
    places: &ActingPlaces,
    i: u8,
) -> Option<u64>
    requires word { IsWord steps.now word.now }
    requires code { code ≡ code_of steps.now word.now }
    requires places { ArePlaces steps.now word.now places.now }
    requires index { HasIndex steps.now.cartan i }
    ensures value { result ≡ option_map (code_of steps.now) ((action steps.now i).lower word.now) }
    ensures below { IfSome result (λ c. c < size steps.now) }
{
    let space = steps.space();
    let entry = (i - 1) as usize;
    let place = place_of(places.lower[entry])?;
    let row = steps.row(place, space.digit_in(word, place));
    let digit = row.lower[entry]?;
    Some(steps.moved(code, word, place, u16::from(digit)))
}

/// The code of what e_i makes of the word, `None` for zero.
pub fn raised_code(
    steps: &Steps,
    code: u64,
    word: &Word,
    places: &ActingPlaces,
    i: u8,
) -> Option<u64>
    requires word { IsWord steps.now word.now }
    requires code { code ≡ code_of steps.now word.now }
    requires places { ArePlaces steps.now word.now places.now }
    requires index { HasIndex steps.now.cartan i }
    ensures value { result ≡ option_map (code_of steps.now) ((action steps.now i).raise word.now) }
    ensures below { IfSome result (λ c. c < size steps.now) }
{
    let space = steps.space();
    let entry = (i - 1) as usize;
    let place = place_of(places.raise[entry])?;
    let row = steps.row(place, space.digit_in(word, place));
    let digit = row.raise[entry]?;
    Some(steps.moved(code, word, place, u16::from(digit)))
}

/// The place that an entry names.
fn place_of(entry: u8) -> Option<u8>
    ensures { result ≡ entry_place entry }
{
    if entry == NOWHERE { None } else { Some(entry) }
}

/// The opening signs that are open behind a factor with `unclosed` before it: its closing signs close those, then its
/// opening signs are open too.
fn open_behind(unclosed: u8x8, closing: u8x8, opening: u8x8) -> u8x8
    requires few { (j : ℕ) → slice_index unclosed j ≤ 100 }
    requires few_opening { (j : ℕ) → slice_index opening j ≤ 2 }
    ensures size { length result ≡ 8 }
    ensures entries { (j : ℕ) → j < 8 → slice_index result j ≡ slice_index unclosed j - slice_index closing j + slice_index opening j }
{
    unclosed.saturating_sub(closing) + opening
}

/// The closing signs that are left over behind a factor with `unclosed` opening signs before it.
fn left_behind(unclosed: u8x8, closing: u8x8, before: u8x8) -> u8x8
    requires few { (j : ℕ) → slice_index before j ≤ 100 }
    requires few_closing { (j : ℕ) → slice_index closing j ≤ 2 }
    ensures size { length result ≡ 8 }
    ensures entries { (j : ℕ) → j < 8 → slice_index result j ≡ slice_index before j + (slice_index closing j - slice_index unclosed j) }
{
    before + closing.saturating_sub(unclosed)
}

/// The places of the last closing signs that are left over, with the factor at this place behind `unclosed` opening signs.
fn last_left_over(unclosed: u8x8, closing: u8x8, place: u8, before: u8x8) -> u8x8
    ensures size { length result ≡ 8 }
    ensures entries { (j : ℕ) → j < 8 → slice_index result j ≡ (if nat_lt (slice_index unclosed j) (slice_index closing j) then place else slice_index before j) }
{
    unclosed.simd_lt(closing).select(u8x8::splat(place), before)
}

/// The places of the first opening signs that are open, with the factor at this place behind `unclosed` of them.
fn first_open(unclosed: u8x8, closing: u8x8, opening: u8x8, place: u8, before: u8x8) -> u8x8
    ensures size { length result ≡ 8 }
    ensures entries { (j : ℕ) → j < 8 → slice_index result j ≡ bottom_entry (slice_index unclosed j) (slice_index closing j) (slice_index opening j) place (slice_index before j) }
{
    let own = u8x8::splat(0)
        .simd_lt(opening)
        .select(u8x8::splat(place), u8x8::splat(NOWHERE));
    unclosed.simd_le(closing).select(own, before)
}
