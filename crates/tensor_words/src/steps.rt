//! A space with tables: what each index does to each element of its factors.
ghost use Rattle.std.specs.Prelude.{◌≡◌, ℕ, ◌≤◌, ◌<◌, ◌/◌, length, slice_set, IfOk};
ghost use Rattle.crystal_cartan.specs.Weights.{IsWeight, IsSmall};
ghost use Rattle.tensor_words.specs.Spaces.{IsSpace, size, size_at, word_weight};
ghost use Rattle.tensor_words.specs.Codes.{IsWord, code_of, word_of};
ghost use Rattle.tensor_words.specs.Steps.{IsRow};
ghost use Rattle.tensor_words.specs.Tables.{IsBitShift};

use crate::spaces::Space;
use crate::tables::{Row, rows_of, shifts_of, values_of, widest};
use crate::words::Word;
use crystal_cartan::{Cartan, Weight};
use std::alloc::{AllocError, Global};
use std::marker::Model;

/// A space with a row for each element of each factor, for fast passes over many words. Contracts see it as its
/// space.
#[derive(Debug, Drop)]
pub struct Steps {
    space: Space,
    /// The number of rows for each factor.
    width: usize,
    rows: Vec<Row>,
    values: [u64; 40],
    shifts: [Option<u8>; 40],
}

impl Model for Steps {
    ghost use Rattle.tensor_words.specs.Spaces.{SpaceType};
    ghost use Rattle.tensor_words.specs.Tables.{AreRows, AreValues, AreBitShifts};

    ghost Value = { SpaceType };

    ghost view = { λ s. s.space };

    ghost invariant = { λ s. AreRows s.space s.width s.rows.items × AreValues s.space s.values × AreBitShifts s.values s.shifts };
}

impl Steps {
    /// The space with its tables, which take for each factor some 90 bytes times the elements of the largest factor.
    pub fn new(alloc: Global, space: Space) -> Result<Steps, AllocError>
        ensures { IfOk result (λ steps. steps ≡ space) }
    {
        let width = widest(&space);
        let rows = rows_of(alloc, &space, width)?;
        let values = values_of(&space);
        Ok(Steps {
            space,
            width,
            rows,
            values,
            shifts: shifts_of(&values),
        })
    }

    /// The space itself.
    pub fn space(&self) -> &Space
        ensures value { result.now ≡ self.now }
        ensures space { IsSpace self.now }
    {
        let _cartan = self.space.cartan();
        &self.space
    }

    /// The Cartan type of the factors.
    pub fn cartan(&self) -> Cartan
        ensures cartan { result ≡ self.now.cartan }
        ensures space { IsSpace self.now }
    {
        self.space.cartan()
    }

    /// What the indices do to the element with this digit of the factor at this place, counted from 0.
    pub fn row(&self, place: u8, digit: u16) -> &Row
        requires place { place < length self.now.factors }
        requires digit { digit < size_at self.now place }
        ensures { IsRow self.now place digit result.now }
    {
        &self.rows[place as usize * self.width + digit as usize]
    }

    /// The word with this code.
    pub fn word(&self, code: u64) -> Word
        requires { code < size self.now }
        ensures value { result ≡ word_of self.now code }
        ensures word { IsWord self.now result }
        ensures code { code ≡ code_of self.now result }
    {
        let mut digits = [0; 40];
        let mut rest = code;
        'places: for place in 0..self.space.count() {
            let value = self.values[place as usize];
            let digit = quotient(rest, value, self.shifts[place as usize]);
            digits[place as usize] = digit as u16;
            rest -= digit * value;
        }
        Word::of_digits(digits, self.space.count())
    }

    /// The weight of a word: the sum of the weights of its elements (Bump and Schilling, Crystal Bases, 2017, section 2.3).
    pub fn weight(&self, word: &Word) -> Weight
        requires { IsWord self.now word.now }
        ensures value { result ≡ word_weight self.now word.now }
        ensures size { IsWeight self.now.cartan result }
        ensures small { IsSmall result }
    {
        let mut weight = Weight::zero(self.cartan());
        let mut place = self.space.count();
        'places: while place > 0 {
            place -= 1;
            let row = self.row(place, self.space.digit_in(word, place));
            weight = row.weight.plus(&weight);
        }
        weight
    }

    /// The code of a word with its digit at this place, counted from 0, changed to one below the factor's base size.
    pub fn moved(&self, code: u64, word: &Word, place: u8, digit: u16) -> u64
        requires word { IsWord self.now word.now }
        requires code { code ≡ code_of self.now word.now }
        requires place { place < length self.now.factors }
        requires digit { digit < size_at self.now place }
        ensures value { result ≡ code_of self.now (slice_set word.now place digit) }
        ensures below { result < size self.now }
    {
        let value = self.values[place as usize];
        code - u64::from(word.digit(place)) * value + u64::from(digit) * value
    }
}

/// How often the value goes into the number.
fn quotient(number: u64, value: u64, shift: Option<u8>) -> u64
    requires some { 0 < value }
    requires shift { IsBitShift value shift }
    ensures { result ≡ number / value }
{
    match shift {
        Some(shift) => number >> shift,
        None => number / value,
    }
}
