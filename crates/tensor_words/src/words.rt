//! Words and their codes.
ghost use Rattle.std.specs.Prelude.{◌≡◌, ℕ, ◌≤◌, ◌<◌, length, take, replicate, slice_index, slice_set, MatchOption, IfSome};
ghost use Rattle.crystal_cartan.specs.Padded.{IsPadded};
ghost use Rattle.tensor_words.specs.Spaces.{IsSpace, size, size_at};
ghost use Rattle.tensor_words.specs.Codes.{IsWord, code_of, word_of};

use crate::spaces::Space;
use std::marker::Model;

/// A word of a space: one digit for each factor, from left to right, each below the factor's base size.
#[derive(Clone, Copy, Debug, PartialEq, Eq)]
pub struct Word {
    digits: [u16; 40],
    count: u8,
}

impl Model for Word {
    ghost use Rattle.std.specs.Prelude.{ℕ, List, take};
    ghost use Rattle.crystal_cartan.specs.Padded.{IsPadded};
    ghost use Rattle.tensor_words.specs.WordFields.{word_fields, word_fields-view};

    ghost Value = { List ℕ };

    ghost view = { λ w. take w.count w.digits };

    ghost invariant = { λ w. IsPadded 0 40 w.count w.digits };

    ghost inverse = { word_fields };

    ghost inverse_ok = { word_fields-view };
}

impl Word {
    /// The number of digits, at most 40.
    pub fn count(&self) -> u8
        ensures count { result ≡ length self.now }
        ensures few { result ≤ 40 }
    {
        self.count
    }

    /// The digit at this place, counted from 0.
    pub fn digit(&self, place: u8) -> u16
        requires { place < length self.now }
        ensures { result ≡ slice_index self.now place }
    {
        self.digits[place as usize]
    }

    /// The word of the first `count` of these digits; those beyond are 0.
    pub(crate) fn of_digits(digits: [u16; 40], count: u8) -> Word
        requires { IsPadded 0 40 count digits }
        ensures { result ≡ take count digits }
    {
        Word { digits, count }
    }

    fn zeros(count: u8) -> Word
        requires { count ≤ 40 }
        ensures { result ≡ replicate count 0 }
    {
        Word {
            digits: [0; 40],
            count,
        }
    }

    /// The word with its digit at this place, counted from 0, changed.
    pub(crate) fn with(&self, place: u8, digit: u16) -> Word
        requires { place < length self.now }
        ensures { result ≡ slice_set self.now place digit }
    {
        let mut word = *self;
        word.digits[place as usize] = digit;
        word
    }
}

impl Space {
    /// The word with its digit at this place, counted from 0, changed to one below the factor's base size.
    pub fn put(&self, word: &Word, place: u8, digit: u16) -> Word
        requires word { IsWord self.now word.now }
        requires place { place < length self.now.factors }
        requires digit { digit < size_at self.now place }
        ensures put { result ≡ slice_set word.now place digit }
        ensures word { IsWord self.now result }
    {
        word.with(place, digit)
    }

    /// The number of a word: its digits read in mixed radix, the first factor most significant.
    pub fn code_of(&self, word: &Word) -> u64
        requires { IsWord self.now word.now }
        ensures value { result ≡ code_of self.now word.now }
        ensures below { result < size self.now }
        ensures back { word_of self.now result ≡ word.now }
    {
        let mut code = 0;
        for place in 0..self.count() {
            code = code * self.base_size(place) as u64 + word.digit(place) as u64;
        }
        code
    }

    /// The word with this code, or `None` where the code is not below the number of words.
    pub fn word_of(&self, code: u64) -> Option<Word>
        ensures value { MatchOption result (size self.now ≤ code) (λ w. (code < size self.now) × (w ≡ word_of self.now code)) }
        ensures word { IfSome result (IsWord self.now) }
        ensures back { IfSome result (λ w. code_of self.now w ≡ code) }
    {
        if code >= self.size() {
            return None;
        }
        let mut word = Word::zeros(self.count());
        let mut rest = code;
        let mut place = self.count();
        while place > 0 {
            place -= 1;
            let size = self.base_size(place) as u64;
            word = word.with(place, (rest % size) as u16);
            rest /= size;
        }
        Some(word)
    }
}

/// The word of the space with this code.
pub fn word_with(space: &Space, code: u64) -> Word
    requires { code < size space.now }
    ensures value { result ≡ word_of space.now code }
    ensures word { IsWord space.now result }
{
    match space.word_of(code) {
        Some(word) => word,
        None => unreachable!(),
    }
}
