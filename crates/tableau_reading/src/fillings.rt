//! Fillings of shapes by letters.
ghost use Rattle.std.specs.Prelude.{◌≡◌, ℕ, ◌-◌, ◌<◌, slice_index_or};
ghost use Rattle.vector_crystals.specs.Letters.{IsLetter};
ghost use Rattle.tensor_words.specs.Codes.{IsWord};
ghost use Rattle.tableau_reading.specs.Shapes.{box_count, shape_space};
ghost use Rattle.tableau_reading.specs.Readings.{box, boxes_read};
ghost use Rattle.tableau_reading.specs.Fillings.{letter_in, HasBox, IsFilling, first_filling, with_letter, filling_word, filling_of};

use crate::parsing::some_word;
use crate::shapes::Shape;
use crystal_cartan::Cartan;
use std::marker::Model;
use tensor_words::{Word, letter_digit, letter_of_digit};
use vector_crystals::Letter;

/// A shape with a letter of its type in every box.
#[derive(Debug, Drop)]
pub struct Filling {
    shape: Shape,
    letters: [i8; 40],
}

impl Model for Filling {
    ghost use Rattle.tableau_reading.specs.Shapes.{box_count};
    ghost use Rattle.tableau_reading.specs.Fillings.{FillingType, filling_listed, AreLetters};

    ghost Value = { FillingType };

    ghost view = { λ f. filling_listed f.shape f.letters };

    ghost invariant = { λ f. AreLetters f.shape.cartan (box_count f.shape) f.letters };
}

impl Filling {
    /// The filling of the shape with the letter 1 in every box.
    pub fn new(shape: &Shape) -> Filling
        ensures { result ≡ first_filling shape.now }
    {
        let _classical = vector_crystals::base_size(shape.cartan());
        Filling {
            shape: *shape,
            letters: [1; 40],
        }
    }

    /// The shape.
    pub fn shape(&self) -> Shape
        ensures shape { result ≡ self.now.shape }
        ensures filling { IsFilling self.now }
    {
        let _boxes = self.shape.boxes();
        self.shape
    }

    /// The letter in a box; rows and columns count from 1.
    pub fn at(&self, row: u8, column: u8) -> Letter
        requires { HasBox self.now.shape row column }
        ensures letter { result.0 ≡ letter_in self.now (row - 1) (column - 1) }
        ensures of_type { IsLetter self.now.shape.cartan result.0 }
        ensures filling { IsFilling self.now }
    {
        let place = self.shape.place_of(row - 1, column - 1);
        Letter(self.letters[place as usize])
    }

    /// Puts a letter of the type into a box; rows and columns count from 1.
    pub fn put(&mut self, row: u8, column: u8, letter: Letter)
        requires there { HasBox self.old.shape row column }
        requires letter { IsLetter self.old.shape.cartan letter.0 }
        ensures { self.new ≡ with_letter self.old (row - 1) (column - 1) letter.0 }
    {
        let place = self.shape.place_of(row - 1, column - 1);
        self.letters[place as usize] = letter.0;
    }

    /// The letter at a place of the reading, from 0.
    fn letter_at(&self, place: u8) -> Letter
        requires { place < box_count self.now.shape }
        ensures letter { let b = slice_index_or (boxes_read self.now.shape) place (box 0 0) in result.0 ≡ letter_in self.now b.row b.column }
        ensures of_type { IsLetter self.now.shape.cartan result.0 }
        ensures filling { IsFilling self.now }
    {
        let _boxes = self.shape.boxes();
        Letter(self.letters[place as usize])
    }
}

impl Shape {
    /// The word that a filling of this shape is read as.
    pub fn word_of_rows(&self, filling: &Filling) -> Word
        requires { filling.now.shape ≡ self.now }
        ensures value { result ≡ filling_word filling.now }
        ensures word { IsWord (shape_space self.now) result }
        ensures back { filling_of self.now result ≡ filling.now }
    {
        let _shape = filling.shape();
        let space = self.space();
        let cartan = self.cartan();
        let mut word = some_word(&space);
        'places: for place in 0..self.boxes() {
            let digit = letter_digit(cartan, filling.letter_at(place));
            word = space.put(&word, place, digit);
        }
        word
    }

    /// The filling of this shape that is read as a word.
    pub fn rows_of_word(&self, word: &Word) -> Filling
        requires { IsWord (shape_space self.now) word.now }
        ensures value { result ≡ filling_of self.now word.now }
        ensures back { filling_word result ≡ word.now }
    {
        let space = self.space();
        let cartan = self.cartan();
        let mut letters = [1; 40];
        'places: for place in 0..self.boxes() {
            letters[place as usize] = letter_of_digit(cartan, space.digit_in(word, place)).0;
        }
        Filling {
            shape: *self,
            letters,
        }
    }
}
