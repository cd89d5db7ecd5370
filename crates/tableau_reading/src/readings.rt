//! Readings of shapes: the columns from left to right, each from bottom to top, and in Kashiwara's tensor order from
//! the other end.
ghost use Rattle.std.specs.Prelude.{◌≡◌, ℕ, ◌≤◌, ◌<◌, nat_lt, length, slice_index, slice_index_or, count_by};
ghost use Rattle.tensor_words.specs.Codes.{IsWord};
ghost use Rattle.tableau_reading.specs.Shapes.{IsShape, box_count, shape_space};
ghost use Rattle.tableau_reading.specs.Readings.{box, boxes, boxes_read, height, column_place, place_in, place, top_word};

use crate::parsing::some_word;
use crate::shapes::Shape;
use tensor_words::{Order, Word};

impl Shape {
    /// The top word: the i-th letter in every box of row i, from 1 (Bump and Schilling, Crystal Bases, 2017,
    /// chapter 3).
    #[tactic(auto, unfolding(crate::specs::Readings::top_word))]
    pub fn top(&self) -> Word
        ensures top { result ≡ top_word self.now }
        ensures word { IsWord (shape_space self.now) result }
        ensures shape { IsShape self.now }
    {
        let space = self.space();
        let mut word = some_word(&space);
        'places: for place in 0..self.boxes() {
            let (row, _) = self.box_at(place);
            word = space.put(&word, place, u16::from(row));
        }
        word
    }

    /// The row and the column, from 0, of the box at a place of the reading.
    pub fn box_at(&self, place: u8) -> (u8, u8)
        requires { place < box_count self.now }
        ensures there { slice_index_or (boxes_read self.now) place (box 0 0) ≡ box result.0 result.1 }
        ensures row { result.0 < length self.now.rows }
        ensures column { result.1 < slice_index self.now.rows result.0 }
        ensures shape { IsShape self.now }
    {
        self.box_in_columns(self.from_end(place))
    }

    /// The place in the reading of the box in this row and column, from 0.
    pub fn place_of(&self, row: u8, column: u8) -> u8
        requires { column < slice_index self.now.rows row }
        ensures place { result ≡ place self.now row column }
        ensures below { result < box_count self.now }
        ensures shape { IsShape self.now }
    {
        self.from_end(self.place_in_columns(row, column))
    }

    /// A place of the reading, counted from its first place in the standard order and from its last in Kashiwara's.
    fn from_end(&self, place: u8) -> u8
        requires { place < box_count self.now }
        ensures place { result ≡ place_in self.now.order (box_count self.now) place }
        ensures below { result < box_count self.now }
        ensures shape { IsShape self.now }
    {
        let boxes = self.boxes();
        match self.order() {
            Order::Standard => place,
            Order::Kashiwara => boxes - 1 - place,
        }
    }

    /// The row and the column, from 0, of the box at a place of the columns from left to right.
    fn box_in_columns(&self, place: u8) -> (u8, u8)
        requires { place < box_count self.now }
        ensures there { slice_index_or (boxes self.now.rows) place (box 0 0) ≡ box result.0 result.1 }
        ensures row { result.0 < length self.now.rows }
        ensures column { result.1 < slice_index self.now.rows result.0 }
        ensures shape { IsShape self.now }
    {
        let mut left = place;
        'columns: for column in 0..self.row(1) {
            let height = self.height(column);
            if left < height {
                return (height - 1 - left, column);
            }
            left -= height;
        }
        unreachable!()
    }

    /// The place in the columns from left to right of the box in this row and column, from 0.
    fn place_in_columns(&self, row: u8, column: u8) -> u8
        requires { column < slice_index self.now.rows row }
        ensures place { result ≡ column_place self.now.rows row column }
        ensures below { result < box_count self.now }
        ensures shape { IsShape self.now }
    {
        let mut before = 0;
        'columns: for earlier in 0..column {
            before += self.height(earlier);
        }
        before + (self.height(column) - 1 - row)
    }

    /// The number of boxes in a column, from 0.
    pub fn height(&self, column: u8) -> u8
        ensures height { result ≡ height self.now.rows column }
        ensures few { result ≤ 9 }
        ensures shape { IsShape self.now }
    {
        let _rows = self.rows();
        count_longer(self.lengths(), column) as u8
    }
}

/// How many rows have a box in this column, from 0.
fn count_longer(rows: &[u8], column: u8) -> usize
    ensures count { result ≡ count_by (λ n. nat_lt column n) rows.now }
    ensures few { result ≤ length rows.now }
{
    rows.iter().filter(|row| **row > column).count()
}
