//! Shapes of tableaux.
ghost use Rattle.std.specs.Prelude.{◌≡◌, ℕ, ◌+◌, ◌-◌, ◌*◌, ◌^◌, ◌≤◌, ◌<◌, ◌==◌, min, length, sum, slice_index, replicate, pos, IfOk, IsTrue};
ghost use Rattle.std.specs.List.{list_any};
ghost use Rattle.crystal_cartan.specs.Padded.{padded};
ghost use Rattle.crystal_cartan.specs.Types.{coordinates};
ghost use Rattle.crystal_cartan.specs.Weights.{IsWeight, IsSmall};
ghost use Rattle.vector_crystals.specs.Letters.{letter_count};
ghost use Rattle.tableau_reading.specs.Shapes.{is_empty, is_falling, is_large, shape_of, IsShape, box_count, shape_in, vector_space, shape_space, shape_weight};
ghost use Rattle.tensor_words.specs.Spaces.{IsSpace};

use crystal_cartan::{Cartan, Weight};
use std::marker::Model;
use tensor_words::{Factor, MOST_WORDS, Order, Space};

/// The most boxes of a shape.
const MOST_BOXES: u64 = 40;

/// Why a list of row lengths makes no shape.
#[derive(Clone, Copy, Debug, PartialEq, Eq)]
pub enum ShapeFault {
    /// There is no row, or a row has no box.
    Empty,
    /// A row is longer than the one above.
    NotFalling,
    /// There are more rows than a weight of the type has coordinates.
    TooTall,
    /// There are more than 40 boxes, or more than 2^63 words of as many letters.
    TooManyBoxes,
}

/// The shape of a tableau: rows of boxes from the top down, none longer than the one above (Bump and Schilling,
/// Crystal Bases, 2017, chapter 3), and the tensor order of the words that fill it.
#[derive(Clone, Copy, Debug, PartialEq, Eq)]
pub struct Shape {
    cartan: Cartan,
    rows: [u8; 9],
    count: u8,
    order: Order,
}

impl Model for Shape {
    ghost use Rattle.std.specs.Prelude.{take};
    ghost use Rattle.crystal_cartan.specs.Padded.{IsPadded};
    ghost use Rattle.tableau_reading.specs.Shapes.{ShapeType, tableau_shape, shape_in, IsShape};
    ghost use Rattle.tableau_reading.specs.ShapeFields.{shape_fields, shape_fields-view};

    ghost Value = { ShapeType };

    ghost view = { λ s. shape_in s.order (tableau_shape s.cartan (take s.count s.rows)) };

    ghost invariant = { λ s. IsPadded 0 9 s.count s.rows × IsShape (shape_in s.order (tableau_shape s.cartan (take s.count s.rows))) };

    ghost inverse = { shape_fields };

    ghost inverse_ok = { λ a p. shape_fields-view a p.0 };
}

impl Shape {
    /// The shape whose rows have these lengths, in the standard tensor order, or the first fault that applies.
    #[tactic(auto, unfolding(crate::specs::Shapes::shape_of))]
    pub fn new(rows: &[u32], cartan: Cartan) -> Result<Shape, ShapeFault>
        ensures exact { result ≡ shape_of cartan rows.now }
        ensures shape { IfOk result IsShape }
    {
        if is_empty(rows) {
            return Err(ShapeFault::Empty);
        }
        if !is_falling(rows) {
            return Err(ShapeFault::NotFalling);
        }
        if rows.len() > usize::from(cartan.size()) {
            return Err(ShapeFault::TooTall);
        }
        if is_large(cartan, box_count(rows)) {
            return Err(ShapeFault::TooManyBoxes);
        }
        Ok(Shape {
            cartan,
            rows: padded_rows(rows),
            count: rows.len() as u8,
            order: Order::Standard,
        })
    }

    /// The same shape, its words in this tensor order.
    pub fn ordered(self, order: Order) -> Shape
        ensures { result ≡ shape_in order self }
    {
        Shape { order, ..self }
    }

    /// The tensor order of the words that fill the shape.
    pub fn order(&self) -> Order
        ensures { result ≡ self.now.order }
    {
        self.order
    }

    /// The Cartan type.
    pub fn cartan(&self) -> Cartan
        ensures cartan { result ≡ self.now.cartan }
        ensures shape { IsShape self.now }
    {
        self.cartan
    }

    /// The number of rows, 1 to 9.
    pub fn rows(&self) -> u8
        ensures rows { result ≡ length self.now.rows }
        ensures few { result ≤ 9 }
        ensures shape { IsShape self.now }
    {
        self.count
    }

    /// The length of the k-th row, from 1.
    pub fn row(&self, k: u8) -> u8
        requires { (1 ≤ k) × (k ≤ length self.now.rows) }
        ensures row { result ≡ slice_index self.now.rows (k - 1) }
        ensures shape { IsShape self.now }
    {
        self.rows[(k - 1) as usize]
    }

    /// The space of the words that fill the shape: a vector crystal for each box, in the shape's tensor order.
    pub fn space(&self) -> Space
        ensures space { result ≡ shape_space self.now }
        ensures taken { IsSpace result }
        ensures shape { IsShape self.now }
    {
        self.vector_space().ordered(self.order())
    }

    /// A vector crystal for each box, in the standard order.
    fn vector_space(&self) -> Space
        ensures space { result ≡ vector_space self.now }
        ensures shape { IsShape self.now }
    {
        match Space::new(self.cartan(), &vectors()[..self.boxes() as usize]) {
            Ok(space) => space,
            Err(_) => unreachable!(),
        }
    }

    /// The weight of the shape: the lengths of its rows.
    pub fn weight(&self) -> Weight
        ensures weight { result ≡ shape_weight self.now }
        ensures size { IsWeight self.now.cartan result }
        ensures small { IsSmall result }
        ensures shape { IsShape self.now }
    {
        let cartan = self.cartan();
        let mut weight = Weight::zero(cartan);
        'rows: for place in 0..cartan.size() {
            weight = weight.put(place + 1, self.doubled_length(place));
        }
        weight
    }

    /// Twice the length of the row at this place, from 0, and 0 below the last.
    fn doubled_length(&self, place: u8) -> i32
        ensures length { result ≡ pos (2 * slice_index self.now.rows place) }
        ensures shape { IsShape self.now }
    {
        if place < self.rows() {
            2 * i32::from(self.row(place + 1))
        } else {
            0
        }
    }

    /// The number of boxes, 1 to 40.
    pub fn boxes(&self) -> u8
        ensures boxes { result ≡ box_count self.now }
        ensures few { result ≤ 40 }
        ensures shape { IsShape self.now }
    {
        let mut boxes = 0;
        'rows: for place in 0..self.rows() {
            boxes += self.row(place + 1);
        }
        boxes
    }

    /// The lengths of the rows, from the top down.
    pub(crate) fn lengths(&self) -> &[u8]
        ensures lengths { result.now ≡ self.now.rows }
        ensures shape { IsShape self.now }
    {
        &self.rows[..self.count as usize]
    }
}

fn vectors() -> [Factor; 40]
    ensures { result ≡ replicate 40 Factor.Vector }
{
    [Factor::Vector; 40]
}

/// Whether there is no row, or a row with no box.
fn is_empty(rows: &[u32]) -> bool
    ensures { result ≡ is_empty rows.now }
{
    rows.is_empty() || has_empty_row(rows)
}

fn has_empty_row(rows: &[u32]) -> bool
    ensures { result ≡ list_any (λ n. n == 0) rows.now }
{
    rows.iter().any(|row| *row == 0)
}

/// Whether no row is longer than the one above.
fn is_falling(rows: &[u32]) -> bool
    ensures { result ≡ is_falling rows.now }
{
    'rows: for place in 1..rows.len() {
        if rows[place] > rows[place - 1] {
            return false;
        }
    }
    true
}

/// The number of boxes in at most nine rows.
fn box_count(rows: &[u32]) -> u64
    requires { length rows.now ≤ 9 }
    ensures { result ≡ sum rows.now }
{
    rows.iter().map(|row| u64::from(*row)).sum()
}

/// Whether there are too many boxes.
fn is_large(cartan: Cartan, boxes: u64) -> bool
    ensures { result ≡ is_large cartan boxes }
{
    if boxes > MOST_BOXES {
        return true;
    }
    let letters = u64::from(vector_crystals::base_size(cartan));
    capped_power(letters, boxes as u8) > MOST_WORDS
}

/// The power of a number, or `u64::MAX` where it is larger.
fn capped_power(base: u64, exponent: u8) -> u64
    requires { 1 ≤ base }
    ensures { result ≡ min (base ^ exponent) (2 ^ 64 - 1) }
{
    let mut power = 1u64;
    'factors: for _ in 0..exponent {
        power = power.saturating_mul(base);
    }
    power
}

/// The lengths of at most nine rows, filled up to nine.
fn padded_rows(rows: &[u32]) -> [u8; 9]
    requires few { length rows.now ≤ 9 }
    requires small { sum rows.now ≤ 40 }
    ensures { result ≡ padded 0 9 rows.now }
{
    let mut padded = [0; 9];
    'rows: for (place, row) in rows.iter().enumerate() {
        padded[place] = *row as u8;
    }
    padded
}
