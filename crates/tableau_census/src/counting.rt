//! The census of a shape.
ghost use Rattle.std.specs.Prelude.{◌≡◌, ◌-◌, ◌≤◌, ◌<◌, [], ◌∷◌, length, slice_index};
ghost use Rattle.vector_crystals.specs.Letters.{letter_count};
ghost use Rattle.tensor_words.specs.Codes.{IsWord};
ghost use Rattle.tensor_words.specs.declared.spaces.Order.TheVariants.{Standard};
ghost use Rattle.tableau_reading.specs.Shapes.{box_count, shape_space};
ghost use Rattle.tableau_census.specs.Listing.{low_at, bound_at, completion_codes};
ghost use Rattle.tableau_census.specs.Outcomes.{IsCounted, IsCompleted};

use crystal_cartan::Kind;
use std::alloc::Global;
use tableau_reading::Shape;
use tensor_words::{Codes, Space, Word};
use thiserror::Error;

/// Why there is no census.
#[derive(Clone, Copy, Debug, PartialEq, Eq, Error)]
pub enum CensusFault {
    #[error("the shape is not of type A")]
    NotTypeA,
    #[error("there are more tableaux than the limit")]
    TooMany,
    #[error("out of memory")]
    NoMemory,
}

/// The codes of the column readings of all semistandard fillings of a shape of type A, ascending, if there are at most
/// `limit` (Bump and Schilling, Crystal Bases, 2017, chapter 3).
pub fn census(alloc: Global, shape: &Shape, limit: u32) -> Result<Codes, CensusFault>
    requires { shape.now.order ≡ Standard }
    ensures { IsCounted shape.now limit result }
{
    if shape.cartan().kind() != Kind::A {
        return Err(CensusFault::NotTypeA);
    }
    let space = shape.space();
    let mut list = Vec::new(alloc);
    match complete(shape, &space, &shape.top(), 0, limit, &mut list) {
        Ok(()) => Ok(Codes::of(list)),
        Err(fault) => Err(fault),
    }
}

/// Lists the codes of the readings that begin like the word, up to the place, which counts from 0.
fn complete(
    shape: &Shape,
    space: &Space,
    word: &Word,
    place: u8,
    limit: u32,
    list: &mut Vec<u64>,
) -> Result<(), CensusFault>
    requires space { space.now ≡ shape_space shape.now }
    requires word { IsWord (shape_space shape.now) word.now }
    requires place { place ≤ box_count shape.now }
    requires room { length list.old.items ≤ limit }
    ensures { IsCompleted list.old.items (completion_codes shape.now (box_count shape.now - place) place word.now) limit list.new.items result }
{
    if place == shape.boxes() {
        return add(space.code_of(word), limit, list);
    }
    let (row, column) = shape.box_at(place);
    let low = lowest(shape, word, row, column);
    let bound = bound(shape, word, row, column);
    'digits: for digit in low..bound {
        let next = space.put(word, place, digit);
        if let Err(fault) = complete(shape, space, &next, place + 1, limit, list) {
            return Err(fault);
        }
    }
    Ok(())
}

/// Adds a code, if the list has room.
fn add(code: u64, limit: u32, list: &mut Vec<u64>) -> Result<(), CensusFault>
    requires { length list.old.items ≤ limit }
    ensures { IsCompleted list.old.items (code ∷ []) limit list.new.items result }
{
    if list.len() >= limit as usize {
        return Err(CensusFault::TooMany);
    }
    match list.push(code) {
        Ok(()) => Ok(()),
        Err(_) => Err(CensusFault::NoMemory),
    }
}

/// The least digit that the box may have.
fn lowest(shape: &Shape, word: &Word, row: u8, column: u8) -> u16
    requires word { IsWord (shape_space shape.now) word.now }
    requires within { column < slice_index shape.now.rows row }
    ensures { result ≡ low_at shape.now word.now row column }
{
    if column == 0 {
        return u16::from(row);
    }
    word.digit(shape.place_of(row, column - 1))
}

/// The digits that the box may have are below this.
fn bound(shape: &Shape, word: &Word, row: u8, column: u8) -> u16
    requires word { IsWord (shape_space shape.now) word.now }
    requires within { column < slice_index shape.now.rows row }
    ensures bound { result ≡ bound_at shape.now word.now row column }
    ensures few { result ≤ letter_count shape.now.cartan }
{
    let height = shape.height(column);
    if row + 1 < height {
        return word.digit(shape.place_of(row + 1, column));
    }
    vector_crystals::base_size(shape.cartan()) as u16
}
