//! Tables of a space: a row for each element of each factor, the values of the places, and shifts.
ghost use Rattle.std.specs.Prelude.{◌≡◌, ℕ, ◌*◌, ◌≤◌, ◌<◌, length, IfOk, IfSome};
ghost use Rattle.tensor_words.specs.Spaces.{size_at};
ghost use Rattle.tensor_words.specs.Steps.{IsRow};
ghost use Rattle.tensor_words.specs.Tables.{IsRowAt, AreRows, AreValues, IsBitShift, AreBitShifts};

use crate::spaces::Space;
use crystal_cartan::Weight;
use std::alloc::{AllocError, Global};

/// What the operators do to one element of a factor, and its weight. The entry of an index stands at the index less 1.
#[derive(Clone, Copy, Debug)]
pub struct Row {
    /// How often f_i can be applied, 0 to 2.
    pub phi: [u8; 8],
    /// How often e_i can be applied, 0 to 2.
    pub eps: [u8; 8],
    /// The digit of what f_i makes of the element, `None` for zero.
    pub lower: [Option<u8>; 8],
    /// The digit of what e_i makes of the element, `None` for zero.
    pub raise: [Option<u8>; 8],
    pub weight: Weight,
}

/// The number of elements of the largest factor.
pub(crate) fn widest(space: &Space) -> usize
    ensures some { (0 < result) × (result ≤ 256) }
    ensures wide { (k : ℕ) → k < length space.now.factors → size_at space.now k ≤ result }
{
    let mut width = 1usize;
    'places: for place in 0..space.count() {
        width = width.max(space.base_size(place) as usize);
    }
    width
}

/// The rows of all elements, `width` for each factor.
pub(crate) fn rows_of(alloc: Global, space: &Space, width: usize) -> Result<Vec<Row>, AllocError>
    requires width { (0 < width) × (width ≤ 256) }
    requires wide { (k : ℕ) → k < length space.now.factors → size_at space.now k ≤ width }
    ensures { IfOk result (λ rows. AreRows space.now width rows.items) }
{
    let count = space.count() as usize * width;
    let mut rows = Vec::with_capacity(alloc, count)?;
    'rows: for at in 0..count {
        rows.push(row_at(space, width, at))?;
    }
    Ok(rows)
}

/// The row at this place of a table with `width` rows for each factor.
fn row_at(space: &Space, width: usize, at: usize) -> Row
    requires width { (0 < width) × (width ≤ 256) }
    requires at { at < length space.now.factors * width }
    ensures { IsRowAt space.now width at result }
{
    let cartan = space.cartan();
    let place = (at / width) as u8;
    let digit = (at % width) as u16;
    if u32::from(digit) < space.base_size(place) {
        row_of(space, place, digit)
    } else {
        Row {
            phi: [0; 8],
            eps: [0; 8],
            lower: [None; 8],
            raise: [None; 8],
            weight: Weight::zero(cartan),
        }
    }
}

/// The row of the element with this digit of the factor at this place, counted from 0.
fn row_of(space: &Space, place: u8, digit: u16) -> Row
    requires place { place < length space.now.factors }
    requires digit { digit < size_at space.now place }
    ensures { IsRow space.now place digit result }
{
    let _size = space.base_size(place);
    let weight = space.digit_weight(place, digit);
    let mut phi = [0; 8];
    let mut eps = [0; 8];
    let mut lower = [None; 8];
    let mut raise = [None; 8];
    'indices: for entry in 0..space.cartan().rank() {
        phi[entry as usize] = space.digit_phi(place, digit, entry + 1) as u8;
        eps[entry as usize] = space.digit_eps(place, digit, entry + 1) as u8;
        lower[entry as usize] = narrow(space.digit_lower(place, digit, entry + 1));
        raise[entry as usize] = narrow(space.digit_raise(place, digit, entry + 1));
    }
    Row {
        phi,
        eps,
        lower,
        raise,
        weight,
    }
}

/// A digit as it is kept in a row.
fn narrow(digit: Option<u16>) -> Option<u8>
    requires { IfSome digit (λ d. d < 256) }
    ensures { result ≡ digit }
{
    match digit {
        Some(digit) => Some(digit as u8),
        None => None,
    }
}

/// The values of the places.
pub(crate) fn values_of(space: &Space) -> [u64; 40]
    ensures { AreValues space.now result }
{
    let mut values = [1; 40];
    let mut value = 1u64;
    let mut place = space.count();
    'places: while place > 0 {
        place -= 1;
        values[place as usize] = value;
        value *= u64::from(space.base_size(place));
    }
    values
}

/// The shifts that divide by the values, where they are powers of 2.
pub(crate) fn shifts_of(values: &[u64; 40]) -> [Option<u8>; 40]
    ensures { AreBitShifts values.now result }
{
    let mut shifts = [None; 40];
    'places: for place in 0..40 {
        shifts[place] = shift_of(values[place]);
    }
    shifts
}

/// The shift that divides by the value, if it is a power of 2.
fn shift_of(value: u64) -> Option<u8>
    ensures { IsBitShift value result }
{
    let shift = value.trailing_zeros().min(63);
    if 1u64 << shift == value {
        Some(shift as u8)
    } else {
        None
    }
}
