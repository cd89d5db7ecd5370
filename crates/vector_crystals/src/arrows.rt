//! The operators on letters and the lengths of their strings.
ghost use Rattle.std.specs.Prelude.{◌≡◌, ℕ, ◌≤◌, ◌<◌, IsTrue, ◌↔◌, IfSome};
ghost use Rattle.std.specs.Option.{option_map};
ghost use Rattle.std.specs.Ordering.{int_eq};
ghost use Rattle.crystal_cartan.specs.Types.{CartanType, IsCartan, HasIndex, least_rank};
ghost use Rattle.crystal_cartan.specs.Crystals.{target, origin};
ghost use Rattle.vector_crystals.specs.Letters.{IsLetter};
ghost use Rattle.vector_crystals.specs.VectorCrystals.{first_edges, last_edges, letter_action};

use crate::letters::Letter;
use crystal_cartan::{Cartan, Kind};

/// The operator f_i on a letter, `None` where it gives zero.
pub fn lower(cartan: Cartan, x: Letter, i: u8) -> Option<Letter>
    requires index { HasIndex cartan i }
    requires letter { IsLetter cartan x.0 }
    ensures value { option_map (λ y. y.0) result ≡ (letter_action cartan i).lower x.0 }
    ensures letter { IfSome result (λ y. IsLetter cartan y.0) }
{
    if i < cartan.rank() {
        first_lower(cartan.kind(), x, i)
    } else {
        last_lower(cartan.kind(), x, i)
    }
}

/// The operator e_i on a letter, `None` where it gives zero.
pub fn raise(cartan: Cartan, x: Letter, i: u8) -> Option<Letter>
    requires index { HasIndex cartan i }
    requires letter { IsLetter cartan x.0 }
    ensures value { option_map (λ y. y.0) result ≡ (letter_action cartan i).raise x.0 }
    ensures letter { IfSome result (λ y. IsLetter cartan y.0) }
{
    if i < cartan.rank() {
        first_raise(cartan.kind(), x, i)
    } else {
        last_raise(cartan.kind(), x, i)
    }
}

/// How often f_i can be applied to a letter: two times at most.
pub fn phi(cartan: Cartan, x: Letter, i: u8) -> u32
    requires index { HasIndex cartan i }
    requires letter { IsLetter cartan x.0 }
    ensures value { result ≡ (letter_action cartan i).phi x.0 }
    ensures small { result ≤ 2 }
{
    match lower(cartan, x, i) {
        None => 0,
        Some(_) if is_long(cartan, i) && x.0 > 0 => 2,
        Some(_) => 1,
    }
}

/// How often e_i can be applied to a letter: two times at most.
pub fn eps(cartan: Cartan, x: Letter, i: u8) -> u32
    requires index { HasIndex cartan i }
    requires letter { IsLetter cartan x.0 }
    ensures value { result ≡ (letter_action cartan i).eps x.0 }
    ensures small { result ≤ 2 }
{
    match raise(cartan, x, i) {
        None => 0,
        Some(_) if is_long(cartan, i) && x.0 < 0 => 2,
        Some(_) => 1,
    }
}

/// Whether the index has a string of three letters, which is r, 0 and r with a bar in B_r.
fn is_long(cartan: Cartan, i: u8) -> bool
    ensures long { IsTrue result ↔ ((cartan.kind ≡ Kind.B) × (i ≡ cartan.rank)) }
    ensures classical { IsCartan cartan }
{
    i == cartan.rank() && matches!(cartan.kind(), Kind::B)
}

/// Where the arrow from x leads whose index i is below the rank.
fn first_lower(kind: Kind, x: Letter, i: u8) -> Option<Letter>
    requires { (1 ≤ i) × (i ≤ 8) }
    ensures { option_map (λ y. y.0) result ≡ target int_eq (first_edges kind i) i x.0 }
{
    let index = i as i8;
    if x.0 == index {
        return Some(Letter(index + 1));
    }
    match kind {
        Kind::B | Kind::C | Kind::D if x.0 == -(index + 1) => Some(Letter(-index)),
        _ => None,
    }
}

/// Where the arrow to x comes from whose index i is below the rank.
fn first_raise(kind: Kind, x: Letter, i: u8) -> Option<Letter>
    requires { (1 ≤ i) × (i ≤ 8) }
    ensures { option_map (λ y. y.0) result ≡ origin int_eq (first_edges kind i) i x.0 }
{
    let index = i as i8;
    if x.0 == index + 1 {
        return Some(Letter(index));
    }
    match kind {
        Kind::B | Kind::C | Kind::D if x.0 == -index => Some(Letter(-(index + 1))),
        _ => None,
    }
}

/// Where the arrow from x leads whose index is the rank.
fn last_lower(kind: Kind, x: Letter, r: u8) -> Option<Letter>
    requires { (least_rank kind ≤ r) × (r ≤ 8) }
    ensures { option_map (λ y. y.0) result ≡ target int_eq (last_edges kind r) r x.0 }
{
    let rank = r as i8;
    match kind {
        Kind::A if x.0 == rank => Some(Letter(rank + 1)),
        Kind::B if x.0 == rank => Some(Letter(0)),
        Kind::B if x.0 == 0 => Some(Letter(-rank)),
        Kind::C if x.0 == rank => Some(Letter(-rank)),
        Kind::D if x.0 == rank - 1 => Some(Letter(-rank)),
        Kind::D if x.0 == rank => Some(Letter(-(rank - 1))),
        _ => None,
    }
}

/// Where the arrow to x comes from whose index is the rank.
fn last_raise(kind: Kind, x: Letter, r: u8) -> Option<Letter>
    requires { (least_rank kind ≤ r) × (r ≤ 8) }
    ensures { option_map (λ y. y.0) result ≡ origin int_eq (last_edges kind r) r x.0 }
{
    let rank = r as i8;
    match kind {
        Kind::A if x.0 == rank + 1 => Some(Letter(rank)),
        Kind::B if x.0 == 0 => Some(Letter(rank)),
        Kind::B if x.0 == -rank => Some(Letter(0)),
        Kind::C if x.0 == -rank => Some(Letter(rank)),
        Kind::D if x.0 == -rank => Some(Letter(rank - 1)),
        Kind::D if x.0 == -(rank - 1) => Some(Letter(rank)),
        _ => None,
    }
}
