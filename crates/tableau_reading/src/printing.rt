//! How words and weights are printed.
ghost use Rattle.std.specs.Prelude.{◌≡◌, ℕ, ◌+◌, ◌*◌, ◌%◌, ◌^◌, ◌≤◌, ◌<◌, [], ◌∷◌, ◌++◌, nat_le, length, map, slice_index, ℤ, neg_ℤ, pos};
ghost use Rattle.std.specs.Fmt.{signed_decimal};
ghost use Rattle.crystal_cartan.specs.Weights.{IsSmall, IsSmallCoordinate};
ghost use Rattle.vector_crystals.specs.Letters.{letter_count, letter_at};
ghost use Rattle.spin_crystals.specs.Signs.{HasHalf, half_size, signs_at, vector_of};
ghost use Rattle.tensor_words.specs.Spaces.{factor_at};
ghost use Rattle.tensor_words.specs.Codes.{IsWord};
ghost use Rattle.tableau_reading.specs.Texts.{token, sign_byte, signs_text, word_text, half_text, coordinate_text, weight_text, blank_before};

use crystal_cartan::{Cartan, Weight};
use crystal_streams::Line;
use spin_crystals::{Half, Signs};
use tensor_words::{Factor, Space, Word, letter_of_digit, signs_of_digit};

/// Appends a word: a token for each factor, with single blanks between them. A letter is printed in decimal,
/// a vector of signs as its signs. That takes at most 160 bytes, for which there must be room.
pub fn print_word(space: &Space, word: &Word, out: &mut Line)
    requires word { IsWord space.now word.now }
    requires room { length out.old + 160 ≤ 512 }
    ensures text { out.new ≡ out.old ++ word_text space.now word.now }
    ensures fits { length out.new ≤ length out.old + 160 }
{
    'places: for place in 0..space.count() {
        print_blank(place, out);
        print_token(space, word, place, out);
    }
}

/// Appends a weight: its coordinates with single blanks between them, a half as `1/2`. That takes at most 80 bytes,
/// for which there must be room.
pub fn print_weight(weight: &Weight, out: &mut Line)
    requires small { IsSmall weight.now }
    requires room { length out.old + 80 ≤ 512 }
    ensures text { out.new ≡ out.old ++ weight_text weight.now }
    ensures fits { length out.new ≤ length out.old + 80 }
{
    'places: for place in 0..weight.coordinates() {
        print_blank(place, out);
        print_coordinate(weight.doubled_at(place + 1), out);
    }
}

/// Appends the blank in front of the token at this place, counted from 0.
fn print_blank(place: u8, out: &mut Line)
    requires { length out.old < 512 }
    ensures { out.new ≡ out.old ++ blank_before place }
{
    if place > 0 {
        out.text(b" ");
    }
}

/// Appends the token of a word's element at this place, counted from 0.
#[tactic(auto, unfolding(crate::specs::Texts::token, tensor_words::specs::Spaces::base_size))]
fn print_token(space: &Space, word: &Word, place: u8, out: &mut Line)
    requires word { IsWord space.now word.now }
    requires place { place < length space.now.factors }
    requires room { length out.old + 20 ≤ 512 }
    ensures { out.new ≡ out.old ++ token space.now.cartan (factor_at space.now place) (slice_index word.now place) }
{
    let cartan = space.cartan();
    let digit = space.digit_in(word, place);
    match space.factor(place) {
        Factor::Vector => print_letter(cartan, digit, out),
        Factor::Spin => print_signs(cartan, Half::Whole, digit, out),
        Factor::SpinPlus => print_signs(cartan, Half::Plus, digit, out),
        Factor::SpinMinus => print_signs(cartan, Half::Minus, digit, out),
    }
}

/// Appends the letter with this digit.
fn print_letter(cartan: Cartan, digit: u16, out: &mut Line)
    requires digit { digit < letter_count cartan }
    requires room { length out.old + 20 ≤ 512 }
    ensures { out.new ≡ out.old ++ signed_decimal (letter_at cartan digit) }
{
    let letter = letter_of_digit(cartan, digit);
    out.number(i64::from(letter.0));
}

/// Appends the signs of the vector with this digit.
fn print_signs(cartan: Cartan, half: Half, digit: u16, out: &mut Line)
    requires half { HasHalf cartan half }
    requires digit { digit < half_size half cartan.rank }
    requires room { length out.old + 20 ≤ 512 }
    ensures { out.new ≡ out.old ++ signs_text (signs_at half cartan.rank digit) }
{
    let _rank = cartan.rank();
    print_vector(signs_of_digit(cartan, half, digit), out);
}

/// Appends the signs of a vector, at most eight.
fn print_vector(signs: Signs, out: &mut Line)
    requires size { signs.size ≤ 8 }
    requires room { length out.old + 20 ≤ 512 }
    ensures { out.new ≡ out.old ++ signs_text (vector_of signs) }
{
    let mut left = signs.size;
    'signs: while left > 0 {
        left -= 1;
        out.text(sign_byte(signs.bits, left));
    }
}

/// The byte of a sign: of the bit that has this many bits below it.
fn sign_byte(bits: u8, below: u8) -> &'static [u8]
    requires { below < 8 }
    ensures { result.now ≡ sign_byte (nat_le (2 ^ below) (bits % 2 ^ (below + 1))) ∷ [] }
{
    if (bits >> below) % 2 == 1 { b"-" } else { b"+" }
}

/// Appends a coordinate, which is given doubled.
#[tactic(auto, unfolding(crate::specs::Texts::coordinate_text))]
fn print_coordinate(doubled: i32, out: &mut Line)
    requires small { IsSmallCoordinate doubled }
    requires room { length out.old + 23 ≤ 512 }
    ensures text { out.new ≡ out.old ++ coordinate_text doubled }
    ensures fits { length out.new ≤ length out.old + 6 }
{
    if doubled < 0 {
        out.text(b"-");
    }
    print_half(doubled.unsigned_abs(), out);
}

/// Appends half of a number: `n/2` where the number n is odd.
fn print_half(doubled: u32, out: &mut Line)
    requires small { doubled ≤ 1000 }
    requires room { length out.old + 22 ≤ 512 }
    ensures text { out.new ≡ out.old ++ half_text doubled }
    ensures fits { length out.new ≤ length out.old + 5 }
{
    if doubled % 2 == 0 {
        out.number(i64::from(doubled / 2));
    } else {
        out.number(i64::from(doubled));
        out.text(b"/2");
    }
}
