//! How words are read.
ghost use Rattle.std.specs.Prelude.{◌≡◌, ℕ, ◌+◌, ◌<◌, ◌≤◌, ◌^◌, ◌==◌, IsTrue, IfOk, IfSome, length, option_map, option_and_then};
ghost use Rattle.crystal_cartan.specs.Types.{IsCartan};
ghost use Rattle.vector_crystals.specs.Letters.{letter_count};
ghost use Rattle.spin_crystals.specs.Signs.{HasHalf, half_size, is_of_half, vector_of};
ghost use Rattle.tensor_words.specs.Spaces.{has_factor, base_size};
ghost use Rattle.tensor_words.specs.Codes.{IsWord};
ghost use Rattle.text_pieces.specs.Numbers.{read_digits, all_some};
ghost use Rattle.text_pieces.specs.Pieces.{words};
ghost use Rattle.tableau_reading.specs.Tokens.{negated, letter_value, digit_if_letter, sign_of, read_signs, token_digit, bad_token, word_read};

use crystal_cartan::Cartan;
use spin_crystals::{Half, Signs};
use tensor_words::{Factor, Space, Word, letter_digit, signs_digit};
use text_pieces::{count_words, first_word, read_digits};
use vector_crystals::{Letter, is_letter};

/// Why a text is no word of a space.
#[derive(Clone, Copy, Debug, PartialEq, Eq)]
pub enum WordFault {
    /// The number of tokens is not the number of factors.
    WrongLength,
    /// The token at this place, counted from 1, is no letter of the type, and the factor there is a vector crystal.
    NoLetter { place: u32 },
    /// The token at this place, counted from 1, is no vector of signs of the factor there, a spin crystal.
    BadSigns { place: u32 },
}

/// Reads a word: one token for each factor, with blanks around them. A letter has one or two digits, and a `-` in
/// front where it is barred; a vector of signs has a `+` or a `-` for each sign.
pub fn read_word(space: &Space, text: &[u8]) -> Result<Word, WordFault>
    ensures exact { result ≡ word_read space.now (words text.now) }
    ensures word { IfOk result (IsWord space.now) }
{
    let count = space.count();
    if count_words(text) != usize::from(count) {
        return Err(WordFault::WrongLength);
    }
    let mut word = some_word(space);
    let mut rest = text;
    'places: for place in 0..count {
        let Some(found) = first_word(rest) else {
            return Err(WordFault::WrongLength);
        };
        let (token, behind) = found;
        let factor = space.factor(place);
        let Some(digit) = token_digit(space.cartan(), factor, token) else {
            return Err(bad_token(factor, u32::from(place) + 1));
        };
        word = space.put(&word, place, digit);
        rest = behind;
    }
    Ok(word)
}

/// A word of the space.
pub(crate) fn some_word(space: &Space) -> Word
    ensures { IsWord space.now result }
{
    let _count = space.count();
    match space.word_of(0) {
        Some(word) => word,
        None => unreachable!(),
    }
}

/// The fault of a bad token at this place, counted from 1.
fn bad_token(factor: Factor, place: u32) -> WordFault
    ensures { result ≡ bad_token factor place }
{
    match factor {
        Factor::Vector => WordFault::NoLetter { place },
        Factor::Spin | Factor::SpinPlus | Factor::SpinMinus => WordFault::BadSigns { place },
    }
}

/// The digit of the element that a token stands for.
#[tactic(auto, unfolding(crate::specs::Tokens::token_digit, tensor_words::specs::Spaces::base_size))]
fn token_digit(cartan: Cartan, factor: Factor, token: &[u8]) -> Option<u16>
    requires had { IsTrue (has_factor cartan.kind factor) }
    ensures value { result ≡ token_digit cartan factor token.now }
    ensures below { IfSome result (λ d. d < base_size cartan factor) }
{
    match factor {
        Factor::Vector => read_letter(cartan, token),
        Factor::Spin => read_signs(cartan, Half::Whole, token),
        Factor::SpinPlus => read_signs(cartan, Half::Plus, token),
        Factor::SpinMinus => read_signs(cartan, Half::Minus, token),
    }
}

/// The digit of the letter that a token stands for.
fn read_letter(cartan: Cartan, token: &[u8]) -> Option<u16>
    ensures value { result ≡ option_and_then (digit_if_letter cartan) (letter_value token.now) }
    ensures below { IfSome result (λ d. d < letter_count cartan) }
{
    let _classical = vector_crystals::base_size(cartan);
    let value = letter_value(token)?;
    if is_letter(cartan, value) {
        Some(letter_digit(cartan, Letter(value)))
    } else {
        None
    }
}

/// The number that a letter's token stands for.
fn letter_value(token: &[u8]) -> Option<i8>
    ensures { result ≡ letter_value token.now }
{
    match token {
        [b'-', digits @ ..] => negated(two_digits(digits)?),
        _ => Some(two_digits(token)? as i8),
    }
}

/// Minus a number, where it is not 0.
fn negated(number: u8) -> Option<i8>
    requires { number < 100 }
    ensures { result ≡ negated number }
{
    if number == 0 {
        None
    } else {
        Some(-(number as i8))
    }
}

/// The value of one or two decimal digits.
fn two_digits(text: &[u8]) -> Option<u8>
    ensures value { result ≡ read_digits 2 text.now }
    ensures below { IfSome result (λ number. number < 100) }
{
    let value = read_digits(text, 2)?;
    Some(value as u8)
}

/// The digit of the vector that a token of signs stands for.
fn read_signs(cartan: Cartan, half: Half, token: &[u8]) -> Option<u16>
    requires half { HasHalf cartan half }
    ensures value { result ≡ read_signs cartan half token.now }
    ensures below { IfSome result (λ d. d < half_size half cartan.rank) }
{
    if token.len() != usize::from(cartan.rank()) {
        return None;
    }
    let signs = signs_of(token)?;
    if is_of_half(half, signs) {
        Some(signs_digit(cartan, half, signs))
    } else {
        None
    }
}

/// The vector that a text of at most eight signs stands for.
fn signs_of(text: &[u8]) -> Option<Signs>
    requires { length text.now ≤ 8 }
    ensures value { option_map vector_of result ≡ all_some sign_of text.now }
    ensures size { IfSome result (λ x. x.size ≡ length text.now) }
    ensures below { IfSome result (λ x. x.bits < 2 ^ length text.now) }
{
    let mut bits = 0;
    'signs: for byte in text {
        let bit = sign_bit(*byte)?;
        bits = 2 * bits + bit;
    }
    Some(Signs {
        bits,
        size: text.len() as u8,
    })
}

/// The bit of a sign: 1 for minus.
fn sign_bit(byte: u8) -> Option<u8>
    ensures value { option_map (λ bit. bit == 1) result ≡ sign_of byte }
    ensures below { IfSome result (λ bit. bit ≤ 1) }
{
    match byte {
        b'+' => Some(0),
        b'-' => Some(1),
        _ => None,
    }
}

/// Whether a vector belongs to the half.
fn is_of_half(half: Half, signs: Signs) -> bool
    ensures { result ≡ is_of_half half (vector_of signs) }
{
    match half {
        Half::Whole => true,
        Half::Plus => !signs.odd_minuses(),
        Half::Minus => signs.odd_minuses(),
    }
}
