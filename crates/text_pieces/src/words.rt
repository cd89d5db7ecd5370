//! The words of a line.
ghost use Rattle.std.specs.Prelude.{◌≡◌, ◌∷◌, [], ◌<◌, ◌≤◌, drop, length, true, MatchOption, IfSome};
ghost use Rattle.text_pieces.specs.Pieces.{at, is_word, words};

use crate::lines::cut;

/// The byte between two words of a line.
const BLANK: u8 = b' ';

/// The first word of a text, and the text behind it.
pub fn first_word(text: &[u8]) -> Option<(&[u8], &[u8])>
    ensures words { MatchOption result (words text.now ≡ []) (λ found. words text.now ≡ found.0.now ∷ words found.1.now) }
    ensures shorter { IfSome result (λ found. length found.1.now < length text.now) }
    ensures word { IfSome result (λ found. is_word found.0.now ≡ true) }
{
    let mut rest = text;
    loop {
        let (word, behind) = cut(rest, BLANK);
        if !word.is_empty() {
            return Some((word, behind.unwrap_or(&[])));
        }
        let Some(next) = behind else {
            return None;
        };
        rest = next;
    }
}

/// The first word of a text, or the empty text where there is none.
pub fn first(text: &[u8]) -> &[u8]
    ensures { result.now ≡ at (words text.now) 0 }
{
    match first_word(text) {
        Some((word, _)) => word,
        None => &[],
    }
}

/// The text behind the first word, or the empty text where there is no word.
pub fn behind(text: &[u8]) -> &[u8]
    ensures words { words result.now ≡ drop 1 (words text.now) }
    ensures within { length result.now ≤ length text.now }
{
    match first_word(text) {
        Some((_, rest)) => rest,
        None => &[],
    }
}

/// The number of words of a text.
pub fn count_words(text: &[u8]) -> usize
    ensures { result ≡ length (words text.now) }
{
    let mut count = 0;
    let mut rest = text;
    while let Some((_, next)) = first_word(rest) {
        count += 1;
        rest = next;
    }
    count
}
