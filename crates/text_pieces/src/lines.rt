//! Texts cut at a byte.
ghost use Rattle.std.specs.Prelude.{◌≡◌, ◌∷◌, ◌<◌, length, ◌==◌, option_map, position, true, IfSome};
ghost use Rattle.text_pieces.specs.Pieces.{are_printed, has_none, pieces, pieces_behind};

/// Cuts a text at the first separator: what stands before it, and what stands behind it.
/// A text with no separator is one piece, with nothing behind it.
pub fn cut(text: &[u8], separator: u8) -> (&[u8], Option<&[u8]>)
    ensures pieces { pieces separator text.now ≡ result.0.now ∷ pieces_behind separator (option_map (λ rest. rest.now) result.1) }
    ensures shorter { IfSome result.1 (λ rest. length rest.now < length text.now) }
    ensures whole { has_none separator result.0.now ≡ true }
{
    match place_of(text, separator) {
        Some(place) => (&text[..place], Some(&text[place + 1..])),
        None => (text, None),
    }
}

/// The first place of a byte.
fn place_of(text: &[u8], wanted: u8) -> Option<usize>
    ensures { result ≡ position (λ byte. byte == wanted) text.now }
{
    text.iter().position(|byte| *byte == wanted)
}

/// Tells whether each byte of a line is printed ASCII, the blank among them: 32 to 126.
pub fn are_printed(line: &[u8]) -> bool
    ensures { result ≡ are_printed line.now }
{
    line.iter().all(|byte| (32..=126).contains(byte))
}
