//! Numbers among the command words.

ghost use Rattle.std.specs.Prelude.{◌≡◌};
ghost use Rattle.std.specs.Char.{is_ascii_digit};
ghost use Rattle.std.specs.List.{list_all};
ghost use Rattle.command_words.specs.Number.{number_in, is_numeral};

/// Whether each byte of the text is a decimal digit.
fn has_digits_only(text: &str) -> bool
    ensures { result ≡ list_all is_ascii_digit text.now }
{
    text.bytes().all(|byte| byte.is_ascii_digit())
}

/// Whether the text is decimal digits, at least one and at most `most`.
fn is_number_text(text: &str, most: usize) -> bool
    ensures { result ≡ is_numeral most text.now }
{
    (1..=most).contains(&text.len()) && has_digits_only(text)
}

/// The number that at most `most` decimal digits write, where it lies in `low..=high`.
pub(crate) fn number_within(text: &str, most: usize, low: u32, high: u32) -> Option<u32>
    ensures { result ≡ number_in most low high text.now }
{
    if !is_number_text(text, most) {
        return None;
    }
    match text.parse::<u32>() {
        Ok(number) if low <= number && number <= high => Some(number),
        _ => None,
    }
}
