//! Words read as decimal numbers.
ghost use Rattle.std.specs.Prelude.{◌≡◌, ◌≤◌, ◌<◌, ◌^◌, IfSome};
ghost use Rattle.text_pieces.specs.Numbers.{read_digits, number_of};

/// Reads a word of one to nine decimal digits, below 10^9. Zeros may stand in front; a sign may not.
pub fn number_of(word: &[u8]) -> Option<u32>
    ensures value { result ≡ number_of word.now }
    ensures below { IfSome result (λ number. number < 10 ^ 9) }
{
    let value = read_digits(word, 9)?;
    Some(value as u32)
}

/// Reads a word of one to `most` decimal digits. Zeros may stand in front; a sign may not.
pub fn read_digits(word: &[u8], most: usize) -> Option<u64>
    requires { most ≤ 10 }
    ensures value { result ≡ read_digits most word.now }
    ensures below { IfSome result (λ value. value < 10 ^ most) }
{
    if word.is_empty() || word.len() > most {
        return None;
    }
    let mut value = 0;
    for byte in word {
        if !byte.is_ascii_digit() {
            return None;
        }
        value = 10 * value + u64::from(*byte - b'0');
    }
    Some(value)
}
