//! Short lines, and numbers in lines.
ghost use Rattle.std.specs.Prelude.{◌≡◌, ◌+◌, ◌^◌, ◌≤◌, ◌<◌, ◌++◌, ◌∷◌, length, decimal};

use crystal_streams::Line;

/// A line of these bytes.
pub(crate) fn line_of(bytes: &[u8]) -> Line
    requires { length bytes.now ≤ 512 }
    ensures { result ≡ bytes.now }
{
    let mut line = Line::new();
    line.text(bytes);
    line
}

/// A line of a key word, which has its blank behind it, and a number in decimal.
pub(crate) fn keyed_line(key: &[u8], number: u64) -> Line
    requires key { length key.now ≤ 20 }
    requires number { number < 2 ^ 63 }
    ensures text { result ≡ key.now ++ decimal number }
    ensures fits { length result ≤ length key.now + 20 }
{
    let mut line = line_of(key);
    line.number(number as i64);
    line
}

/// Appends a blank and a number in decimal to a line.
pub(crate) fn print_behind_blank(number: u8, line: &mut Line)
    requires { length line.old + 21 ≤ 512 }
    ensures text { line.new ≡ line.old ++ 32 ∷ decimal number }
    ensures fits { length line.new ≤ length line.old + 21 }
    ensures digit { number < 10 → length line.new ≤ length line.old + 2 }
{
    line.text(b" ");
    line.number(i64::from(number));
}
