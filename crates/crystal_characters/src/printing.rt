//! Numbers in a line.
ghost use Rattle.std.specs.Prelude.{◌≡◌, ◌+◌, ◌<◌, ◌≤◌, ℕ, ◌++◌, length, decimal, is_ok, if◌then◌else◌};

use crystal_streams::Line;
use itoa::Buffer;

/// Appends a number to a line that has at least 20 bytes of room, which is enough for it.
pub(crate) fn print_number(value: u64, line: &mut Line)
    requires { length line.old + 20 ≤ 512 }
    ensures text { line.new ≡ line.old ++ decimal value }
    ensures fits { length line.new ≤ length line.old + 20 }
{
    let mut digits = Buffer::new();
    line.text(digits.format(value).as_bytes());
}
