//! One line of text while it is being made, and a line behind a text.
ghost use Rattle.std.specs.Prelude.{◌≡◌, ◌+◌, ◌≤◌, List, [], ◌++◌, ℕ, length, take, is_ok, if◌then◌else◌};
ghost use Rattle.std.specs.Fmt.{signed_decimal};
ghost use Rattle.crystal_streams.specs.Lines.{ended};

use crate::faults::NoMemory;
use itoa::Buffer;
use std::marker::Model;

/// A line that is being made: at most 512 bytes, kept without memory of its own.
#[derive(Debug, Drop)]
pub struct Line {
    bytes: [u8; 512],
    len: usize,
}

impl Model for Line {
    ghost Value = { List ℕ };

    ghost view = { λ s. take s.len s.bytes };

    ghost invariant = { λ s. s.len ≤ 512 };
}

impl Line {
    /// The empty line.
    pub fn new() -> Line
        ensures { result ≡ [] }
    {
        Line {
            bytes: [0; 512],
            len: 0,
        }
    }

    /// How many bytes the line can still take.
    pub fn room(&self) -> usize
        ensures { result + length self.now ≡ 512 }
    {
        512 - self.len
    }

    /// The bytes of the line so far.
    pub fn bytes(&self) -> &[u8]
        ensures value { result.now ≡ self.now }
        ensures bound { length self.now ≤ 512 }
    {
        &self.bytes[..self.len]
    }

    /// Appends a piece, for which there must be room.
    pub fn text(&mut self, piece: &[u8])
        requires { length self.old + length piece.now ≤ 512 }
        ensures { self.new ≡ self.old ++ piece.now }
    {
        let end = self.len + piece.len();
        self.bytes[self.len..end].copy_from_slice(piece);
        self.len = end;
    }

    /// Appends a number in decimal, at most 20 bytes, for which there must be room.
    pub fn number(&mut self, value: i64)
        requires { length self.old + 20 ≤ 512 }
        ensures appends { self.new ≡ self.old ++ signed_decimal value }
        ensures fits { length self.new ≤ length self.old + 20 }
    {
        if 0 <= value && value < 10 {
            self.text(&[b'0' + value as u8]);
        } else {
            let mut digits = Buffer::new();
            self.text(digits.format(value).as_bytes());
        }
    }
}

/// Appends a line and its end to a text. After `NoMemory` the text is as before.
pub fn push_line(text: &mut Vec<u8>, line: &Line) -> Result<(), NoMemory>
    ensures { text.new.items ≡ (if is_ok result then text.old.items ++ ended line.now else text.old.items) }
{
    let length = text.len();
    text.extend_from_slice(line.bytes())?;
    if text.push(b'\n').is_err() {
        text.truncate(length);
        return Err(NoMemory);
    }
    Ok(())
}
