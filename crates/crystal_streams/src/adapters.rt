// The edge to the outside: std's readers and writers as a source and a sink.
ghost use Rattle.std.specs.Prelude.{◌≡◌, ℕ, ◌<◌, ◌≤◌, length, None, IfOk, MatchResult, IfSome};
ghost use Rattle.crystal_streams.specs.Faults.{HasCause, next_count};

use super::faults::Failed;
use super::sinks::Sink;
use super::sources::Source;
use std::io::{Read, Write};
use std::marker::Model;

/// A reader of std as a source. It tells nothing of the bytes, and counts the reads that failed.
/// An interrupted read counts as failed.
#[derive(Debug, Drop)]
pub struct InputAdapter<T> {
    reader: T,
    failures: u64,
}

impl<T> Model for InputAdapter<T> {
    ghost Value = { ℕ };

    ghost view = { λ s. s.failures };
}

impl<T: Read> InputAdapter<T> {
    /// The reader as a source that has not failed yet.
    pub fn new(reader: T) -> InputAdapter<T>
        ensures { result ≡ 0 }
    {
        InputAdapter {
            reader,
            failures: 0,
        }
    }
}

impl<T: Read> Source for InputAdapter<T> {
    ghost left = { λ _. None };

    ghost faults = { λ s. s };

    fn read(&mut self, into: &mut [u8]) -> Result<usize, Failed>
        requires { 0 < length into.old }
        ensures bound { IfOk result (λ count. count ≤ length into.new) }
        ensures cause { HasCause self.old self.new result }
        ensures counted { MatchResult result
            (λ _. self.new ≡ self.old)
            (λ _. self.new ≡ next_count self.old) }
    {
        match self.reader.read(into) {
            Ok(count) => Ok(count),
            Err(_) => {
                self.failures = self.failures.saturating_add(1);
                Err(Failed)
            }
        }
    }
}

/// A writer of std as a sink that flushes within each write. It tells nothing of the bytes, and
/// counts the writes that failed: a refused write, one that took nothing, or a refused flush,
/// where the writer may have taken bytes.
#[derive(Debug, Drop)]
pub struct OutputAdapter<T> {
    writer: T,
    failures: u64,
}

impl<T> Model for OutputAdapter<T> {
    ghost Value = { ℕ };

    ghost view = { λ s. s.failures };
}

impl<T: Write> OutputAdapter<T> {
    /// The writer as a sink that has not failed yet.
    pub fn new(writer: T) -> OutputAdapter<T>
        ensures { result ≡ 0 }
    {
        OutputAdapter {
            writer,
            failures: 0,
        }
    }
}

impl<T: Write> Sink for OutputAdapter<T> {
    ghost taken = { λ _. None };

    ghost faults = { λ s. s };

    fn write(&mut self, piece: &[u8]) -> Result<usize, Failed>
        requires { 0 < length piece.now }
        ensures bound { IfOk result (λ count. (1 ≤ count) × (count ≤ length piece.now)) }
        ensures cause { HasCause self.old self.new result }
        ensures counted { MatchResult result
            (λ _. self.new ≡ self.old)
            (λ _. self.new ≡ next_count self.old) }
    {
        match write_flushed(&mut self.writer, piece) {
            Some(count) => Ok(count),
            None => {
                self.failures = self.failures.saturating_add(1);
                Err(Failed)
            }
        }
    }
}

// How many bytes one write took, if it took any and the flush after it was not refused.
fn write_flushed<T: Write>(writer: &mut T, piece: &[u8]) -> Option<usize>
    ensures { IfSome result (λ count. (1 ≤ count) × (count ≤ length piece.now)) }
{
    let count = writer.write(piece).ok()?;
    writer.flush().ok()?;
    if count == 0 { None } else { Some(count) }
}
