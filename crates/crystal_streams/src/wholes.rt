// Reading a source to its end, and writing a whole text.
ghost use Rattle.std.specs.Prelude.{◌≡◌, ◌+◌, ◌^◌, ◌<◌, ◌≤◌, length, IfOk, OnOk, IfSome, IsErrOf, vec_len};
ghost use Rattle.std.specs.Io.KnownBytes.{IsAtEnd};
ghost use Rattle.crystal_streams.specs.Faults.{Rose};
ghost use Rattle.crystal_streams.specs.Reads.{TakesExactly, TakesAtMost};
ghost use Rattle.crystal_streams.specs.Writes.{Writes};

use super::faults::{Failed, NoMemory, ReadEnd, WriteFault};
use super::sinks::Sink;
use super::sources::Source;
use std::alloc::Global;

// How many bytes one read of `read_all` asks for at most.
const CHUNK: usize = 8192;

/// Reads a source to its end: all its bytes, if there are at most `limit`, which is below 2^32.
///
/// `TooLong` comes where there are more, and has then taken `limit + 1`; `ReadFault` only where
/// a read failed. After `ReadFault` and `NoMemory` the bytes read so far are lost.
pub fn read_all<R: Source>(alloc: Global, source: &mut R, limit: usize) -> Result<Vec<u8>, ReadEnd>
    requires { limit < 2 ^ 32 }
    ensures whole { IfOk result (λ bytes. IfSome (R.left source.old) (λ left. bytes.items ≡ left)) }
    ensures end { OnOk result (IsAtEnd (R.left source.new)) }
    ensures short { IfOk result (λ bytes. vec_len bytes ≤ limit) }
    ensures too_long { IsErrOf result ReadEnd.TooLong →
        TakesExactly (limit + 1) (R.left source.old) (R.left source.new) }
    ensures long { IsErrOf result ReadEnd.TooLong →
        IfSome (R.left source.old) (λ left. limit < length left) }
    ensures read_fault { IsErrOf result ReadEnd.ReadFault →
        Rose (R.faults source.old) (R.faults source.new) }
    ensures gone { TakesAtMost (limit + 1) (R.left source.old) (R.left source.new) }
    ensures later { R.faults source.old ≤ R.faults source.new }
{
    let mut chunk = zeros(alloc, CHUNK)?;
    let mut bytes = Vec::new(alloc);
    while bytes.len() <= limit {
        let most = chunk.len().min(limit + 1 - bytes.len());
        let piece = &mut chunk[..most];
        match source.read(piece) {
            Ok(0) => return Ok(bytes),
            Ok(count) => bytes.extend_from_slice(&piece[..count])?,
            Err(Failed) => return Err(ReadEnd::ReadFault),
        }
    }
    Err(ReadEnd::TooLong)
}

// So many zero bytes.
fn zeros(alloc: Global, count: usize) -> Result<Vec<u8>, NoMemory>
    ensures { IfOk result (λ bytes. vec_len bytes ≡ count) }
{
    Ok(Vec::from_elem(alloc, 0, count)?)
}

/// Writes all the bytes. A `WriteFault` comes only where a write failed, and a front of the bytes
/// is then out.
pub fn write_all<W: Sink>(sink: &mut W, bytes: &[u8]) -> Result<(), WriteFault>
    ensures { Writes (W.taken sink.old) (W.taken sink.new)
        (W.faults sink.old) (W.faults sink.new) bytes.now result }
{
    let mut at = 0;
    while at < bytes.len() {
        match sink.write(&bytes[at..]) {
            Ok(count) => at += count,
            Err(Failed) => return Err(WriteFault),
        }
    }
    Ok(())
}
