// Where bytes go.
ghost use Rattle.std.specs.Prelude.{ℕ, ◌<◌, ◌≤◌, List, length, Option, IfOk};
ghost use Rattle.std.specs.Io.KnownBytes.{WriteAppends};
ghost use Rattle.crystal_streams.specs.Faults.{HasCause};

use super::faults::Failed;

/// Where bytes are written to.
///
/// `taken` is the bytes taken so far where the sink tells them, and `faults` a count of failed
/// writes that never falls and stays at 2^64 - 1.
pub trait Sink {
    ghost taken: { Self → Option (List ℕ) };

    ghost faults: { Self → ℕ };

    /// Takes one byte or more from the front of `piece` and says how many. A write that fails
    /// takes nothing.
    fn write(&mut self, piece: &[u8]) -> Result<usize, Failed>
        requires { 0 < length piece.now }
        ensures bound { IfOk result (λ count. (1 ≤ count) × (count ≤ length piece.now)) }
        ensures bytes { WriteAppends (taken self.old) (taken self.new) result piece.now }
        ensures cause { HasCause (faults self.old) (faults self.new) result };
}
