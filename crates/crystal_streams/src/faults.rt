// What a call on a stream answers where it does not succeed.
ghost use Rattle.std.specs.Prelude.{◌≡◌};
ghost use Rattle.crystal_streams.specs.declared.faults.ReadEnd.TheVariants.{NoMemory as ReadNoMemory};

use std::alloc::{AllocError, AllocFailed};

/// Memory ran out.
#[derive(Clone, Copy, Debug, PartialEq, Eq)]
pub struct NoMemory;

/// One read or write failed.
#[derive(Clone, Copy, Debug, PartialEq, Eq)]
pub struct Failed;

/// Why `read_all` gave no bytes.
#[derive(Clone, Copy, Debug, PartialEq, Eq)]
pub enum ReadEnd {
    /// A read failed.
    ReadFault,
    /// There were more bytes than the limit.
    TooLong,
    /// Memory ran out.
    NoMemory,
}

/// A write failed before all bytes were out.
#[derive(Clone, Copy, Debug, PartialEq, Eq)]
pub struct WriteFault;

impl From<AllocError> for NoMemory {
    fn from(_error: AllocError) -> NoMemory {
        NoMemory
    }
}

impl<T: Drop> From<AllocFailed<T>> for NoMemory {
    fn from(_error: AllocFailed<T>) -> NoMemory {
        NoMemory
    }
}

impl From<NoMemory> for ReadEnd {
    ghost from_gives = { λ _ end. end ≡ ReadNoMemory };

    fn from(_error: NoMemory) -> ReadEnd {
        ReadEnd::NoMemory
    }
}

impl From<AllocError> for ReadEnd {
    ghost from_gives = { λ _ end. end ≡ ReadNoMemory };

    fn from(_error: AllocError) -> ReadEnd {
        ReadEnd::NoMemory
    }
}
