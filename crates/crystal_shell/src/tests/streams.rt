//! Jobs that are cut off, streams that fail, and a statistic that wants memory.

use super::statistics::{Counts, stubborn_status};
use super::{A2, ROOM, run_bare};
use crystal_streams::{MemorySink, MemorySource};
use std::alloc::Global;
use std::test::Fail;
use std::thread::Threads;
use worker_gate::OpenGate;

/// The job of the documented text, of 41 bytes.
const JOB: &str = "crystal-job 1\ntype A 2\nshape 2 1\ncells 8\n";

/// The status and the output of `grow 2` where the job is cut to so many bytes, a read gives at most 8 bytes and a write
/// takes at most 16, and where the reads and writes of these numbers fail.
fn cut<T: Threads + Sync>(
    rt: &T,
    alloc: Global,
    bytes: usize,
    read: u64,
    write: u64,
) -> Result<(u8, Vec<u8>), Fail> {
    let input = JOB.as_bytes()[..bytes.min(JOB.len())].to_vec(alloc)?;
    let source = MemorySource::new(input, [read].to_vec(alloc)?, 8);
    let sink = MemorySink::new(alloc, ROOM, [write].to_vec(alloc)?, 16)?;
    run_bare(rt, alloc, &["grow", "2"], source, sink, &OpenGate)
}

/// Whether such a run ends with this status and this text.
fn ends_with<T: Threads + Sync>(
    rt: &T,
    alloc: Global,
    bytes: usize,
    read: u64,
    write: u64,
    status: u8,
    text: &str,
) -> Result<bool, Fail> {
    let (ended, output) = cut(rt, alloc, bytes, read, write)?;
    Ok(ended == status && output.as_slice() == text.as_bytes())
}

/// Whether a run whose write of this number fails ends with 5, and has written so many bytes of the text.
fn fails_behind<T: Threads + Sync>(
    rt: &T,
    alloc: Global,
    number: u64,
    bytes: usize,
) -> Result<bool, Fail> {
    let (ended, output) = cut(rt, alloc, 41, NEVER, number)?;
    Ok(ended == 5 && output.len() == bytes && A2.as_bytes().starts_with(output.as_slice()))
}

/// Whether a run ends with 6 and without a byte where a statistic wants memory at its third item, and drops both
/// statistics once.
fn wants_memory<T: Threads + Sync>(rt: &T, alloc: Global) -> Result<bool, Fail> {
    let (counted, stubborn) = (Counts::new(alloc)?, Counts::new(alloc)?);
    let (ended, output) = stubborn_status(rt, alloc, JOB, &counted, &stubborn)?;
    Ok(ended == 6 && output.is_empty() && counted.get().1 == 1 && stubborn.get() == (2, 1))
}

/// No read and no write has this number.
const NEVER: u64 = 1_000_000;

/// The text of a job that is refused at this line for this fault.
const HEADER: &str = "refused job line 1 fault 2\n";

const CUT_HEADER: &str = "refused job line 1 fault 1\n";

const NO_TYPE: &str = "refused job line 2 fault 12\n";

const CUT_TYPE: &str = "refused job line 2 fault 1\n";

const NO_SPACE: &str = "refused job line 3 fault 12\n";

const CUT_SPACE: &str = "refused job line 3 fault 1\n";

const CUT_CELLS: &str = "refused job line 4 fault 1\n";

#[test]
fn streams(rt: HostRuntime) -> Result<(), Fail> {
    let alloc = rt.alloc();
    // The job cut to so many bytes, from the first number to the second: the status and the text.
    for (from, to, status, text) in [
        (0, 0, 2, HEADER),
        (1, 13, 2, CUT_HEADER),
        (14, 14, 2, NO_TYPE),
        (15, 22, 2, CUT_TYPE),
        (23, 23, 2, NO_SPACE),
        (24, 32, 2, CUT_SPACE),
        (33, 33, 0, A2),
        (34, 40, 2, CUT_CELLS),
        (41, 41, 0, A2),
    ] {
        for bytes in from..=to {
            assert!(rt; ends_with(&rt, alloc, bytes, NEVER, NEVER, status, text)?);
        }
    }
    // The honest run reads seven times: six times some bytes, and once none.
    for number in 1..=7 {
        assert!(rt; ends_with(&rt, alloc, 41, number, NEVER, 4, "")?);
    }
    // It writes 14 times, and each write but the last takes 16 bytes.
    let mut taken = 0_usize;
    for number in 1..=14 {
        assert!(rt; fails_behind(&rt, alloc, number, taken)?);
        taken = taken.wrapping_add(16);
    }
    assert!(rt; ends_with(&rt, alloc, 41, 8, 15, 0, A2)?);
    assert!(rt; wants_memory(&rt, alloc)?);
    Ok(())
}
