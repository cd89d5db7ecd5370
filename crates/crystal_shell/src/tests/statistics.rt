//! How often statistics are fed and dropped.
ghost use Rattle.std.specs.Prelude.{◌≡◌, [], IfOk};

use super::{ROOM, job, strings};
use crate::running::run;
use crystal_characters::{Item, Statistic};
use crystal_streams::{MemorySink, MemorySource, NoMemory};
use std::alloc::{AllocError, Global};
use std::cell::Cell;
use std::rc::Rc;
use std::test::Fail;
use std::thread::Threads;
use worker_gate::OpenGate;

/// A statistic with the name `ends` that reports nothing, and counts how often it is fed and dropped.
struct Counted {
    items: Vec<Item>,
    feeds: Rc<Cell<u32>>,
    drops: Rc<Cell<u32>>,
}

impl Drop for Counted {
    fn drop(self) {
        let Self {
            items: _items,
            feeds: _feeds,
            drops,
        } = self;
        drops.set(drops.get().wrapping_add(1));
    }
}

impl Statistic for Counted {
    ghost use Rattle.std.specs.Prelude.{[], codes};

    ghost named = { λ t. codes "ends" };

    ghost fed = { λ t. t.items.items };

    ghost reported = { λ t items. [] };

    fn name(&self) -> &str {
        "ends"
    }

    fn take(&mut self, item: &Item) -> Result<(), NoMemory> {
        self.items.push(*item)?;
        self.feeds.set(self.feeds.get().wrapping_add(1));
        Ok(())
    }

    fn report(&self, _out: &mut Vec<u8>) -> Result<(), NoMemory> {
        Ok(())
    }
}

/// A statistic that wants memory at its third item.
struct Stubborn {
    counted: Counted,
}

impl Drop for Stubborn {
    fn drop(self) {
        let Self { counted: _counted } = self;
    }
}

impl Statistic for Stubborn {
    ghost use Rattle.std.specs.Prelude.{[], codes};

    ghost named = { λ t. codes "stubborn" };

    ghost fed = { λ t. t.counted.items.items };

    ghost reported = { λ t items. [] };

    fn name(&self) -> &str {
        "stubborn"
    }

    fn take(&mut self, item: &Item) -> Result<(), NoMemory> {
        if self.counted.items.len() == 2 {
            return Err(NoMemory);
        }
        self.counted.take(item)
    }

    fn report(&self, _out: &mut Vec<u8>) -> Result<(), NoMemory> {
        Ok(())
    }
}

/// How often a statistic was fed and dropped.
#[derive(Drop)]
pub(super) struct Counts {
    feeds: Rc<Cell<u32>>,
    drops: Rc<Cell<u32>>,
}

impl Counts {
    pub(super) fn new(alloc: Global) -> Result<Counts, AllocError> {
        Ok(Counts {
            feeds: Rc::new(alloc, Cell::new(0))?,
            drops: Rc::new(alloc, Cell::new(0))?,
        })
    }

    /// A statistic that is counted here.
    fn statistic(&self, alloc: Global) -> Result<Counted, AllocError>
        ensures { IfOk result (λ counted. counted.items.items ≡ []) }
    {
        Ok(Counted {
            items: Vec::new(alloc),
            feeds: self.feeds.clone()?,
            drops: self.drops.clone()?,
        })
    }

    pub(super) fn get(&self) -> (u32, u32) {
        (self.feeds.get(), self.drops.get())
    }
}

/// The status and the output of `grow 2 ends stubborn`.
pub(super) fn stubborn_status<T: Threads + Sync>(
    rt: &T,
    alloc: Global,
    text: &str,
    ends: &Counts,
    stubborn: &Counts,
) -> Result<(u8, Vec<u8>), Fail> {
    let words = strings(alloc, &["grow", "2", "ends", "stubborn"])?;
    let input = text.as_bytes().to_vec(alloc)?;
    let mut source = MemorySource::new(input, Vec::new(alloc), 8);
    let mut sink = MemorySink::new(alloc, ROOM, Vec::new(alloc), 16)?;
    let first = ends.statistic(alloc)?;
    let counted = stubborn.statistic(alloc)?;
    let mut stats: Vec<Box<dyn Statistic>> = Vec::new(alloc);
    stats.push(Box::new(alloc, first)?)?;
    stats.push(Box::new(alloc, Stubborn { counted })?)?;
    let outcome = run(
        rt,
        alloc,
        words.as_slice(),
        &mut source,
        &mut sink,
        stats,
        &OpenGate,
    );
    Ok((outcome.status, sink.bytes().to_vec(alloc)?))
}

/// The status of a run with two such statistics, which have one name.
fn status_of_two<T: Threads + Sync>(
    rt: &T,
    alloc: Global,
    words: &[String],
    source: &mut MemorySource,
    sink: &mut MemorySink,
    first: Counted,
    second: Counted,
) -> Result<u8, AllocError>
    requires first { first.items.items ≡ [] }
    requires second { second.items.items ≡ [] }
{
    let mut stats: Vec<Box<dyn Statistic>> = Vec::new(alloc);
    stats.push(Box::new(alloc, first)?)?;
    stats.push(Box::new(alloc, second)?)?;
    Ok(run(rt, alloc, words, source, sink, stats, &OpenGate).status)
}

/// The status of such a run, and how often the first and the second statistic were fed and dropped, where the reads
/// and writes of these numbers fail.
fn run_counted<T: Threads + Sync>(
    rt: &T,
    alloc: Global,
    words: &[&str],
    text: &str,
    read: u64,
    write: u64,
) -> Result<(u8, (u32, u32), (u32, u32)), Fail> {
    let words = strings(alloc, words)?;
    let mut source = MemorySource::new(job(alloc, text)?, [read].to_vec(alloc)?, 4096);
    let mut sink = MemorySink::new(alloc, ROOM, [write].to_vec(alloc)?, 4096)?;
    let first = Counts::new(alloc)?;
    let second = Counts::new(alloc)?;
    let ended = status_of_two(
        rt,
        alloc,
        words.as_slice(),
        &mut source,
        &mut sink,
        first.statistic(alloc)?,
        second.statistic(alloc)?,
    )?;
    Ok((ended, first.get(), second.get()))
}

#[test]
fn statistics_are_dropped_once(rt: HostRuntime) -> Result<(), Fail> {
    let whole = "type A 2\nshape 2 1\n";
    let full = "type A 2\nshape 2 1\ncells 7\n";
    for (words, text, read, write, status, feeds) in [
        (["grow", "1", "ends"].as_slice(), whole, 9, 9, 0, 8),
        (["grow", "1"].as_slice(), whole, 9, 9, 0, 0),
        (["grow", "1", "strings"].as_slice(), whole, 9, 9, 1, 0),
        (["grow", "1", "ends"].as_slice(), "type A 9\n", 9, 9, 2, 0),
        (["grow", "1", "ends"].as_slice(), full, 9, 9, 3, 0),
        (["grow", "1", "ends"].as_slice(), whole, 1, 9, 4, 0),
        (["grow", "1", "ends"].as_slice(), whole, 9, 1, 5, 8),
    ] {
        let ended = run_counted(&rt, rt.alloc(), words, text, read, write)?;
        assert!(rt; ended == (status, (feeds, 1), (0, 1)));
    }
    Ok(())
}
