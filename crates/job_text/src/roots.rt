//! The starts, the roots and the world of a job.
ghost use Rattle.std.specs.Prelude.{◌≡◌, ◌<◌, ◌≤◌, ◌^◌, [], ◌∷◌, ◌++◌, IfOk, OnOk, All, length};
ghost use Rattle.std.specs.List.Sorted.{IsStrictlyIncreasing};
ghost use Rattle.tensor_words.specs.Spaces.{IsSpace, size};
ghost use Rattle.tensor_words.specs.Worlds.{IsWorld, most_cells};
ghost use Rattle.job_text.specs.Jobs.{added_code, added_codes, roots_of};
ghost use Rattle.job_text.specs.Drafts.{starts_from};

use crate::commands::{Command, Script};
use std::alloc::{AllocError, Global};
use tensor_words::{Codes, Space, World};

/// All starts: the top word's code before those of the `start` lines.
pub(crate) fn all_starts(top: Option<u64>, starts: Vec<u64>) -> Result<Vec<u64>, AllocError>
    ensures { IfOk result (λ all. all.items ≡ starts_from top starts.items) }
{
    let mut all = starts;
    if let Some(code) = top {
        all.insert(0, code)?;
    }
    Ok(all)
}

/// The roots of a job: its starts, and what its `add` commands put in, ascending, each once.
pub(crate) fn roots_of(
    alloc: Global,
    starts: &[u64],
    scripts: &[Script],
) -> Result<Vec<u64>, AllocError>
    ensures { IfOk result (λ roots. roots.items ≡ roots_of starts.now scripts.now) }
{
    let mut roots = Vec::from_slice(alloc, starts)?;
    'scripts: for script in scripts {
        put_added(script, &mut roots)?;
    }
    roots.sort_unstable();
    roots.dedup();
    Ok(roots)
}

/// Puts the codes of a script's `add` commands behind the others.
fn put_added(script: &Script, roots: &mut Vec<u64>) -> Result<(), AllocError>
    ensures { OnOk result (roots.new.items ≡ roots.old.items ++ added_codes script.now) }
{
    'commands: for command in script.as_slice() {
        put_code(command, roots)?;
    }
    Ok(())
}

fn put_code(command: &Command, roots: &mut Vec<u64>) -> Result<(), AllocError>
    ensures { OnOk result (roots.new.items ≡ roots.old.items ++ added_code command.now) }
{
    if let Command::Add(code) = command {
        roots.push(*code)?;
    }
    Ok(())
}

/// The world of a job.
pub(crate) fn world_of(space: Space, cells: u32, roots: Vec<u64>) -> World
    requires cells { (1 ≤ cells) × (cells ≤ most_cells) }
    requires rooted { 0 < length roots.items }
    requires few { length roots.items < 2 ^ 32 }
    requires ascending { IsStrictlyIncreasing roots.items }
    requires words { All (λ c. c < size space) roots.items }
    ensures same { result ≡ record { space = space; cells = cells; roots = roots.items } }
    ensures world { IsWorld result }
{
    match World::new(space, cells, Codes::of(roots)) {
        Ok(world) => world,
        Err(_) => unreachable!(),
    }
}
