//! Growth on one thread.
ghost use Rattle.std.specs.Prelude.{◌≡◌, ◌+◌, ◌^◌, ◌<◌, ◌≤◌, [], length, slice_index, IfOk, OnOk, IsErrOf, MatchOption, None, if◌then◌else◌};
ghost use Rattle.std.specs.Option.{option_map};
ghost use Rattle.crystal_cartan.specs.Types.{HasIndex};
ghost use Rattle.tensor_words.specs.Spaces.{size};
ghost use Rattle.tensor_words.specs.Codes.{IsWord, code_of};
ghost use Rattle.tensor_words.specs.TensorRule.{action};
ghost use Rattle.tensor_words.specs.Reach.{IsComponentList, Outnumber};
ghost use Rattle.signature_rule.specs.Places.{ArePlaces};
ghost use Rattle.plain_growth.specs.Growth.{Expands, HasFirstRoots, IsWholeGrowth, MakesGraph, IsGrownList, IsSortedFrom, AreNotes, AddsNotes};
ghost use Rattle.plain_growth.specs.Marks.{AreMarks};

use crate::found::FoundCodes;
use crate::frontier::Growth;
use crate::noted::lowered_of_growth;
use crate::sorting::{codes_of, ranks_of, sorted};
use canonical_graph::Finished;
use signature_rule::{ActingPlaces, lowered_code, places_of, raised_code};
use std::alloc::{AllocError, Global};
use tensor_words::{Steps, Word, World};

/// Why a world did not grow.
#[derive(Clone, Copy, Debug, Drop, PartialEq, Eq)]
pub enum PlainFault {
    /// The reached words outnumber the cells.
    Full,
    NoMemory,
}

/// The graph of all words that are reached from the roots by lowering and raising; `Full` exactly where they
/// outnumber the cells.
pub fn grow_plain(alloc: Global, world: &World) -> Result<Finished, PlainFault>
    ensures grown { IfOk result (λ f. IsComponentList world.now f.codes) }
    ensures space { IfOk result (λ f. f.space ≡ world.now.space) }
    ensures fits { OnOk result (Outnumber world.now → ⊥) }
    ensures full { IsErrOf result PlainFault.Full → Outnumber world.now }
{
    match grown_graph(alloc, world) {
        Ok(Some(graph)) => Ok(graph),
        Ok(None) => Err(PlainFault::Full),
        Err(_) => Err(PlainFault::NoMemory),
    }
}

/// The graph that grows from the roots, `None` where the reached words outnumber the cells.
fn grown_graph(alloc: Global, world: &World) -> Result<Option<Finished>, AllocError>
    ensures { IfOk result (λ grown. MatchOption grown (Outnumber world.now) (λ f. IsGrownList world.now f.codes × (f.space ≡ world.now.space))) }
{
    let steps = Steps::new(alloc, *world.space())?;
    match grown(alloc, world, &steps)? {
        Some(growth) => Ok(Some(finished_growth(alloc, steps, &growth)?)),
        None => Ok(None),
    }
}

/// The growth from the roots, `None` where the reached words outnumber the cells.
fn grown(alloc: Global, world: &World, steps: &Steps) -> Result<Option<Growth>, AllocError>
    requires { steps.now ≡ world.now.space }
    ensures { IfOk result (λ grown. MatchOption grown (Outnumber world.now) (λ g. IsWholeGrowth world.now g.found g.lowered.items)) }
{
    let cells = world.cells() as usize;
    let mut growth = rooted(alloc, world)?;
    let mut at = 0;
    'expanded: while at < growth.found.len() {
        if growth.found.len() > cells {
            return Ok(None);
        }
        expand(steps, at, &mut growth)?;
        at += 1;
    }
    Ok(Some(growth))
}

/// The graph of a growth that has ended.
fn finished_growth(alloc: Global, steps: Steps, growth: &Growth) -> Result<Finished, AllocError>
    requires { MakesGraph steps growth.now.found growth.now.lowered.items }
    ensures codes { IfOk result (λ f. IsSortedFrom growth.now.found f.codes) }
    ensures space { IfOk result (λ f. f.space ≡ steps) }
{
    let list = sorted(alloc, &growth.found)?;
    let codes = codes_of(alloc, list.as_slice())?;
    let ranks = ranks_of(alloc, &growth.found, list.as_slice())?;
    let lowered = lowered_of_growth(alloc, &steps, list.as_slice(), growth, ranks.as_slice())?;
    Finished::of_lowered(alloc, steps, codes, lowered)
}

/// A growth that has found the roots.
fn rooted(alloc: Global, world: &World) -> Result<Growth, AllocError>
    ensures roots { IfOk result (λ g. HasFirstRoots world.now.roots (length world.now.roots) g.found) }
    ensures lowered { IfOk result (λ g. g.lowered.items ≡ []) }
    ensures known { IfOk result (λ g. AreMarks world.now.space g.found g.known.items) }
{
    let mut found = FoundCodes::new(alloc);
    add_roots(world, &mut found)?;
    let known = vec![in alloc; [false; 8]; found.len()]?;
    Ok(Growth {
        found,
        lowered: Vec::new(alloc),
        known,
    })
}

fn add_roots(world: &World, found: &mut FoundCodes) -> Result<(), AllocError>
    requires { found.old ≡ [] }
    ensures { OnOk result (HasFirstRoots world.now.roots (length world.now.roots) found.new) }
{
    let roots = world.roots();
    'roots: for k in 0..roots.len() {
        found.add(*roots.at(k))?;
    }
    Ok(())
}

/// Adds what the operators make of the code at this place, counted from 0, and notes it.
fn expand(steps: &Steps, at: usize, growth: &mut Growth) -> Result<(), AllocError>
    requires at { at < length growth.old.found }
    requires code { slice_index growth.old.found at < size steps.now }
    requires few { length growth.old.found ≤ 2 ^ 20 }
    requires lowered { AreNotes growth.old.found growth.old.lowered.items }
    requires known { AreMarks steps.now growth.old.found growth.old.known.items }
    ensures expanded { OnOk result (Expands steps.now steps.now.cartan.rank (slice_index growth.old.found at) growth.old.found growth.new.found) }
    ensures lowered { OnOk result (AddsNotes steps.now steps.now.cartan.rank (slice_index growth.old.found at) growth.old.found growth.old.lowered.items growth.new.found growth.new.lowered.items) }
    ensures known { OnOk result (AreMarks steps.now growth.new.found growth.new.known.items) }
{
    let code = growth.found.at(at);
    let word = steps.word(code);
    let places = places_of(steps, &word);
    'indices: for place in 0..steps.cartan().rank() {
        let lowered = lowered_code(steps, code, &word, &places, place + 1);
        let note = growth.follow(lowered)?;
        growth.note(note, place)?;
        let known = growth.known[at][place as usize];
        let raised = unknown_raise(steps, code, &word, &places, place + 1, known);
        let _ = growth.follow(raised)?;
    }
    Ok(())
}

/// The code of what e_i makes of a word, `None` for zero and where it is known to be found.
fn unknown_raise(
    steps: &Steps,
    code: u64,
    word: &Word,
    places: &ActingPlaces,
    i: u8,
    known: bool,
) -> Option<u64>
    requires word { IsWord steps.now word.now }
    requires code { code ≡ code_of steps.now word.now }
    requires places { ArePlaces steps.now word.now places.now }
    requires index { HasIndex steps.now.cartan i }
    ensures { result ≡ (if known then None else option_map (code_of steps.now) ((action steps.now i).raise word.now)) }
{
    if known {
        None
    } else {
        raised_code(steps, code, word, places, i)
    }
}
