//! The codes of a growth in ascending order, and their ranks.
ghost use Rattle.std.specs.Prelude.{◌≡◌, ◌^◌, ◌<◌, length, IfOk, All, nat_eq};
ghost use Rattle.std.specs.List.{IsDistinct};
ghost use Rattle.plain_growth.specs.Growth.{IsPlacedCode, IsSortedFrom, AreRanks, codes_in};

use crate::found::FoundCodes;
use std::alloc::{AllocError, Global};

/// A code that was found, with its place among those found, counted from 0.
#[derive(Clone, Copy, Debug)]
pub(crate) struct PlacedCode {
    pub(crate) code: u64,
    pub(crate) place: u32,
}

/// The codes that were found, ascending, each with its place.
pub(crate) fn sorted(alloc: Global, found: &FoundCodes) -> Result<Vec<PlacedCode>, AllocError>
    requires { length found.now < 2 ^ 32 }
    ensures sorted { IfOk result (λ list. IsSortedFrom found.now (codes_in list.items)) }
    ensures placed { IfOk result (λ list. All (IsPlacedCode found.now) list.items) }
{
    let mut list = placed(alloc, found)?;
    list.sort_unstable_by_key(|x| x.code);
    Ok(list)
}

/// The codes that were found, in the order in which they were found.
fn placed(alloc: Global, found: &FoundCodes) -> Result<Vec<PlacedCode>, AllocError>
    requires { length found.now < 2 ^ 32 }
    ensures codes { IfOk result (λ list. codes_in list.items ≡ found.now) }
    ensures distinct { IfOk result (λ list. IsDistinct nat_eq (codes_in list.items)) }
    ensures placed { IfOk result (λ list. All (IsPlacedCode found.now) list.items) }
{
    let mut list = Vec::with_capacity(alloc, found.len())?;
    'found: for place in 0..found.len() {
        list.push(PlacedCode {
            code: found.at(place),
            place: place as u32,
        })?;
    }
    Ok(list)
}

/// The codes alone.
pub(crate) fn codes_of(alloc: Global, list: &[PlacedCode]) -> Result<Vec<u64>, AllocError>
    ensures { IfOk result (λ codes. codes.items ≡ codes_in list.now) }
{
    let mut codes = Vec::with_capacity(alloc, list.len())?;
    'list: for x in list {
        codes.push(x.code)?;
    }
    Ok(codes)
}

/// The rank of each code that was found, in the order in which they were found.
pub(crate) fn ranks_of(
    alloc: Global,
    found: &FoundCodes,
    list: &[PlacedCode],
) -> Result<Vec<u32>, AllocError>
    requires few { length list.now < 2 ^ 32 }
    requires sorted { IsSortedFrom found.now (codes_in list.now) }
    requires placed { All (IsPlacedCode found.now) list.now }
    ensures { IfOk result (λ ranks. AreRanks (codes_in list.now) found.now ranks.items) }
{
    let mut ranks = vec![in alloc; 0u32; found.len()]?;
    'ranks: for rank in 0..list.len() {
        ranks[list[rank].place as usize] = rank as u32;
    }
    Ok(ranks)
}
