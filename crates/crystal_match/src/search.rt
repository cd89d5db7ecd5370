//! The search over pairs of codes, breadth first.
//!
//! Each pair keeps the list of arrows that reached it first. Lists are tried by length, and those of one length in
//! lexicographic order, so that the first one that tells the marks apart is the first of all lists.
ghost use Rattle.std.specs.Prelude.{◌≡◌, ◌+◌, ◌<◌, ◌≤◌, ◌++◌, [], ◌∷◌, length, List, IfOk, OnOk, MatchOption};
ghost use Rattle.std.specs.List.Sorted.{IsPermutation, IsNonDecreasingBy};
ghost use Rattle.crystal_cartan.specs.declared.types.Arrow.{Arrow as ArrowType};
ghost use Rattle.crystal_match.specs.Telling.{IsPointed};
ghost use Rattle.signature_rule.specs.ArrowOrder.{arrow_place};
ghost use Rattle.crystal_match.specs.Search.{IsSearching, IsTelling, IsSearchEnded, FollowsPair, HasWalks, AreWalks, walk_at};

use crate::found::FoundPairs;
use crate::listings::{Arrows, Pairs};
use crate::marked::{MarkedSpace, PairEnds};
use crystal_cartan::Arrow;
use signature_rule::arrow_at;
use std::alloc::{AllocError, Global};

/// How a pair was reached first: from the pair at this place, by this arrow.
#[derive(Clone, Copy, Debug)]
pub(crate) struct PairOrigin {
    pub(crate) from: usize,
    pub(crate) arrow: Arrow,
}

/// The pairs that were found. Those before `at` are expanded; those from there to `end` were reached first by lists of
/// one length, and those behind by lists with one arrow more.
#[derive(Drop)]
pub(crate) struct Search {
    pub(crate) found: FoundPairs,
    /// The origin of each pair but the first.
    pub(crate) origins: Vec<PairOrigin>,
    pub(crate) at: usize,
    pub(crate) end: usize,
}

/// How a search ends.
#[derive(Clone, Copy, Debug)]
pub(crate) enum SearchEnd {
    /// No list of arrows tells the marks apart.
    Closed,
    /// The arrow, behind the list that reaches the pair at `at` first, tells them apart.
    Telling { arrow: Arrow },
    /// There are more pairs than the limit.
    TooMany,
}

impl Search {
    /// Only the pair of the marks is found.
    pub(crate) fn new(alloc: Global, both: &MarkedSpace) -> Result<Search, AllocError>
        ensures begun { IfOk result (λ s. IsSearching both.now 0 s) }
        ensures end { IfOk result (λ s. s.end ≡ 0) }
        ensures pointed { OnOk result (IsPointed both.now) }
    {
        let mut found = FoundPairs::new(alloc);
        found.add(both.marks())?;
        Ok(Search {
            found,
            origins: Vec::new(alloc),
            at: 0,
            end: 0,
        })
    }

    /// Searches to the end.
    pub(crate) fn run(
        &mut self,
        both: &mut MarkedSpace,
        limit: u32,
    ) -> Result<SearchEnd, AllocError>
        requires begun { IsSearching both.old 0 self.old }
        requires end { self.old.end ≡ 0 }
        ensures { IfOk result (λ ending. IsSearchEnded both.old limit ending self.new) }
    {
        'levels: while self.at < self.found.len() {
            if self.at == self.end {
                if self.found.len() > limit as usize {
                    return Ok(SearchEnd::TooMany);
                }
                self.end = self.found.len();
            }
            if let Some(arrow) = self.expand(both)? {
                return Ok(SearchEnd::Telling { arrow });
            }
        }
        Ok(SearchEnd::Closed)
    }

    /// Follows the arrows of the pair at `at`, up to the first that tells the marks apart.
    fn expand(&mut self, both: &mut MarkedSpace) -> Result<Option<Arrow>, AllocError>
        requires searching { IsSearching both.old 0 self.old }
        requires at { self.old.at < self.old.end }
        ensures expanded { IfOk result (λ found. MatchOption found (IsSearching both.old 0 self.new × (self.new.at ≡ self.old.at + 1)) (λ arrow. IsTelling both.old arrow self.new)) }
        ensures end { self.new.end ≡ self.old.end }
        ensures same { both.new ≡ both.old }
    {
        let pair = self.found.at(self.at);
        let rank = both.rank();
        'arrows: for place in 0..2 * rank {
            let arrow = arrow_at(rank, place);
            let ends = both.ends(pair, arrow);
            if both.tells(ends) {
                return Ok(Some(arrow));
            }
            self.follow(arrow, ends)?;
        }
        self.at += 1;
        Ok(None)
    }

    /// Adds the pair to which an arrow leads from the pair at `at`, where both ends are words.
    fn follow(&mut self, arrow: Arrow, ends: PairEnds) -> Result<(), AllocError>
        ensures follows { OnOk result (FollowsPair self.old.at arrow ends.0 ends.1 self.old.found self.old.origins.items self.new.found self.new.origins.items) }
        ensures at { self.new.at ≡ self.old.at }
        ensures end { self.new.end ≡ self.old.end }
    {
        let (Some(first), Some(second)) = ends else {
            return Ok(());
        };
        if self.found.add((first, second))? {
            self.origins.push(PairOrigin {
                from: self.at,
                arrow,
            })?;
        }
        Ok(())
    }

    /// The list of arrows that reaches the pair at `at` first, and then this arrow.
    pub(crate) fn walk(&self, alloc: Global, arrow: Arrow) -> Result<Arrows, AllocError>
        requires walks { HasWalks self.now.origins.items }
        requires at { self.now.at ≤ length self.now.origins.items }
        ensures { (walks : List (List ArrowType)) → AreWalks self.now.origins.items walks → IfOk result (λ list. list ≡ walk_at walks self.now.at ++ arrow ∷ []) }
    {
        Ok(Arrows::of(walk_to(alloc, self.origins.as_slice(), self.at, arrow)?))
    }

    /// The pairs, ascending by their first codes.
    pub(crate) fn pairs(&self, alloc: Global) -> Result<Pairs, AllocError>
        ensures all { IfOk result (λ pairs. IsPermutation self.now.found pairs) }
        ensures ascending { IfOk result (λ pairs. IsNonDecreasingBy (λ x. x.0) pairs) }
    {
        let mut list = Vec::with_capacity(alloc, self.found.len())?;
        'found: for k in 0..self.found.len() {
            list.push(self.found.at(k))?;
        }
        list.sort_unstable_by_key(|pair| pair.0);
        Ok(Pairs::of(list))
    }
}

/// The list of arrows that reaches the pair at this place first, by the origins, and then this arrow.
fn walk_to(
    alloc: Global,
    origins: &[PairOrigin],
    place: usize,
    arrow: Arrow,
) -> Result<Vec<Arrow>, AllocError>
    requires walks { HasWalks origins.now }
    requires at { place ≤ length origins.now }
    ensures { (walks : List (List ArrowType)) → AreWalks origins.now walks → IfOk result (λ list. list.items ≡ walk_at walks place ++ arrow ∷ []) }
{
    let mut list = vec![in alloc; arrow]?;
    let mut at = place;
    'steps: while at > 0 {
        let origin = origins[at - 1];
        list.push(origin.arrow)?;
        at = origin.from;
    }
    list.reverse();
    Ok(list)
}
