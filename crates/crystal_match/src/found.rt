//! The pairs of codes found so far.
ghost use Rattle.std.specs.Prelude.{◌≡◌, ◌<◌, [], length, IfOk};
ghost use Rattle.std.specs.List.{IsDistinct};
ghost use Rattle.crystal_match.specs.Listings.{pair_at, pair_eq};
ghost use Rattle.crystal_match.specs.Search.{IsEntered};

use indexmap::IndexSet;
use std::alloc::{AllocError, Global};
use std::marker::Model;

/// Different pairs of codes in the order in which they were found.
#[derive(Drop)]
pub(crate) struct FoundPairs {
    pairs: IndexSet<(u64, u64)>,
}

impl Model for FoundPairs {
    ghost use Rattle.std.specs.Prelude.{List, ℕ};
    ghost use Rattle.std.specs.List.{IsDistinct};
    ghost use Rattle.crystal_match.specs.Listings.{pair_eq};

    ghost Value = { List (ℕ × ℕ) };

    ghost view = { λ f. f.pairs.keys };

    ghost invariant = { λ f. IsDistinct pair_eq f.pairs.keys };
}

impl FoundPairs {
    pub(crate) fn new(alloc: Global) -> FoundPairs
        ensures { result ≡ [] }
    {
        FoundPairs {
            pairs: IndexSet::new(alloc),
        }
    }

    pub(crate) fn len(&self) -> usize
        ensures len { result ≡ length self.now }
        ensures distinct { IsDistinct pair_eq self.now }
    {
        self.pairs.len()
    }

    pub(crate) fn at(&self, k: usize) -> (u64, u64)
        requires { k < length self.now }
        ensures { result ≡ pair_at self.now k }
    {
        match self.pairs.get_index(k) {
            Some(pair) => *pair,
            None => unreachable!(),
        }
    }

    /// Adds the pair where it is not there yet, and tells whether it was not.
    pub(crate) fn add(&mut self, pair: (u64, u64)) -> Result<bool, AllocError>
        ensures { IfOk result (λ is_new. IsEntered pair self.old is_new self.new) }
    {
        let (_, is_new) = self.pairs.insert_full(pair)?;
        Ok(is_new)
    }
}
