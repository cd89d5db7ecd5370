//! The codes found so far by a growth.
ghost use Rattle.std.specs.Prelude.{◌≡◌, ◌+◌, ◌<◌, ℕ, [], length, slice_index, IfOk, OnOk, nat_eq, if◌then◌else◌};
ghost use Rattle.std.specs.List.{IsDistinct};
ghost use Rattle.plain_growth.specs.Growth.{AddsCode};

use indexmap::IndexSet;
use std::alloc::{AllocError, Global};
use std::marker::Model;

/// Different codes in the order in which they were found.
#[derive(Drop)]
pub(crate) struct FoundCodes {
    codes: IndexSet<u64>,
}

/// A code among those found: its place, counted from 0, and whether it was not there before.
#[derive(Clone, Copy)]
pub(crate) struct Entry {
    pub(crate) place: usize,
    pub(crate) is_new: bool,
}

impl Model for FoundCodes {
    ghost use Rattle.std.specs.Prelude.{List, ℕ, nat_eq};
    ghost use Rattle.std.specs.List.{IsDistinct};

    ghost Value = { List ℕ };

    ghost view = { λ f. f.codes.keys };

    ghost invariant = { λ f. IsDistinct nat_eq f.codes.keys };
}

impl FoundCodes {
    pub(crate) fn new(alloc: Global) -> FoundCodes
        ensures { result ≡ [] }
    {
        FoundCodes {
            codes: IndexSet::new(alloc),
        }
    }

    pub(crate) fn len(&self) -> usize
        ensures len { result ≡ length self.now }
        ensures distinct { IsDistinct nat_eq self.now }
    {
        self.codes.len()
    }

    pub(crate) fn at(&self, k: usize) -> u64
        requires { k < length self.now }
        ensures { result ≡ slice_index self.now k }
    {
        match self.codes.get_index(k) {
            Some(code) => *code,
            None => unreachable!(),
        }
    }

    /// Adds the code where it is not there yet.
    pub(crate) fn add(&mut self, code: u64) -> Result<Entry, AllocError>
        ensures added { OnOk result (AddsCode self.old code self.new) }
        ensures place { IfOk result (λ entry. slice_index self.new entry.place ≡ code) }
        ensures within { IfOk result (λ entry. entry.place < length self.new) }
        ensures len { IfOk result (λ entry. length self.new ≡ length self.old + (if entry.is_new then 1 else 0)) }
    {
        let (place, is_new) = self.codes.insert_full(code)?;
        Ok(Entry { place, is_new })
    }
}
