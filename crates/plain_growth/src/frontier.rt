//! What a growth keeps while it goes on.
ghost use Rattle.std.specs.Prelude.{◌≡◌, ◌+◌, ◌<◌, ◌≤◌, ◌^◌, ◌++◌, [], ◌∷◌, length, IfOk, OnOk};
ghost use Rattle.plain_growth.specs.Growth.{Follows, IsNote, noted_in};
ghost use Rattle.plain_growth.specs.Marks.{GrowsMarks, marked_in};

use crate::found::FoundCodes;
use std::alloc::{AllocError, Global};

/// The note of an operator that gives zero.
pub(crate) const NO_PLACE: u32 = u32::MAX;

/// The codes that a growth found, in the order in which it found them, and what is known of the operators on them.
#[derive(Drop)]
pub(crate) struct Growth {
    pub(crate) found: FoundCodes,
    /// What the lowering operators give: a row for each expanded code, with a note for each index, the place among
    /// those found.
    pub(crate) lowered: Vec<u32>,
    /// For each code that was found and each index, whether the code is known to be lowered from one that was found.
    pub(crate) known: Vec<[bool; 8]>,
}

impl Growth {
    /// Adds the code that an operator gave, if it is not zero, and gives its note.
    pub(crate) fn follow(&mut self, next: Option<u64>) -> Result<u32, AllocError>
        requires room { length self.old.found ≤ 2 ^ 21 }
        requires known { length self.old.known.items ≡ length self.old.found }
        ensures follows { OnOk result (Follows next self.old.found self.new.found) }
        ensures note { IfOk result (λ note. noted_in self.new.found note ≡ next) }
        ensures placed { IfOk result (λ note. IsNote (length self.new.found) note) }
        ensures few { OnOk result (length self.new.found ≤ length self.old.found + 1) }
        ensures lowered { self.new.lowered.items ≡ self.old.lowered.items }
        ensures known { OnOk result (GrowsMarks self.old.known.items self.new.known.items (length self.new.found)) }
    {
        let Some(code) = next else {
            return Ok(NO_PLACE);
        };
        let entry = self.found.add(code)?;
        if entry.is_new {
            self.known.push([false; 8])?;
        }
        Ok(entry.place as u32)
    }

    /// Notes what the lowering operator of an index, less 1, gave for the code that is expanded.
    pub(crate) fn note(&mut self, note: u32, place: u8) -> Result<(), AllocError>
        requires note { IsNote (length self.old.known.items) note }
        requires place { place < 8 }
        ensures found { self.new.found ≡ self.old.found }
        ensures lowered { OnOk result (self.new.lowered.items ≡ self.old.lowered.items ++ note ∷ []) }
        ensures known { OnOk result (self.new.known.items ≡ marked_in self.old.known.items note place) }
        ensures size { OnOk result (length self.new.known.items ≡ length self.old.known.items) }
    {
        self.lowered.push(note)?;
        if note != NO_PLACE {
            self.known[note as usize][place as usize] = true;
        }
        Ok(())
    }
}
