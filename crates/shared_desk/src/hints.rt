//! Where words stood.
use graph_history::Added;
use std::alloc::{AllocError, Global};
use table_calls::SPREAD;

/// The most places: they take a mebibyte.
const MOST_PLACES: usize = 262_144;

/// The cells at which words stood last. Words share places, so a cell may be that of another word: it is a hint where
/// to look first, and nothing rests on it. The number of places is a power of two, or 0, and then nothing is kept.
#[derive(Drop)]
pub struct Hints {
    cells: Vec<u32>,
}

impl Hints {
    /// No hints, and no place for any.
    pub fn none(alloc: Global) -> Hints {
        Hints {
            cells: Vec::new(alloc),
        }
    }

    /// Room for about as many words as there are cells to draw.
    pub fn new(alloc: Global, drawn: usize) -> Result<Hints, AllocError> {
        let places = (2 * usize::min(drawn, MOST_PLACES / 2)).next_power_of_two();
        Ok(Hints {
            cells: vec![in alloc; 0; places]?,
        })
    }

    /// The cell at which a word stood, or some other.
    pub fn near(&self, code: u64) -> Option<u32> {
        self.cells.get(self.place(code)).copied()
    }

    /// Keeps the cell of a word.
    pub fn note(&mut self, code: u64, answer: Added) {
        let place = self.place(code);
        if let Added::New { cell } | Added::Old { cell } = answer {
            if let Some(hint) = self.cells.get_mut(place) {
                *hint = cell;
            }
        }
    }

    fn place(&self, code: u64) -> usize {
        (code.wrapping_mul(SPREAD) >> 40) as usize & self.cells.len().wrapping_sub(1)
    }
}
