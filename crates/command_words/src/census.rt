//! The shape that the words of `census` name.

ghost use Rattle.std.specs.Prelude.{◌≡◌, ◌⊎◌, IfErr, IfOk, map, None, Some};
ghost use Rattle.command_words.specs.Judge.{IsAnswer, judge_census, row_number, row_numbers};
ghost use Rattle.command_words.specs.Number.{number_in};

use crate::fault::WordsFault;
use crate::number::number_within;
use crate::settings::Settings;
use crystal_cartan::{Cartan, Kind};
use std::alloc::Global;
use tableau_reading::Shape;

/// The settings of `census`, by the rank and the lengths of the rows.
pub(crate) fn census_settings(
    alloc: Global,
    rank: &str,
    rows: &[&str],
) -> Result<Settings, WordsFault>
    ensures { IsAnswer (judge_census rank.now (map (λ text. text.now) rows.now)) result }
{
    let Some(rank) = rank_in(rank) else {
        return Err(WordsFault::BadCensus);
    };
    let Ok(cartan) = Cartan::new(Kind::A, rank) else {
        return Err(WordsFault::BadCensus);
    };
    match row_lengths(alloc, rows) {
        Ok(lengths) => match Shape::new(lengths.as_slice(), cartan) {
            Ok(shape) => Ok(Settings::Census { shape }),
            Err(_) => Err(WordsFault::BadCensus),
        },
        Err(fault) => Err(fault),
    }
}

/// The rank of a type A, 1 to 8.
fn rank_in(text: &str) -> Option<u8>
    ensures { result ≡ number_in 9 1 8 text.now }
{
    match number_within(text, 9, 1, 8) {
        Some(rank) => Some(rank as u8),
        None => None,
    }
}

/// The length of a row.
fn row_length(text: &str) -> Option<u32>
    ensures { result ≡ row_number text.now }
{
    number_within(text, 9, 0, 999_999_999)
}

/// The lengths of all rows.
fn row_lengths(alloc: Global, rows: &[&str]) -> Result<Vec<u32>, WordsFault>
    ensures lengths { IfOk result (λ lengths. row_numbers (map (λ text. text.now) rows.now) ≡ Some lengths.items) }
    ensures fault { IfErr result (λ fault. (fault ≡ WordsFault.NoMemory)
        ⊎ ((fault ≡ WordsFault.BadCensus) × (row_numbers (map (λ text. text.now) rows.now) ≡ None))) }
{
    let mut lengths = Vec::new(alloc);
    'rows: for row in rows {
        let Some(length) = row_length(row) else {
            return Err(WordsFault::BadCensus);
        };
        if lengths.push(length).is_err() {
            return Err(WordsFault::NoMemory);
        }
    }
    Ok(lengths)
}
