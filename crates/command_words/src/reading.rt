//! The reading of the command words.

ghost use Rattle.std.specs.Prelude.{◌≡◌, IfOk, [], codes, length, map, option_map, string_bytes};
ghost use Rattle.std.specs.Prelude.{unwrap_or};
ghost use Rattle.std.specs.List.{list_any};
ghost use Rattle.clap.specs.Words.{all_of, first_of, found_of, rows_of};
ghost use Rattle.command_words.specs.Number.{number_in};
ghost use Rattle.command_words.specs.Judge.{FitsNames, IsAnswer, is_dashed, judge_grow, judge_line, judge_match};
ghost use Rattle.command_words.specs.Judge.{judge_mode, judge_sample, judge_wide, judge_words};

use crate::arguments::matches_in;
use crate::census::census_settings;
use crate::fault::WordsFault;
use crate::number::number_within;
use crate::settings::{Relabelling, Settings};
use crate::statistics::places_for;
use clap::ArgMatches;
use std::alloc::Global;

/// The most digits of a number of growers and of a sample.
const MOST_DIGITS: usize = 10;

/// Whether a word begins with `-`.
fn begins_with_dash(word: &String) -> bool
    ensures { result ≡ is_dashed (string_bytes word.now) }
{
    word.as_bytes().first() == Some(&b'-')
}

/// Whether some word begins with `-`.
fn has_dashed_word(words: &[String]) -> bool
    ensures { result ≡ list_any (λ word. is_dashed (string_bytes word)) words.now }
{
    words.iter().any(begins_with_dash)
}

/// The number of growers, 1 to 16.
fn growers_in(text: &str) -> Option<u32>
    ensures { result ≡ number_in 10 1 16 text.now }
{
    number_within(text, MOST_DIGITS, 1, 16)
}

/// The settings of `grow`.
fn grow_settings(
    alloc: Global,
    growers: &str,
    more: &[&str],
    names: &[&str],
) -> Result<Settings, WordsFault>
    ensures { IsAnswer (judge_grow (map (λ name. name.now) names.now)
        (number_in 10 1 16 growers.now) (map (λ text. text.now) more.now)) result }
{
    let Some(growers) = growers_in(growers) else {
        return Err(WordsFault::BadGrowers);
    };
    match places_for(alloc, more, names) {
        Ok(chosen) => Ok(Settings::Grow { growers, chosen }),
        Err(fault) => Err(fault),
    }
}

/// The settings of `sample`.
fn sample_settings(growers: &str, more: &[&str]) -> Result<Settings, WordsFault>
    ensures { result ≡ judge_sample (number_in 10 1 16 growers.now)
        (map (λ text. text.now) more.now) }
{
    let Some(growers) = growers_in(growers) else {
        return Err(WordsFault::BadGrowers);
    };
    let [word] = more else {
        return Err(WordsFault::BadSample);
    };
    let Some(number) = number_within(word, MOST_DIGITS, 0, u32::MAX) else {
        return Err(WordsFault::BadSample);
    };
    Ok(Settings::Sample { growers, number })
}

/// The settings of `match`.
fn match_settings(word: &str, more: &[&str]) -> Result<Settings, WordsFault>
    ensures { result ≡ judge_match word.now (map (λ text. text.now) more.now) }
{
    let [] = more else {
        return Err(WordsFault::BadMatch);
    };
    match word {
        "same" => Ok(Settings::Match {
            relabelling: Relabelling::Same,
        }),
        "star" => Ok(Settings::Match {
            relabelling: Relabelling::Star,
        }),
        _ => Err(WordsFault::BadMatch),
    }
}

/// The settings of `wide`.
fn wide_settings(growers: &str, more: &[&str]) -> Result<Settings, WordsFault>
    ensures { result ≡ judge_wide (number_in 10 1 16 growers.now)
        (map (λ text. text.now) more.now) }
{
    let Some(growers) = growers_in(growers) else {
        return Err(WordsFault::BadGrowers);
    };
    let [] = more else {
        return Err(WordsFault::WideExtra);
    };
    Ok(Settings::Wide { growers })
}

/// The settings of a mode, by the words after it.
fn mode_settings(
    alloc: Global,
    mode: &str,
    second: &str,
    more: &[&str],
    names: &[&str],
) -> Result<Settings, WordsFault>
    ensures { IsAnswer (judge_mode (map (λ name. name.now) names.now) mode.now second.now
        (map (λ text. text.now) more.now)) result }
{
    match mode {
        "grow" => grow_settings(alloc, second, more, names),
        "sample" => sample_settings(second, more),
        "census" => census_settings(alloc, second, more),
        "match" => match_settings(second, more),
        "wide" => wide_settings(second, more),
        _ => Err(WordsFault::UnknownMode),
    }
}

/// The settings of a command line, by its arguments.
fn line_settings(
    alloc: Global,
    mode: Option<&str>,
    second: Option<&str>,
    more: &[&str],
    names: &[&str],
) -> Result<Settings, WordsFault>
    ensures { IsAnswer (judge_line (map (λ name. name.now) names.now)
        (option_map (λ text. text.now) mode.entry) (option_map (λ text. text.now) second.entry)
        (map (λ text. text.now) more.now)) result }
{
    match (mode, second) {
        (Some(mode), Some(second)) => mode_settings(alloc, mode, second, more, names),
        _ => Err(WordsFault::Missing),
    }
}

/// The settings of a command line, by what its arguments got.
fn matched_settings(
    alloc: Global,
    matches: &ArgMatches,
    names: &[&str],
) -> Result<Settings, WordsFault>
    ensures { let rows = rows_of (found_of matches.now) in
        IsAnswer (judge_line (map (λ name. name.now) names.now) (first_of (codes "MODE") rows)
        (first_of (codes "GROWERS") rows) (unwrap_or (all_of (codes "REST") rows) [])) result }
{
    let mode = matches.get_str("MODE");
    let second = matches.get_str("GROWERS");
    let more = matches.get_strs("REST").unwrap_or(&[]);
    line_settings(alloc, mode, second, more, names)
}

/// What the command words ask for, where `names` are the names of the statistics in their order.
///
/// The words are those after the program's name. Of several faults the first in the order of
/// [`WordsFault`] is told; of two statistics with one name the first is chosen. `NoMemory` may
/// come at any words.
pub fn read_words(alloc: Global, words: &[String], names: &[&str]) -> Result<Settings, WordsFault>
    ensures answer { IsAnswer (judge_words (map string_bytes words.now)
        (map (λ name. name.now) names.now)) result }
    ensures fits { IfOk result (FitsNames (length names.now)) }
{
    if has_dashed_word(words) {
        return Err(WordsFault::Dashed);
    }
    let Ok(matches) = matches_in(alloc, words) else {
        return Err(WordsFault::NoMemory);
    };
    matched_settings(alloc, &matches, names)
}
