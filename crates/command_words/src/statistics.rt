//! The statistics that the further words of `grow` name.

ghost use Rattle.std.specs.Prelude.{◌≡◌, ◌<◌, ℕ, List, [], bytes_eq, length, map, position, take};
ghost use Rattle.std.specs.Prelude.{slice_index_or};
ghost use Rattle.std.specs.List.{list_any};
ghost use Rattle.std.specs.Borrow.{Bor};
ghost use Rattle.command_words.specs.Judge.{IsAnswer, place_or_fault, places_named};

use crate::fault::WordsFault;
use crate::settings::Places;
use std::alloc::Global;

/// The place of the first statistic of this name.
fn first_place(word: &str, names: &[&str]) -> Option<usize>
    ensures { result ≡ position (λ name. bytes_eq name.now word.now) names.now }
{
    names.iter().position(|name| *name == word)
}

/// Whether the word is one of those seen before.
fn stood_before(word: &str, seen: &[&str]) -> bool
    ensures { result ≡ list_any (λ text. bytes_eq text.now word.now) seen.now }
{
    seen.contains(&word)
}

/// The place of the first statistic of this name, where the word is none of those seen before.
fn place_for(word: &str, seen: &[&str], names: &[&str]) -> Result<usize, WordsFault>
    ensures { result ≡ place_or_fault (list_any (λ text. bytes_eq text.now word.now) seen.now)
        (position (λ name. bytes_eq name.now word.now) names.now) }
{
    let place = first_place(word, names).ok_or(WordsFault::UnknownStatistic)?;
    if stood_before(word, seen) {
        return Err(WordsFault::RepeatedStatistic);
    }
    Ok(place)
}

/// The word at `count`.
fn word_at<'a>(words: &[&'a str], count: usize) -> &'a str
    requires { count < length words.now }
    ensures { (d : Bor (List ℕ)) → result.now ≡ (slice_index_or words.now count d).now }
{
    words[count]
}

/// The place that the word at `count` names, after the words before it.
fn place_at(words: &[&str], count: usize, names: &[&str]) -> Result<usize, WordsFault>
    requires { count < length words.now }
    ensures { (d : Bor (List ℕ)) → result ≡ place_or_fault
        (list_any (λ text. bytes_eq text.now (slice_index_or words.now count d).now)
        (take count words.now))
        (position (λ name. bytes_eq name.now (slice_index_or words.now count d).now) names.now) }
{
    let (seen, _) = words.split_at(count);
    place_for(word_at(words, count), seen, names)
}

/// The places of the statistics that the words name, each once.
pub(crate) fn places_for(
    alloc: Global,
    words: &[&str],
    names: &[&str],
) -> Result<Places, WordsFault>
    ensures { IsAnswer (places_named (map (λ name. name.now) names.now) []
        (map (λ text. text.now) words.now)) result }
{
    let mut chosen = Vec::new(alloc);
    for count in 0..words.len() {
        match place_at(words, count, names) {
            Ok(place) => {
                if chosen.push(place).is_err() {
                    return Err(WordsFault::NoMemory);
                }
            }
            Err(fault) => return Err(fault),
        }
    }
    Ok(Places::of(chosen))
}
