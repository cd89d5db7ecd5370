//! The statistic `strings`.
ghost use Rattle.std.specs.Prelude.{◌≡◌, ◌<◌, ◌≤◌, length, codes, map};
ghost use Rattle.crystal_characters.specs.Reports.{string_report, string_text, string_lines, heads, greatest, item_phi, Appends};

use crate::items::Item;
use crate::printing::print_number;
use crate::rules::{Rule, Tally};
use crystal_streams::{Line, NoMemory, push_line};
use std::alloc::Global;

/// The statistic `strings`: for each index the number of strings and the length of the longest.
pub type StringTally = Tally<Strings>;

/// The rule of the statistic `strings`.
#[derive(Debug)]
pub struct Strings;

impl Rule for Strings {
    ghost named = { codes "strings" };

    ghost reported = { string_report };

    fn name() -> &'static str {
        "strings"
    }

    #[tactic(auto, unfolding(crate::specs::Reports::string_report))]
    fn report(_alloc: Global, items: &[Item], out: &mut Vec<u8>) -> Result<(), NoMemory> {
        match items.first() {
            None => Ok(()),
            Some(item) => push_strings(out, items, item.cartan.rank()),
        }
    }
}

/// Appends a line for each index up to this one.
fn push_strings(out: &mut Vec<u8>, items: &[Item], indices: u8) -> Result<(), NoMemory>
    requires { indices ≤ 8 }
    ensures { Appends (string_lines items.now indices) out.old.items out.new.items result }
{
    'indices: for place in 0..indices {
        push_line(out, &string_line(items, place + 1))?;
    }
    Ok(())
}

/// The line of an index.
#[tactic(auto, unfolding(crate::specs::Reports::string_text))]
fn string_line(items: &[Item], i: u8) -> Line
    requires { (1 ≤ i) × (i ≤ 8) }
    ensures text { result ≡ string_text items.now i }
    ensures fits { length result < 512 }
{
    let mut line = Line::new();
    print_number(u64::from(i), &mut line);
    line.text(b" | ");
    print_number(head_count(items, i), &mut line);
    line.text(b" | ");
    print_number(u64::from(longest(items, i)), &mut line);
    line
}

/// The number of items that e_i takes to zero.
fn head_count(items: &[Item], i: u8) -> u64
    requires { (1 ≤ i) × (i ≤ 8) }
    ensures { result ≡ length (heads i items.now) }
{
    items
        .iter()
        .filter(|item| item.eps[i as usize - 1] == 0)
        .count() as u64
}

/// The greatest phi_i of these items, 0 where there is none.
fn longest(items: &[Item], i: u8) -> u32
    requires { (1 ≤ i) × (i ≤ 8) }
    ensures { result ≡ greatest (map (item_phi i) (heads i items.now)) }
{
    let mut longest = 0u32;
    'items: for item in items {
        if item.eps[i as usize - 1] == 0 {
            longest = longest.max(item.phi[i as usize - 1]);
        }
    }
    longest
}
