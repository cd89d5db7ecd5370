//! The statistic `ends`.
ghost use Rattle.std.specs.Prelude.{◌≡◌, ◌≤◌, codes, count_by};
ghost use Rattle.crystal_characters.specs.Reports.{end_report, is_end, is_end_at, Appends};

use crate::items::Item;
use crate::printing::print_number;
use crate::rules::{Rule, Tally};
use crystal_streams::{Line, NoMemory, push_line};
use std::alloc::Global;

/// The statistic `ends`: the number of items that are at an end of their string at every index.
pub type EndTally = Tally<Ends>;

/// The rule of the statistic `ends`.
#[derive(Debug)]
pub struct Ends;

impl Rule for Ends {
    ghost named = { codes "ends" };

    ghost reported = { end_report };

    fn name() -> &'static str {
        "ends"
    }

    #[tactic(auto, unfolding(crate::specs::Reports::end_report))]
    fn report(_alloc: Global, items: &[Item], out: &mut Vec<u8>) -> Result<(), NoMemory> {
        let mut line = Line::new();
        print_number(end_count(items), &mut line);
        push_line(out, &line)
    }
}

/// The number of items that are at an end of their string at every index.
fn end_count(items: &[Item]) -> u64
    ensures { result ≡ count_by is_end items.now }
{
    let mut count = 0;
    'items: for item in items {
        if is_end(item) {
            count += 1;
        }
    }
    count
}

/// Whether the item is at an end of its string at every index of its type.
fn is_end(item: &Item) -> bool
    ensures { result ≡ is_end item.now }
{
    'indices: for place in 0..item.cartan.rank() {
        if !is_end_at(item, place + 1) {
            return false;
        }
    }
    true
}

/// Whether the item is at an end of its string of index i.
fn is_end_at(item: &Item, i: u8) -> bool
    requires { (1 ≤ i) × (i ≤ 8) }
    ensures { result ≡ is_end_at item.now i }
{
    let place = i as usize - 1;
    item.eps[place] == 0 || item.phi[place] == 0
}
