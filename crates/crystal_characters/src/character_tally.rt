//! The statistic `character`.
ghost use Rattle.std.specs.Prelude.{◌≡◌, ◌<◌, length, codes, IfOk, map, All};
ghost use Rattle.crystal_cartan.specs.Weights.{IsSmall};
ghost use Rattle.crystal_characters.specs.Reports.{character_report, multiplicity_text, multiplicity_lines, Appends};

use crate::items::Item;
use crate::printing::print_number;
use crate::rules::{Rule, Tally};
use crate::tallies::{Character, tally_of};
use crystal_cartan::Weight;
use crystal_streams::{Line, NoMemory, push_line};
use std::alloc::Global;
use tableau_reading::print_weight;

/// The statistic `character`: the weights of the items with their multiplicities.
pub type CharacterTally = Tally<Characters>;

/// The rule of the statistic `character`.
#[derive(Debug)]
pub struct Characters;

impl Rule for Characters {
    ghost named = { codes "character" };

    ghost reported = { character_report };

    fn name() -> &'static str {
        "character"
    }

    #[tactic(auto, unfolding(crate::specs::Reports::character_report))]
    fn report(alloc: Global, items: &[Item], out: &mut Vec<u8>) -> Result<(), NoMemory> {
        let weights = item_weights(alloc, items)?;
        let tally = tally_of(alloc, weights)?;
        push_multiplicities(out, &tally)
    }
}

/// The weights of items.
fn item_weights(alloc: Global, items: &[Item]) -> Result<Vec<Weight>, NoMemory>
    ensures { IfOk result (λ list. list.items ≡ map (λ x. x.weight) items.now) }
{
    let mut list = Vec::new(alloc);
    'items: for item in items {
        list.push(item.weight)?;
    }
    Ok(list)
}

/// Appends a line for each weight.
fn push_multiplicities(out: &mut Vec<u8>, character: &Character) -> Result<(), NoMemory>
    requires { All (λ m. IsSmall m.weight) character.now }
    ensures { Appends (multiplicity_lines character.now) out.old.items out.new.items result }
{
    'weights: for k in 0..character.len() {
        let line = multiplicity_line(&character.weight_at(k), character.times_at(k));
        push_line(out, &line)?;
    }
    Ok(())
}

/// The line of a weight.
#[tactic(auto, unfolding(crate::specs::Reports::multiplicity_text))]
fn multiplicity_line(weight: &Weight, times: u64) -> Line
    requires { IsSmall weight.now }
    ensures text { result ≡ multiplicity_text (record { weight = weight.now; times = times }) }
    ensures fits { length result < 512 }
{
    let mut line = Line::new();
    print_weight(weight, &mut line);
    line.text(b" | ");
    print_number(times, &mut line);
    line
}
