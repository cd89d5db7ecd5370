//! Statistics: chosen by their names, fed with the vertices of a finished graph, and reported.
ghost use Rattle.std.specs.Prelude.{◌≡◌, List, IfOk, map, length, string_bytes};
ghost use Rattle.command_words.specs.Judge.{AreChosen, judge_words, IsAnswer, FitsNames};
ghost use Rattle.answer_text.specs.Answers.{AreShort};
ghost use Rattle.crystal_characters.specs.Items.{items_of};
ghost use Rattle.crystal_shell.specs.Statistics.{AreFresh, AreReports, Reporter, names_of};

use answer_text::Report;
use canonical_graph::Finished;
use command_words::{Places, Settings, WordsFault, read_words};
use crystal_characters::{Statistic, feed_chosen};
use crystal_streams::NoMemory;
use std::alloc::Global;

/// The settings that the command words ask for, or their first fault. A statistic is chosen by its name; of two with
/// one name it is the first.
pub(crate) fn read_settings(
    alloc: Global,
    words: &[String],
    stats: &[Box<dyn Statistic>],
) -> Result<Settings, WordsFault>
    ensures answer { let reporters : List Reporter = map (λ b. record { name = named b; reports = reported b }) stats.now in
        IsAnswer (judge_words (map string_bytes words.now) (names_of reporters)) result }
    ensures fits { IfOk result (FitsNames (length stats.now)) }
{
    match names(alloc, stats) {
        Ok(names) => read_words(alloc, words, names.as_slice()),
        Err(NoMemory) => Err(WordsFault::NoMemory),
    }
}

/// The names of the statistics, in order.
fn names<'a>(alloc: Global, stats: &'a [Box<dyn Statistic>]) -> Result<Vec<&'a str>, NoMemory>
    ensures names { let reporters : List Reporter = map (λ b. record { name = named b; reports = reported b }) stats.now in
        IfOk result (λ names. map (λ name. name.now) names.items ≡ names_of reporters) }
    ensures count { IfOk result (λ names. length names.items ≡ length stats.now) }
{
    let mut names = Vec::new(alloc);
    'names: for stat in stats {
        names.push(name_of(stat))?;
    }
    Ok(names)
}

fn name_of(stat: &Box<dyn Statistic>) -> &str
    ensures { result.now ≡ named stat.now }
{
    stat.name()
}

/// Feeds the statistics that stand at these places with the vertices, and takes their reports, in this order.
pub(crate) fn reports(
    alloc: Global,
    stats: &mut Vec<Box<dyn Statistic>>,
    places: &Places,
    finished: &Finished,
) -> Result<Vec<Report>, NoMemory>
    requires chosen { AreChosen (length stats.old.items) places.now }
    requires fresh { AreFresh (λ b. named b) (λ b. fed b) stats.old.items }
    ensures reports { let reporters : List Reporter = map (λ b. record { name = named b; reports = reported b }) stats.old.items in
        IfOk result (λ reports. AreReports reporters places.now (items_of finished.now) reports.items) }
    ensures short { IfOk result (λ reports. AreShort reports.items) }
{
    feed_chosen(stats, places.as_slice(), finished)?;
    let mut reports = Vec::with_capacity(alloc, places.len())?;
    'places: for k in 0..places.len() {
        let place = *places.at(k);
        let report = report_of(alloc, &stats[place])?;
        reports.push_reserved(report);
    }
    Ok(reports)
}

/// What a statistic reports, under its name.
fn report_of(alloc: Global, stat: &Box<dyn Statistic>) -> Result<Report, NoMemory>
    ensures name { IfOk result (λ report. string_bytes report.name ≡ named stat.now) }
    ensures bytes { IfOk result (λ report. report.bytes.items ≡ reported stat.now (fed stat.now)) }
{
    let name = String::from_str(alloc, name_of(stat))?;
    let mut bytes = Vec::new(alloc);
    stat.report(&mut bytes)?;
    Ok(Report { name, bytes })
}
