//! Whole answers, printed to a sink.
ghost use Rattle.std.specs.Prelude.{◌≡◌, [], IfSome};
ghost use Rattle.crystal_streams.specs.Writes.{Writes};
ghost use Rattle.answer_text.specs.Prints.{Prints};
ghost use Rattle.answer_text.specs.Answers.{ArePrintable, IsPrintableWhole, IsPrintableVerdict, IsPrintableCounts, IsPrintableAnswer};
ghost use Rattle.answer_text.specs.Answers.{crystal_text, crystal_part, whole_part, match_text, verdict_line, wide_text, counts_line, answer_bytes};

use crate::answers::{Answer, Counts, Whole};
use crate::asks::print_asks;
use crate::censuses::print_census;
use crate::counts::print_counts;
use crate::graphs::{print_graph, print_reports};
use crate::heads::{print_end, print_full, print_head, print_job_refusal, print_words_refusal};
use crate::matches::print_verdict;
use crate::pages::{Page, hand_on};
use crate::samples::print_sample;
use crate::sessions::print_sessions;
use crystal_cartan::Cartan;
use crystal_match::Verdict;
use crystal_streams::{Sink, WriteFault};
use session_desk::Replies;
use tensor_words::Space;

/// Prints an answer to a sink, by way of an empty page. No memory is taken. After a `WriteFault`, which comes only where a
/// write failed, a front of the text is out.
pub fn print_answer<W: Sink>(sink: &mut W, page: Page, answer: &Answer) -> Result<(), WriteFault>
    requires empty { page ≡ [] }
    requires printable { IsPrintableAnswer answer.now }
    ensures { Writes (W.taken sink.old) (W.taken sink.new) (W.faults sink.old) (W.faults sink.new)
        (answer_bytes answer.now) result }
{
    let mut page = page;
    print_parts(sink, &mut page, answer)?;
    hand_on(sink, &mut page)
}

/// Prints an answer, the end of which may stay on the page.
fn print_parts<W: Sink>(sink: &mut W, page: &mut Page, answer: &Answer) -> Result<(), WriteFault>
    requires { IsPrintableAnswer answer.now }
    ensures { Prints (W.taken sink.old) (W.taken sink.new) (W.faults sink.old) (W.faults sink.new) page.old page.new
        (answer_bytes answer.now) result }
{
    match answer {
        Answer::WordsRefused { fault } => print_words_refusal(sink, page, *fault),
        Answer::JobRefused { line, fault } => print_job_refusal(sink, page, *line, *fault),
        Answer::Crystal { space, told, graph } => {
            print_crystal(sink, page, space, told.as_slice(), graph)
        }
        Answer::Sample {
            number,
            cartan,
            sessions,
            commands,
            graph,
        } => print_sample(sink, page, *number, *cartan, *sessions, *commands, graph),
        Answer::Tableaux { shape, codes } => print_census(sink, page, shape, codes),
        Answer::Comparison { cartan, verdict } => print_comparison(sink, page, *cartan, verdict),
        Answer::Wide { cartan, counts } => print_wide(sink, page, *cartan, counts),
    }
}

/// Prints the crystal of a job: its type, what its sessions were told, and the graph with what is told of it, or `full`
/// where there is none.
fn print_crystal<W: Sink>(
    sink: &mut W,
    page: &mut Page,
    space: &Space,
    told: &[Replies],
    graph: &Option<Whole>,
) -> Result<(), WriteFault>
    requires told { ArePrintable space.now told.now }
    requires graph { IfSome graph.now IsPrintableWhole }
    requires space { IfSome graph.now (λ whole. whole.finished.space ≡ space.now) }
    ensures { Prints (W.taken sink.old) (W.taken sink.new) (W.faults sink.old) (W.faults sink.new) page.old page.new
        (crystal_text space.now told.now graph.now) result }
{
    print_head(sink, page, space.cartan())?;
    print_sessions(sink, page, space, told)?;
    print_whole_or_full(sink, page, graph)?;
    print_end(sink, page)
}

/// Prints a graph and what is told of it, or `full` where there is none.
fn print_whole_or_full<W: Sink>(
    sink: &mut W,
    page: &mut Page,
    graph: &Option<Whole>,
) -> Result<(), WriteFault>
    requires { IfSome graph.now IsPrintableWhole }
    ensures { Prints (W.taken sink.old) (W.taken sink.new) (W.faults sink.old) (W.faults sink.new) page.old page.new
        (crystal_part graph.now) result }
{
    match graph {
        Some(whole) => print_whole(sink, page, whole),
        None => print_full(sink, page),
    }
}

/// Prints a graph, the reports of its statistics and the answers to the asks about it.
fn print_whole<W: Sink>(sink: &mut W, page: &mut Page, whole: &Whole) -> Result<(), WriteFault>
    requires { IsPrintableWhole whole.now }
    ensures { Prints (W.taken sink.old) (W.taken sink.new) (W.faults sink.old) (W.faults sink.new) page.old page.new
        (whole_part whole.now) result }
{
    print_graph(sink, page, &whole.finished)?;
    let reports = whole.reports.as_slice();
    print_reports(sink, page, reports)?;
    let asks = whole.asks.as_slice();
    print_asks(sink, page, &whole.finished, asks)
}

/// Prints a comparison: its type, the line of its verdict, and the end.
fn print_comparison<W: Sink>(
    sink: &mut W,
    page: &mut Page,
    cartan: Cartan,
    verdict: &Option<Verdict>,
) -> Result<(), WriteFault>
    requires { IfSome verdict.now IsPrintableVerdict }
    ensures { Prints (W.taken sink.old) (W.taken sink.new) (W.faults sink.old) (W.faults sink.new) page.old page.new
        (match_text cartan (verdict_line verdict.now)) result }
{
    print_head(sink, page, cartan)?;
    print_verdict(sink, page, verdict)?;
    print_end(sink, page)
}

/// Prints a growth of wide words: its type, the line of its counts, and the end.
fn print_wide<W: Sink>(
    sink: &mut W,
    page: &mut Page,
    cartan: Cartan,
    counts: &Option<Counts>,
) -> Result<(), WriteFault>
    requires { IfSome counts.now IsPrintableCounts }
    ensures { Prints (W.taken sink.old) (W.taken sink.new) (W.faults sink.old) (W.faults sink.new) page.old page.new
        (wide_text cartan (counts_line counts.now)) result }
{
    print_head(sink, page, cartan)?;
    print_counts(sink, page, counts)?;
    print_end(sink, page)
}
