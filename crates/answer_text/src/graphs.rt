//! A finished graph, and the statistics of its vertices.
ghost use Rattle.std.specs.Prelude.{◌≡◌, ◌≤◌, ◌<◌, length, pos, string_bytes};
ghost use Rattle.canonical_graph.specs.Graphs.{arrow_count};
ghost use Rattle.crystal_streams.specs.Lines.{ended};
ghost use Rattle.answer_text.specs.Prints.{Prints};
ghost use Rattle.answer_text.specs.Texts.{graph_head, vertex_lines, graph_part, statistic_head, statistic_text};
ghost use Rattle.answer_text.specs.Answers.{AreShort, reports_text};

use crate::answers::Report;
use crate::lines::{keyed_line, line_of};
use crate::pages::{Page, print_line, print_text};
use crate::vertices::vertex_line;
use canonical_graph::Finished;
use crystal_streams::{Line, Sink, WriteFault};

/// Prints a graph: `graph V E`, the numbers of vertices and of f arrows, and a line for each vertex in ascending
/// rank, `RANK | WORD | WEIGHT | ARROWS`.
pub(crate) fn print_graph<W: Sink>(
    sink: &mut W,
    page: &mut Page,
    finished: &Finished,
) -> Result<(), WriteFault>
    ensures { Prints (W.taken sink.old) (W.taken sink.new) (W.faults sink.old) (W.faults sink.new) page.old page.new
        (graph_part finished.now) result }
{
    print_sizes(sink, page, finished)?;
    print_vertices(sink, page, finished)
}

/// Prints the sizes of a graph: `graph V E`, the numbers of vertices and of f arrows.
pub(crate) fn print_sizes<W: Sink>(
    sink: &mut W,
    page: &mut Page,
    finished: &Finished,
) -> Result<(), WriteFault>
    ensures { Prints (W.taken sink.old) (W.taken sink.new) (W.faults sink.old) (W.faults sink.new) page.old page.new
        (ended (graph_head finished.now)) result }
{
    print_line(sink, page, &graph_head(finished))
}

#[tactic(auto, unfolding(crate::specs::Texts::graph_head))]
fn graph_head(finished: &Finished) -> Line
    ensures { result ≡ graph_head finished.now }
{
    let mut line = keyed_line(b"graph ", u64::from(finished.len()));
    line.text(b" ");
    line.number(arrow_number(finished));
    line
}

/// The number of f arrows: at most eight for each vertex, of which there are fewer than 2^32.
#[tactic(auto, using(crate::proofs::Arrows::small_arrows))]
fn arrow_number(finished: &Finished) -> i64
    ensures { result ≡ pos (arrow_count finished.now) }
{
    finished.arrows() as i64
}

/// Prints a line for each vertex, in ascending rank.
fn print_vertices<W: Sink>(
    sink: &mut W,
    page: &mut Page,
    finished: &Finished,
) -> Result<(), WriteFault>
    ensures { Prints (W.taken sink.old) (W.taken sink.new) (W.faults sink.old) (W.faults sink.new) page.old page.new
        (vertex_lines finished.now 0 (length finished.now.codes)) result }
{
    'ranks: for rank in 0..finished.len() {
        print_line(sink, page, &vertex_line(finished, rank))?;
    }
    Ok(())
}

/// Prints the reports of statistics, in their order.
pub(crate) fn print_reports<W: Sink>(
    sink: &mut W,
    page: &mut Page,
    reports: &[Report],
) -> Result<(), WriteFault>
    requires { AreShort reports.now }
    ensures { Prints (W.taken sink.old) (W.taken sink.new) (W.faults sink.old) (W.faults sink.new) page.old page.new
        (reports_text reports.now) result }
{
    'reports: for report in reports {
        print_report(sink, page, report)?;
    }
    Ok(())
}

/// Prints the report of a statistic: `statistic NAME`, and the report as it is.
pub(crate) fn print_report<W: Sink>(
    sink: &mut W,
    page: &mut Page,
    report: &Report,
) -> Result<(), WriteFault>
    requires { length (string_bytes report.now.name) ≤ 64 }
    ensures { Prints (W.taken sink.old) (W.taken sink.new) (W.faults sink.old) (W.faults sink.new) page.old page.new
        (statistic_text (string_bytes report.now.name) report.now.bytes.items) result }
{
    print_line(sink, page, &statistic_head(report.name.as_bytes()))?;
    print_text(sink, page, report.bytes.as_slice())
}

#[tactic(auto, unfolding(crate::specs::Texts::statistic_head))]
fn statistic_head(name: &[u8]) -> Line
    requires { length name.now ≤ 64 }
    ensures { result ≡ statistic_head name.now }
{
    let mut line = line_of(b"statistic ");
    line.text(name);
    line
}
