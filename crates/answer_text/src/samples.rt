//! A sample job and the sizes of its graph.
ghost use Rattle.crystal_streams.specs.Lines.{ended};
ghost use Rattle.answer_text.specs.Prints.{Prints};
ghost use Rattle.answer_text.specs.Answers.{sample_answer, sizes_line};

use crate::graphs::print_sizes;
use crate::heads::{print_end, print_full, print_head};
use crate::lines::keyed_line;
use crate::pages::{Page, print_line};
use canonical_graph::Finished;
use crystal_cartan::Cartan;
use crystal_streams::{Sink, WriteFault};

/// Prints a sample job: its number, its type, how many sessions and commands it has, and the sizes of its graph.
pub(crate) fn print_sample<W: Sink>(
    sink: &mut W,
    page: &mut Page,
    number: u32,
    cartan: Cartan,
    sessions: u32,
    commands: u32,
    graph: &Option<Finished>,
) -> Result<(), WriteFault>
    ensures { Prints (W.taken sink.old) (W.taken sink.new) (W.faults sink.old) (W.faults sink.new) page.old page.new
        (sample_answer number cartan sessions commands (sizes_line graph.now)) result }
{
    print_line(sink, page, &keyed_line(b"sample ", u64::from(number)))?;
    print_head(sink, page, cartan)?;
    print_line(sink, page, &keyed_line(b"sessions ", u64::from(sessions)))?;
    print_line(sink, page, &keyed_line(b"commands ", u64::from(commands)))?;
    print_sizes_or_full(sink, page, graph)?;
    print_end(sink, page)
}

/// Prints the sizes of a graph, or `full` where there is none.
fn print_sizes_or_full<W: Sink>(
    sink: &mut W,
    page: &mut Page,
    graph: &Option<Finished>,
) -> Result<(), WriteFault>
    ensures { Prints (W.taken sink.old) (W.taken sink.new) (W.faults sink.old) (W.faults sink.new) page.old page.new
        (ended (sizes_line graph.now)) result }
{
    match graph {
        Some(finished) => print_sizes(sink, page, finished),
        None => print_full(sink, page),
    }
}
