//! What a growth of wide words came to.
ghost use Rattle.std.specs.Prelude.{◌≡◌, ◌<◌, ◌^◌, IfSome};
ghost use Rattle.crystal_streams.specs.Lines.{ended};
ghost use Rattle.answer_text.specs.Prints.{Prints};
ghost use Rattle.answer_text.specs.Modes.{wide_line};
ghost use Rattle.answer_text.specs.Answers.{IsPrintableCounts, counts_line};

use crate::answers::Counts;
use crate::heads::print_full;
use crate::lines::keyed_line;
use crate::pages::{Page, print_line};
use crystal_streams::{Line, Sink, WriteFault};

/// Prints the line of the counts, `wide V E`, or `full` where there are none.
pub(crate) fn print_counts<W: Sink>(
    sink: &mut W,
    page: &mut Page,
    counts: &Option<Counts>,
) -> Result<(), WriteFault>
    requires { IfSome counts.now IsPrintableCounts }
    ensures { Prints (W.taken sink.old) (W.taken sink.new) (W.faults sink.old) (W.faults sink.new) page.old page.new
        (ended (counts_line counts.now)) result }
{
    match counts {
        Some(counts) => print_line(sink, page, &line_of_counts(*counts)),
        None => print_full(sink, page),
    }
}

/// The line `wide V E`, with the numbers of words and of arrows.
#[tactic(auto, unfolding(crate::specs::Modes::wide_line))]
fn line_of_counts(counts: Counts) -> Line
    requires { IsPrintableCounts counts }
    ensures { result ≡ wide_line counts.vertices counts.arrows }
{
    let mut line = keyed_line(b"wide ", u64::from(counts.vertices));
    line.text(b" ");
    line.number(counts.arrows as i64);
    line
}
