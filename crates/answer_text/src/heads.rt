//! The first and the last line of a text, the line in place of what is too large, and the one line of a refusal.
ghost use Rattle.std.specs.Prelude.{◌≡◌, ◌≤◌, length};
ghost use Rattle.crystal_streams.specs.Lines.{ended};
ghost use Rattle.answer_text.specs.Prints.{Prints};
ghost use Rattle.answer_text.specs.Texts.{type_line, head_line, full_line, end_line, words_refusal, job_refusal_line, job_refusal};
ghost use Rattle.answer_text.specs.Modes.{census_line};

use crate::lines::{keyed_line, line_of};
use crate::pages::{Page, print_line};
use crystal_cartan::{Cartan, Kind};
use crystal_streams::{Line, Sink, WriteFault};

/// Prints the first line: `crystal K R`, the kind and the rank.
pub(crate) fn print_head<W: Sink>(
    sink: &mut W,
    page: &mut Page,
    cartan: Cartan,
) -> Result<(), WriteFault>
    ensures { Prints (W.taken sink.old) (W.taken sink.new) (W.faults sink.old) (W.faults sink.new) page.old page.new
        (ended (head_line cartan)) result }
{
    print_line(sink, page, &type_line(b"crystal ", cartan))
}

/// Prints the first line of a census: `census K R`, the kind and the rank.
pub(crate) fn print_census_head<W: Sink>(
    sink: &mut W,
    page: &mut Page,
    cartan: Cartan,
) -> Result<(), WriteFault>
    ensures { Prints (W.taken sink.old) (W.taken sink.new) (W.faults sink.old) (W.faults sink.new) page.old page.new
        (ended (census_line cartan)) result }
{
    print_line(sink, page, &type_line(b"census ", cartan))
}

/// The first word of a text, with the blank behind it, and a kind and a rank.
#[tactic(auto, unfolding(crate::specs::Texts::type_line))]
fn type_line(word: &[u8], cartan: Cartan) -> Line
    requires { length word.now ≤ 8 }
    ensures { result ≡ type_line word.now cartan }
{
    let mut line = line_of(word);
    line.text(match cartan.kind() {
        Kind::A => b"A",
        Kind::B => b"B",
        Kind::C => b"C",
        Kind::D => b"D",
    });
    line.text(b" ");
    line.number(i64::from(cartan.rank()));
    line
}

/// Prints the line that stands in place of what is too large: `full`.
pub(crate) fn print_full<W: Sink>(sink: &mut W, page: &mut Page) -> Result<(), WriteFault>
    ensures { Prints (W.taken sink.old) (W.taken sink.new) (W.faults sink.old) (W.faults sink.new) page.old page.new
        (ended full_line) result }
{
    print_line(sink, page, &line_of(b"full"))
}

/// Prints the last line: `end`.
pub(crate) fn print_end<W: Sink>(sink: &mut W, page: &mut Page) -> Result<(), WriteFault>
    ensures { Prints (W.taken sink.old) (W.taken sink.new) (W.faults sink.old) (W.faults sink.new) page.old page.new
        (ended end_line) result }
{
    print_line(sink, page, &line_of(b"end"))
}

/// Prints the line for refused command words: `refused words K`, K being the number of their fault.
pub(crate) fn print_words_refusal<W: Sink>(
    sink: &mut W,
    page: &mut Page,
    fault: u8,
) -> Result<(), WriteFault>
    ensures { Prints (W.taken sink.old) (W.taken sink.new) (W.faults sink.old) (W.faults sink.new) page.old page.new
        (words_refusal fault) result }
{
    print_line(sink, page, &keyed_line(b"refused words ", u64::from(fault)))
}

/// Prints the line for a refused job: `refused job line L fault K`. The line is 0 where the fault is none of a line.
pub(crate) fn print_job_refusal<W: Sink>(
    sink: &mut W,
    page: &mut Page,
    line: u32,
    fault: u8,
) -> Result<(), WriteFault>
    ensures { Prints (W.taken sink.old) (W.taken sink.new) (W.faults sink.old) (W.faults sink.new) page.old page.new
        (job_refusal line fault) result }
{
    print_line(sink, page, &refused_job(line, fault))
}

#[tactic(auto, unfolding(crate::specs::Texts::job_refusal_line))]
fn refused_job(at: u32, fault: u8) -> Line
    ensures { result ≡ job_refusal_line at fault }
{
    let mut line = keyed_line(b"refused job line ", u64::from(at));
    line.text(b" fault ");
    line.number(i64::from(fault));
    line
}
