//! The tableaux of a census.
ghost use Rattle.std.specs.Prelude.{◌≡◌, ◌<◌, All, IfSome};
ghost use Rattle.std.specs.List.{flat_map};
ghost use Rattle.tensor_words.specs.Spaces.{size};
ghost use Rattle.tensor_words.specs.Codes.{word_of};
ghost use Rattle.tableau_reading.specs.Shapes.{shape_space};
ghost use Rattle.tableau_reading.specs.Texts.{word_text};
ghost use Rattle.crystal_streams.specs.Lines.{ended};
ghost use Rattle.answer_text.specs.Prints.{Prints};
ghost use Rattle.answer_text.specs.Modes.{tableaux_text};
ghost use Rattle.answer_text.specs.Answers.{tableaux_answer, tableaux_part};

use crate::heads::{print_census_head, print_end, print_full};
use crate::lines::keyed_line;
use crate::pages::{Page, print_line};
use crystal_streams::{Line, Sink, WriteFault};
use tableau_reading::{Shape, print_word};
use tensor_words::{Codes, Space, word_with};

/// Prints the tableaux of a shape, or `full` where there are too many.
pub(crate) fn print_census<W: Sink>(
    sink: &mut W,
    page: &mut Page,
    shape: &Shape,
    codes: &Option<Codes>,
) -> Result<(), WriteFault>
    requires { IfSome codes.now (All (λ code. code < size (shape_space shape.now))) }
    ensures { Prints (W.taken sink.old) (W.taken sink.new) (W.faults sink.old) (W.faults sink.new) page.old page.new
        (tableaux_answer shape.now codes.now) result }
{
    print_census_head(sink, page, shape.cartan())?;
    print_tableaux_or_full(sink, page, &shape.space(), codes)?;
    print_end(sink, page)
}

/// Prints the tableaux with these codes, or `full` where there are none.
fn print_tableaux_or_full<W: Sink>(
    sink: &mut W,
    page: &mut Page,
    space: &Space,
    codes: &Option<Codes>,
) -> Result<(), WriteFault>
    requires { IfSome codes.now (All (λ code. code < size space.now)) }
    ensures { Prints (W.taken sink.old) (W.taken sink.new) (W.faults sink.old) (W.faults sink.new) page.old page.new
        (tableaux_part space.now codes.now) result }
{
    match codes {
        Some(list) => print_tableaux(sink, page, space, list.as_slice()),
        None => print_full(sink, page),
    }
}

/// Prints the tableaux with these codes: `tableaux COUNT`, and a line for the reading of each.
#[tactic(auto, unfolding(crate::specs::Modes::tableaux_text))]
pub(crate) fn print_tableaux<W: Sink>(
    sink: &mut W,
    page: &mut Page,
    space: &Space,
    codes: &[u64],
) -> Result<(), WriteFault>
    requires { All (λ code. code < size space.now) codes.now }
    ensures { Prints (W.taken sink.old) (W.taken sink.new) (W.faults sink.old) (W.faults sink.new) page.old page.new
        (tableaux_text space.now codes.now) result }
{
    print_line(sink, page, &keyed_line(b"tableaux ", codes.len() as u64))?;
    print_readings(sink, page, space, codes)
}

/// Prints a line for each reading.
fn print_readings<W: Sink>(
    sink: &mut W,
    page: &mut Page,
    space: &Space,
    codes: &[u64],
) -> Result<(), WriteFault>
    requires { All (λ code. code < size space.now) codes.now }
    ensures { Prints (W.taken sink.old) (W.taken sink.new) (W.faults sink.old) (W.faults sink.new) page.old page.new
        (flat_map (λ code. ended (word_text space.now (word_of space.now code))) codes.now) result }
{
    'codes: for code in codes {
        print_line(sink, page, &reading_line(space, *code))?;
    }
    Ok(())
}

/// The word with this code.
fn reading_line(space: &Space, code: u64) -> Line
    requires { code < size space.now }
    ensures { result ≡ word_text space.now (word_of space.now code) }
{
    let mut line = Line::new();
    print_word(space, &word_with(space, code), &mut line);
    line
}
