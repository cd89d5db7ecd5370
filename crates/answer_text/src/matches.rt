//! What the comparison of two components came to.
ghost use Rattle.std.specs.Prelude.{◌≡◌, ◌∷◌, IfSome};
ghost use Rattle.crystal_streams.specs.Lines.{ended};
ghost use Rattle.answer_text.specs.Prints.{Prints};
ghost use Rattle.answer_text.specs.Modes.{arrow_token, arrow_tokens, differs_line};
ghost use Rattle.answer_text.specs.Answers.{IsPrintableVerdict, verdict_line};

use crate::heads::print_full;
use crate::lines::{keyed_line, line_of};
use crate::pages::{Page, print_line, print_piece};
use crystal_cartan::Arrow;
use crystal_match::Verdict;
use crystal_streams::{Line, Sink, WriteFault};

/// Prints the line of a verdict, or `full` where there is none: `same COUNT` with the number of pairs, or `differs` with
/// the walk that tells the two apart.
#[tactic(auto, unfolding(crate::specs::Modes::same_line))]
pub(crate) fn print_verdict<W: Sink>(
    sink: &mut W,
    page: &mut Page,
    verdict: &Option<Verdict>,
) -> Result<(), WriteFault>
    requires { IfSome verdict.now IsPrintableVerdict }
    ensures { Prints (W.taken sink.old) (W.taken sink.new) (W.faults sink.old) (W.faults sink.new) page.old page.new
        (ended (verdict_line verdict.now)) result }
{
    match verdict {
        Some(Verdict::Same { pairs }) => print_line(
            sink,
            page,
            &keyed_line(b"same ", pairs.len() as u64),
        ),
        Some(Verdict::Differs { walk }) => print_differs(sink, page, walk.as_slice()),
        None => print_full(sink, page),
    }
}

/// Prints the line of two components that differ: `differs`, and the arrows of the walk that tells them apart, as
/// `f1 e2`. Nothing bounds the number of arrows, so they are printed one by one.
#[tactic(auto, unfolding(crate::specs::Modes::differs_line))]
pub(crate) fn print_differs<W: Sink>(
    sink: &mut W,
    page: &mut Page,
    walk: &[Arrow],
) -> Result<(), WriteFault>
    ensures { Prints (W.taken sink.old) (W.taken sink.new) (W.faults sink.old) (W.faults sink.new) page.old page.new
        (ended (differs_line walk.now)) result }
{
    print_piece(sink, page, &line_of(b"differs"))?;
    print_arrows(sink, page, walk)?;
    print_line(sink, page, &Line::new())
}

/// Prints arrows, each with a blank in front of it.
fn print_arrows<W: Sink>(sink: &mut W, page: &mut Page, walk: &[Arrow]) -> Result<(), WriteFault>
    ensures { Prints (W.taken sink.old) (W.taken sink.new) (W.faults sink.old) (W.faults sink.new) page.old page.new
        (arrow_tokens walk.now) result }
{
    'arrows: for arrow in walk {
        print_piece(sink, page, &token(*arrow))?;
    }
    Ok(())
}

/// A blank and an arrow.
#[tactic(auto, unfolding(crate::specs::Modes::arrow_token))]
fn token(arrow: Arrow) -> Line
    ensures { result ≡ 32 ∷ arrow_token arrow }
{
    let mut line = Line::new();
    line.text(if arrow.down { b" f" } else { b" e" });
    line.number(i64::from(arrow.index));
    line
}
