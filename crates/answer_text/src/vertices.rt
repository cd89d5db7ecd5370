//! The line of a vertex.
ghost use Rattle.std.specs.Prelude.{◌≡◌, ◌+◌, ◌<◌, ◌≤◌, ◌++◌, ◌&&◌, length, decimal, not, is_some};
ghost use Rattle.crystal_cartan.specs.Types.{HasIndex};
ghost use Rattle.canonical_graph.specs.Graphs.{IsFinished, target_rank, lowering};
ghost use Rattle.answer_text.specs.Vertices.{vertex_text, arrows_text, spaced_onto, dash_onto};

use canonical_graph::Finished;
use crystal_cartan::Arrow;
use crystal_streams::Line;
use tableau_reading::{print_weight, print_word};

/// The line of a vertex: `RANK | WORD | WEIGHT | ARROWS`.
pub fn vertex_line(finished: &Finished, rank: u32) -> Line
    requires { rank < length finished.now.codes }
    ensures { result ≡ vertex_text finished.now rank }
{
    let word = finished.word_at(rank);
    let space = finished.space();
    let mut line = Line::new();
    print_number(rank, &mut line);
    line.text(b" | ");
    print_word(space, &word, &mut line);
    line.text(b" | ");
    print_weight(&finished.steps().weight(&word), &mut line);
    line.text(b" | ");
    print_arrows(finished, rank, &mut line);
    line
}

/// Appends the arrows that lower a vertex.
fn print_arrows(finished: &Finished, rank: u32, out: &mut Line)
    requires rank { rank < length finished.now.codes }
    requires room { length out.old ≤ 260 }
    ensures text { out.new ≡ out.old ++ arrows_text finished.now rank }
    ensures fits { length out.new ≤ length out.old + 177 }
{
    let mut first = true;
    'indices: for place in 0..finished.space().cartan().rank() {
        first = print_arrow(finished, rank, place + 1, first, out);
    }
    print_dash(first, out);
}

/// Appends the arrow of one index, and a blank before it unless it is the first. Says whether there is none yet.
fn print_arrow(finished: &Finished, rank: u32, index: u8, first: bool, out: &mut Line) -> bool
    requires rank { rank < length finished.now.codes }
    requires index { HasIndex finished.now.space.cartan index }
    requires room { length out.old ≤ 450 }
    ensures text { out.new ≡ spaced_onto out.old first index (target_rank finished.now rank (lowering index)) }
    ensures first { result ≡ (first && not (is_some (target_rank finished.now rank (lowering index)))) }
    ensures fits { length out.new ≤ length out.old + 22 }
{
    let Some(target) = finished.arrow_at(rank, Arrow { down: true, index }) else {
        return first;
    };
    if !first {
        out.text(b" ");
    }
    print_number(u32::from(index), out);
    out.text(b":");
    print_number(target, out);
    false
}

/// Appends the dash that stands where there is no arrow.
fn print_dash(none: bool, out: &mut Line)
    requires { length out.old + 1 ≤ 512 }
    ensures text { out.new ≡ dash_onto out.old none }
    ensures fits { length out.new ≤ length out.old + 1 }
{
    if none {
        out.text(b"-");
    }
}

/// Appends a number in decimal, at most 10 bytes.
fn print_number(value: u32, out: &mut Line)
    requires { length out.old + 20 ≤ 512 }
    ensures text { out.new ≡ out.old ++ decimal value }
    ensures fits { length out.new ≤ length out.old + 10 }
{
    out.number(i64::from(value));
}
