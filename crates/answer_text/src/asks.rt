//! Answers to asks about a finished graph.
ghost use Rattle.std.specs.Prelude.{◌≡◌, ◌+◌, ◌*◌, ◌^◌, ◌≤◌, ◌<◌, ◌++◌, ◌∷◌, length, All};
ghost use Rattle.std.specs.List.{flat_map};
ghost use Rattle.crystal_cartan.specs.Types.{HasIndex};
ghost use Rattle.crystal_cartan.specs.Weights.{IsSmall};
ghost use Rattle.tableau_reading.specs.Texts.{word_text};
ghost use Rattle.canonical_graph.specs.Graphs.{vertex_word};
ghost use Rattle.crystal_streams.specs.Lines.{ended};
ghost use Rattle.answer_text.specs.Prints.{Prints};
ghost use Rattle.answer_text.specs.Texts.{numbered};
ghost use Rattle.answer_text.specs.Asks.{listed, product_text, demazure_head, member_line, demazure_text, tops_head, shape_text, top_line, tops_text, reflection_head, image_line, reflection_text};
ghost use Rattle.ask_answers.specs.Answers.{IsPrintableAsk};
ghost use Rattle.answer_text.specs.Answers.{ask_text, asks_text};

use crate::lines::{keyed_line, line_of, print_behind_blank};
use crate::pages::{Page, print_line};
use ask_answers::AskAnswer;
use canonical_graph::Finished;
use crystal_cartan::Weight;
use crystal_streams::{Line, Sink, WriteFault};
use tableau_reading::{Shape, print_weight, print_word};
use tensor_words::Order;

/// Prints the answers to asks about a graph, in their order.
pub(crate) fn print_asks<W: Sink>(
    sink: &mut W,
    page: &mut Page,
    finished: &Finished,
    asks: &[AskAnswer],
) -> Result<(), WriteFault>
    requires { All (IsPrintableAsk finished.now) asks.now }
    ensures { Prints (W.taken sink.old) (W.taken sink.new) (W.faults sink.old) (W.faults sink.new) page.old page.new
        (asks_text finished.now asks.now) result }
{
    'asks: for ask in asks {
        print_ask(sink, page, finished, ask)?;
    }
    Ok(())
}

/// Prints the answer to an ask about a graph.
fn print_ask<W: Sink>(
    sink: &mut W,
    page: &mut Page,
    finished: &Finished,
    ask: &AskAnswer,
) -> Result<(), WriteFault>
    requires { IsPrintableAsk finished.now ask.now }
    ensures { Prints (W.taken sink.old) (W.taken sink.new) (W.faults sink.old) (W.faults sink.new) page.old page.new
        (ask_text finished.now ask.now) result }
{
    match ask {
        AskAnswer::Demazure { indices, ranks } => {
            print_demazure(sink, page, finished, indices.as_slice(), ranks.as_slice())
        }
        AskAnswer::Tops { shape, tops } => print_tops(sink, page, finished, shape, tops.as_slice()),
        AskAnswer::Reflection { index, images } => {
            print_reflection(sink, page, *index, images.as_slice())
        }
    }
}

/// Prints a Demazure subset: `demazure I1 I2 .. | COUNT`, and `RANK | WORD` for each member.
#[tactic(auto, unfolding(crate::specs::Asks::demazure_text))]
pub(crate) fn print_demazure<W: Sink>(
    sink: &mut W,
    page: &mut Page,
    finished: &Finished,
    indices: &[u8],
    ranks: &[u32],
) -> Result<(), WriteFault>
    requires indices { All (HasIndex finished.now.space.cartan) indices.now }
    requires few { length indices.now ≤ 64 }
    requires ranks { All (λ rank. rank < length finished.now.codes) ranks.now }
    ensures { Prints (W.taken sink.old) (W.taken sink.new) (W.faults sink.old) (W.faults sink.new) page.old page.new
        (demazure_text finished.now indices.now ranks.now) result }
{
    let _space = finished.space();
    print_line(sink, page, &demazure_head(indices, ranks.len()))?;
    print_members(sink, page, finished, ranks)
}

#[tactic(auto, unfolding(crate::specs::Asks::demazure_head))]
fn demazure_head(indices: &[u8], count: usize) -> Line
    requires indices { All (λ index. index < 10) indices.now }
    requires few { length indices.now ≤ 64 }
    requires count { count < 2 ^ 63 }
    ensures { result ≡ demazure_head indices.now count }
{
    let mut line = line_of(b"demazure");
    print_indices(indices, &mut line);
    line.text(b" | ");
    line.number(count as i64);
    line
}

/// Appends indices to a line, each with a blank in front of it.
fn print_indices(indices: &[u8], line: &mut Line)
    requires indices { All (λ index. index < 10) indices.now }
    requires room { length line.old + 2 * length indices.now ≤ 400 }
    ensures text { line.new ≡ line.old ++ listed indices.now }
    ensures fits { length line.new ≤ length line.old + 2 * length indices.now }
{
    'indices: for index in indices {
        print_behind_blank(*index, line);
    }
}

/// Prints a line for each member of a subset.
fn print_members<W: Sink>(
    sink: &mut W,
    page: &mut Page,
    finished: &Finished,
    ranks: &[u32],
) -> Result<(), WriteFault>
    requires { All (λ rank. rank < length finished.now.codes) ranks.now }
    ensures { Prints (W.taken sink.old) (W.taken sink.new) (W.faults sink.old) (W.faults sink.new) page.old page.new
        (flat_map (λ rank. ended (member_line finished.now rank)) ranks.now) result }
{
    'members: for rank in ranks {
        print_line(sink, page, &member_line(finished, *rank))?;
    }
    Ok(())
}

#[tactic(auto, unfolding(crate::specs::Asks::member_line))]
fn member_line(finished: &Finished, rank: u32) -> Line
    requires { rank < length finished.now.codes }
    ensures { result ≡ member_line finished.now rank }
{
    let word = finished.word_at(rank);
    let mut line = Line::new();
    line.number(i64::from(rank));
    line.text(b" | ");
    print_word(finished.space(), &word, &mut line);
    line
}

/// Prints the product tops with a shape: `tops N1 N2 .. | COUNT` with the lengths of its rows, and `WORD | WEIGHT`
/// for each top. The word is that of the vertex followed by the top word of the shape, in Kashiwara's tensor order the
/// other way round.
#[tactic(auto, unfolding(crate::specs::Asks::tops_text))]
pub(crate) fn print_tops<W: Sink>(
    sink: &mut W,
    page: &mut Page,
    finished: &Finished,
    shape: &Shape,
    tops: &[(u32, Weight)],
) -> Result<(), WriteFault>
    requires ranks { All (λ top. top.0 < length finished.now.codes) tops.now }
    requires small { All (λ top. IsSmall top.1) tops.now }
    ensures { Prints (W.taken sink.old) (W.taken sink.new) (W.faults sink.old) (W.faults sink.new) page.old page.new
        (tops_text finished.now shape.now tops.now) result }
{
    print_line(sink, page, &tops_head(shape, tops.len()))?;
    print_top_lines(sink, page, finished, &shape_line(shape), tops)
}

#[tactic(auto, unfolding(crate::specs::Asks::tops_head))]
fn tops_head(shape: &Shape, count: usize) -> Line
    requires { count < 2 ^ 63 }
    ensures { result ≡ tops_head shape.now.rows count }
{
    let mut line = line_of(b"tops");
    print_rows(shape, &mut line);
    line.text(b" | ");
    line.number(count as i64);
    line
}

/// Appends the lengths of a shape's rows to a line, each with a blank in front of it.
fn print_rows(shape: &Shape, line: &mut Line)
    requires { length line.old ≤ 100 }
    ensures text { line.new ≡ line.old ++ listed shape.now.rows }
    ensures fits { length line.new ≤ length line.old + 189 }
{
    'rows: for place in 0..shape.rows() {
        print_behind_blank(shape.row(place + 1), line);
    }
}

/// The top word of a shape, in a line of its own.
#[tactic(auto, unfolding(crate::specs::Asks::shape_text))]
fn shape_line(shape: &Shape) -> Line
    ensures text { result ≡ shape_text shape.now }
    ensures fits { length result ≤ 160 }
{
    let mut line = Line::new();
    print_word(&shape.space(), &shape.top(), &mut line);
    line
}

/// Prints a line for each top, given the top word of the shape as it is printed.
fn print_top_lines<W: Sink>(
    sink: &mut W,
    page: &mut Page,
    finished: &Finished,
    word: &Line,
    tops: &[(u32, Weight)],
) -> Result<(), WriteFault>
    requires short { length word.now ≤ 160 }
    requires ranks { All (λ top. top.0 < length finished.now.codes) tops.now }
    requires small { All (λ top. IsSmall top.1) tops.now }
    ensures { Prints (W.taken sink.old) (W.taken sink.new) (W.faults sink.old) (W.faults sink.new) page.old page.new
        (flat_map (λ top. ended (top_line finished.now word.now top.0 top.1)) tops.now) result }
{
    'tops: for (rank, weight) in tops {
        print_line(sink, page, &top_line(finished, word, *rank, weight))?;
    }
    Ok(())
}

#[tactic(auto, unfolding(crate::specs::Asks::top_line))]
fn top_line(finished: &Finished, word: &Line, rank: u32, weight: &Weight) -> Line
    requires short { length word.now ≤ 160 }
    requires rank { rank < length finished.now.codes }
    requires small { IsSmall weight.now }
    ensures { result ≡ top_line finished.now word.now rank weight.now }
{
    let vertex = word_line(finished, rank);
    let mut line = product_line(finished.space().order(), &vertex, word);
    line.text(b" | ");
    print_weight(weight, &mut line);
    line
}

/// The word of a vertex, in a line of its own.
fn word_line(finished: &Finished, rank: u32) -> Line
    requires { rank < length finished.now.codes }
    ensures text { result ≡ word_text finished.now.space (vertex_word finished.now rank) }
    ensures fits { length result ≤ 160 }
{
    let mut line = Line::new();
    print_word(finished.space(), &finished.word_at(rank), &mut line);
    line
}

/// The word of a vertex and the top word of a shape as one word, in this tensor order.
fn product_line(order: Order, vertex: &Line, word: &Line) -> Line
    requires vertex { length vertex.now ≤ 160 }
    requires word { length word.now ≤ 160 }
    ensures text { result ≡ product_text order vertex.now word.now }
    ensures fits { length result ≤ 321 }
{
    match order {
        Order::Standard => joined(vertex, word),
        Order::Kashiwara => joined(word, vertex),
    }
}

/// Two words with a blank between them.
fn joined(first: &Line, second: &Line) -> Line
    requires first { length first.now ≤ 160 }
    requires second { length second.now ≤ 160 }
    ensures text { result ≡ first.now ++ 32 ∷ second.now }
    ensures fits { length result ≤ 321 }
{
    let mut line = line_of(first.bytes());
    line.text(b" ");
    line.text(second.bytes());
    line
}

/// Prints the reflection of an index: `reflect I | COUNT`, and `RANK | IMAGE` for each vertex in ascending rank.
#[tactic(auto, unfolding(crate::specs::Asks::reflection_text))]
pub(crate) fn print_reflection<W: Sink>(
    sink: &mut W,
    page: &mut Page,
    index: u8,
    images: &[u32],
) -> Result<(), WriteFault>
    requires { length images.now < 2 ^ 32 }
    ensures { Prints (W.taken sink.old) (W.taken sink.new) (W.faults sink.old) (W.faults sink.new) page.old page.new
        (reflection_text index images.now) result }
{
    print_line(sink, page, &reflection_head(index, images.len()))?;
    print_images(sink, page, images)
}

#[tactic(auto, unfolding(crate::specs::Asks::reflection_head))]
fn reflection_head(index: u8, count: usize) -> Line
    requires { count < 2 ^ 63 }
    ensures { result ≡ reflection_head index count }
{
    let mut line = keyed_line(b"reflect ", u64::from(index));
    line.text(b" | ");
    line.number(count as i64);
    line
}

/// Prints a line for each vertex and its image.
fn print_images<W: Sink>(sink: &mut W, page: &mut Page, images: &[u32]) -> Result<(), WriteFault>
    requires { length images.now < 2 ^ 32 }
    ensures { Prints (W.taken sink.old) (W.taken sink.new) (W.faults sink.old) (W.faults sink.new) page.old page.new
        (numbered (λ rank image. ended (image_line rank image)) 0 images.now) result }
{
    'images: for place in 0..images.len() {
        print_line(sink, page, &image_line(place as u32, images[place]))?;
    }
    Ok(())
}

#[tactic(auto, unfolding(crate::specs::Asks::image_line))]
fn image_line(rank: u32, image: u32) -> Line
    ensures { result ≡ image_line rank image }
{
    let mut line = Line::new();
    line.number(i64::from(rank));
    line.text(b" | ");
    line.number(i64::from(image));
    line
}
