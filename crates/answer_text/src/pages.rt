//! A page of text on its way to a sink: lines are gathered there, since a write for each line would cost too much.
ghost use Rattle.std.specs.Prelude.{◌≡◌, ◌+◌, ◌≤◌, [], ◌++◌, length, IfOk, OnOk};
ghost use Rattle.crystal_streams.specs.Lines.{ended};
ghost use Rattle.answer_text.specs.Prints.{Prints};

use crystal_streams::{Line, NoMemory, Sink, WriteFault, write_all};
use std::alloc::Global;
use std::marker::Model;

/// The most bytes of a page.
const MOST_BYTES: usize = 65_536;

/// The most bytes of a line with its end.
const LINE_BYTES: usize = 513;

/// Text that was printed and is not handed on yet, at most 65,536 bytes. Its memory is taken when it is made, and no more
/// later.
#[derive(Debug, Drop)]
pub struct Page {
    bytes: Vec<u8>,
}

impl Model for Page {
    ghost use Rattle.std.specs.Prelude.{ℕ, List, ◌≤◌, vec_len, vec_capacity};

    ghost Value = { List ℕ };

    ghost view = { λ p. p.bytes.items };

    ghost invariant = { λ p. (vec_len p.bytes ≤ 65536) × (65536 ≤ vec_capacity p.bytes) };
}

impl Page {
    /// An empty page.
    pub fn new(alloc: Global) -> Result<Page, NoMemory>
        ensures { IfOk result (λ page. page ≡ []) }
    {
        let bytes = Vec::with_capacity(alloc, MOST_BYTES)?;
        Ok(Page { bytes })
    }

    /// How many bytes the page can still take.
    fn room(&self) -> usize
        ensures { result + length self.now ≡ 65536 }
    {
        MOST_BYTES - self.bytes.len()
    }

    /// The bytes of the page.
    fn bytes(&self) -> &[u8]
        ensures { result.now ≡ self.now }
    {
        self.bytes.as_slice()
    }

    /// Appends a piece, for which there must be room.
    fn add(&mut self, piece: &[u8])
        requires { length self.old + length piece.now ≤ 65536 }
        ensures { self.new ≡ self.old ++ piece.now }
    {
        self.bytes.extend_from_slice(piece).unwrap();
    }

    fn clear(&mut self)
        ensures { self.new ≡ [] }
    {
        self.bytes.clear();
    }
}

/// Hands the page on.
pub(crate) fn hand_on<W: Sink>(sink: &mut W, page: &mut Page) -> Result<(), WriteFault>
    ensures prints { Prints (W.taken sink.old) (W.taken sink.new) (W.faults sink.old) (W.faults sink.new) page.old page.new
        [] result }
    ensures empty { page.new ≡ [] }
{
    let result = write_all(sink, page.bytes());
    page.clear();
    result
}

/// Hands the page on where it has no room for a further line.
fn make_room<W: Sink>(sink: &mut W, page: &mut Page) -> Result<(), WriteFault>
    ensures prints { Prints (W.taken sink.old) (W.taken sink.new) (W.faults sink.old) (W.faults sink.new) page.old page.new
        [] result }
    ensures room { OnOk result (length page.new + 513 ≤ 65536) }
{
    if page.room() < LINE_BYTES {
        return hand_on(sink, page);
    }
    Ok(())
}

/// Prints a line and its end.
pub(crate) fn print_line<W: Sink>(
    sink: &mut W,
    page: &mut Page,
    line: &Line,
) -> Result<(), WriteFault>
    ensures { Prints (W.taken sink.old) (W.taken sink.new) (W.faults sink.old) (W.faults sink.new) page.old page.new
        (ended line.now) result }
{
    make_room(sink, page)?;
    page.add(line.bytes());
    page.add(b"\n");
    Ok(())
}

/// Prints a part of a line.
pub(crate) fn print_piece<W: Sink>(
    sink: &mut W,
    page: &mut Page,
    piece: &Line,
) -> Result<(), WriteFault>
    ensures { Prints (W.taken sink.old) (W.taken sink.new) (W.faults sink.old) (W.faults sink.new) page.old page.new
        piece.now result }
{
    make_room(sink, page)?;
    page.add(piece.bytes());
    Ok(())
}

/// Prints a text of any length, which is not gathered.
pub(crate) fn print_text<W: Sink>(
    sink: &mut W,
    page: &mut Page,
    text: &[u8],
) -> Result<(), WriteFault>
    ensures { Prints (W.taken sink.old) (W.taken sink.new) (W.faults sink.old) (W.faults sink.new) page.old page.new
        text.now result }
{
    hand_on(sink, page)?;
    write_all(sink, text)
}
