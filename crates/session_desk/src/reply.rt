//! Replies, and how they are printed.
ghost use Rattle.std.specs.Prelude.{◌≡◌, ◌≤◌, [], length};
ghost use Rattle.session_desk.specs.Texts.{IsPrintable, reply_text};

use crystal_cartan::Weight;
use crystal_streams::Line;
use tableau_reading::{print_weight, print_word};
use tensor_words::{Space, word_with};

/// What a session is told of a command.
#[derive(Clone, Copy, Debug, PartialEq, Eq)]
pub enum Reply {
    /// The word was new, and was put in.
    New,
    /// The word was there already.
    Old,
    /// The word is there.
    There,
    /// The word is not there.
    Absent,
    /// The arrow is not drawn.
    Undrawn,
    /// The arrow leads to zero.
    Zero,
    /// The arrow leads to the word with this code.
    Word(u64),
    /// The word is not there, and every cell is taken.
    Full,
    /// The length of a string.
    Number(u32),
    /// The weight of the word.
    Weight(Weight),
    /// There is no debt: the graph is closed.
    Done,
    /// There are debts: the graph may still grow.
    More,
}

/// Prints a reply into an empty line: `new`, `old`, `there`, `absent`, `open` (for `Undrawn`), `zero`, `full`, a word, a
/// number, a weight, `done` or `more`.
#[tactic(auto, unfolding(crate::specs::Texts::reply_text))]
pub fn reply_line(space: &Space, reply: &Reply, out: &mut Line)
    requires empty { out.old ≡ [] }
    requires printable { IsPrintable space.now reply.now }
    ensures text { out.new ≡ reply_text space.now reply.now }
    ensures fits { length out.new ≤ 160 }
{
    match reply {
        Reply::New => out.text(b"new"),
        Reply::Old => out.text(b"old"),
        Reply::There => out.text(b"there"),
        Reply::Absent => out.text(b"absent"),
        Reply::Undrawn => out.text(b"open"),
        Reply::Zero => out.text(b"zero"),
        Reply::Full => out.text(b"full"),
        Reply::Word(code) => print_word(space, &word_with(space, *code), out),
        Reply::Number(number) => out.number(i64::from(*number)),
        Reply::Weight(weight) => print_weight(weight, out),
        Reply::Done => out.text(b"done"),
        Reply::More => out.text(b"more"),
    }
}
