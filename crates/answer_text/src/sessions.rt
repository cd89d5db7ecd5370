//! What the sessions were told.
ghost use Rattle.std.specs.Prelude.{◌≡◌, All};
ghost use Rattle.session_desk.specs.Texts.{IsPrintable, reply_text};
ghost use Rattle.answer_text.specs.Prints.{Prints};
ghost use Rattle.answer_text.specs.Texts.{reply_lines, session_text, sessions_text};
ghost use Rattle.answer_text.specs.Answers.{ArePrintable};

use crate::lines::keyed_line;
use crate::pages::{Page, print_line};
use crystal_streams::{Line, Sink, WriteFault};
use session_desk::{Replies, Reply};
use tensor_words::Space;

/// Prints the sessions one after another, numbered from 1.
pub(crate) fn print_sessions<W: Sink>(
    sink: &mut W,
    page: &mut Page,
    space: &Space,
    told: &[Replies],
) -> Result<(), WriteFault>
    requires { ArePrintable space.now told.now }
    ensures { Prints (W.taken sink.old) (W.taken sink.new) (W.faults sink.old) (W.faults sink.new) page.old page.new
        (sessions_text space.now told.now) result }
{
    'sessions: for place in 0..told.len() {
        print_session(sink, page, space, place as u32 + 1, told[place].as_slice())?;
    }
    Ok(())
}

/// Prints a session: `session S` with its number, and a line for each reply.
pub(crate) fn print_session<W: Sink>(
    sink: &mut W,
    page: &mut Page,
    space: &Space,
    number: u32,
    replies: &[Reply],
) -> Result<(), WriteFault>
    requires { All (IsPrintable space.now) replies.now }
    ensures { Prints (W.taken sink.old) (W.taken sink.new) (W.faults sink.old) (W.faults sink.new) page.old page.new
        (session_text space.now number replies.now) result }
{
    print_line(sink, page, &keyed_line(b"session ", u64::from(number)))?;
    print_replies(sink, page, space, replies)
}

/// Prints a line for each reply.
fn print_replies<W: Sink>(
    sink: &mut W,
    page: &mut Page,
    space: &Space,
    replies: &[Reply],
) -> Result<(), WriteFault>
    requires { All (IsPrintable space.now) replies.now }
    ensures { Prints (W.taken sink.old) (W.taken sink.new) (W.faults sink.old) (W.faults sink.new) page.old page.new
        (reply_lines space.now replies.now) result }
{
    'replies: for reply in replies {
        print_line(sink, page, &reply_line(space, reply))?;
    }
    Ok(())
}

/// The line of a reply.
fn reply_line(space: &Space, reply: &Reply) -> Line
    requires { IsPrintable space.now reply.now }
    ensures { result ≡ reply_text space.now reply.now }
{
    let mut line = Line::new();
    session_desk::reply_line(space, reply, &mut line);
    line
}
