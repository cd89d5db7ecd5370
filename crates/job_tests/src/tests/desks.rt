//! Sessions of a job in A_1 over words of two letters, on a desk over lists in memory; printed replies.
ghost use Rattle.session_desk.specs.Texts.{IsPrintable};

use crystal_cartan::{Cartan, Kind, Weight};
use crystal_streams::{Line, NoMemory};
use graph_history::PlainDesk;
use job_text::{Job, MOST_JOB_BYTES, read_job};
use session_desk::{Replies, Reply, reply_line, run_sessions};
use std::alloc::Global;
use tensor_words::{Factor, Space};

/// What the sessions of a job are told, one after another; `None` where the job is refused.
fn told(alloc: Global, text: &str) -> Result<Option<Vec<Replies>>, NoMemory> {
    if text.len() > MOST_JOB_BYTES {
        return Ok(None);
    }
    match read_job(alloc, text.as_bytes()) {
        Ok(Job { world, scripts, .. }) => {
            let mut desk = PlainDesk::new(alloc, world, 0)?;
            Ok(Some(run_sessions(alloc, &mut desk, &scripts)?))
        }
        Err(_) => Ok(None),
    }
}

/// The weight with the doubled coordinates 2 2.
fn weight_of_both() -> Option<Weight> {
    let zero = Weight::zero(Cartan::new(Kind::A, 1).ok()?);
    if zero.coordinates() != 2 {
        return None;
    }
    Some(zero.put(1, 2).put(2, 2))
}

/// Whether the replies of all sessions are these.
fn are_told(told: &[Replies], expected: &[&[Reply]]) -> bool {
    told.len() == expected.len()
        && told
            .iter()
            .zip(expected)
            .all(|(replies, wanted)| replies.as_slice() == *wanted)
}

#[test]
fn sessions(rt: HostRuntime) -> Result<(), NoMemory> {
    let text = "crystal-job 2\ntype A 1\nspace v v\nstart 1 1\ncells 3\n\
        session\ndone\nfind 2 1\nf 1 2 1\nwt 2 1\neps 1 2 2\n\
        session\nadd 2 1\nfind 2 1\ndone\n\
        session\nadd 2 1\n\
        session\nadd 1 1\nlook f 1 1 1\nf 1 1 1\nlook f 1 1 1\ne 1 1 1\nphi 1 1 1\nf 1 1 2\n";
    let told = told(rt.alloc(), text)?.expect(&rt, "the job is accepted");
    let weight = weight_of_both().expect(&rt, "weights of A_1 have two coordinates");
    assert!(rt;
        are_told(
            told.as_slice(),
            &[
                &[
                    Reply::Done,
                    Reply::Absent,
                    Reply::Absent,
                    Reply::Weight(weight),
                    Reply::Number(2)
                ],
                &[Reply::New, Reply::There, Reply::More],
                &[Reply::Old],
                &[
                    Reply::New,
                    Reply::Undrawn,
                    Reply::Word(1),
                    Reply::Word(1),
                    Reply::Zero,
                    Reply::Number(2),
                    Reply::Full
                ],
            ]
        )
    );
    Ok(())
}

/// Whether a reply is printed so.
fn is_printed(space: &Space, reply: &Reply, text: &str) -> bool
    requires { IsPrintable space.now reply.now }
{
    let mut line = Line::new();
    reply_line(space, reply, &mut line);
    line.bytes() == text.as_bytes()
}

fn words() -> Option<Space> {
    let cartan = Cartan::new(Kind::A, 1).ok()?;
    Space::new(cartan, &[Factor::Vector, Factor::Vector]).ok()
}

#[test]
fn lines(rt: HostRuntime) {
    let space = words().expect(&rt, "A_1 has vectors");
    assert!(rt;
        is_printed(&space, &Reply::New, "new")
            && is_printed(&space, &Reply::Old, "old")
            && is_printed(&space, &Reply::There, "there")
            && is_printed(&space, &Reply::Absent, "absent")
            && is_printed(&space, &Reply::Undrawn, "open")
    );
    assert!(rt;
        is_printed(&space, &Reply::Zero, "zero")
            && is_printed(&space, &Reply::Full, "full")
            && is_printed(&space, &Reply::Number(40), "40")
            && is_printed(&space, &Reply::Done, "done")
            && is_printed(&space, &Reply::More, "more")
    );
    let word = space.word_of(2).expect(&rt, "there are four words");
    assert!(rt; is_printed(&space, &Reply::Word(2), "2 1"));
    assert!(rt; is_printed(&space, &Reply::Weight(space.weight(&word)), "1 1"));
}
