//! A printed answer of more than a page, and writes that fail. Short answers stand as rows under tests/.
ghost use Rattle.std.specs.Prelude.{◌<◌, All, IfOk, IfSome, IsTrue};
ghost use Rattle.answer_text.specs.Answers.{IsPrintableAnswer};

use answer_text::{Answer, Page, print_answer};
use crystal_cartan::{Cartan, Kind};
use crystal_streams::MemorySink;
use std::alloc::{AllocError, Global};
use std::test::Fail;
use tableau_reading::Shape;
use tensor_words::Codes;

/// The bytes that the sinks have room for.
const ROOM: usize = 1 << 20;

fn are_codes(size: u64, codes: &[u64]) -> bool
    ensures { IsTrue result → All (λ code. code < size) codes.now }
{
    codes.iter().all(|code| *code < size)
}

/// The number of tableaux of the long text.
const LONG: u32 = 120_000;

/// So many tableaux of one box in A_1, its two by turns.
fn long_answer(alloc: Global) -> Result<Option<Answer>, Fail>
    ensures { IfOk result (λ answer. IfSome answer IsPrintableAnswer) }
{
    let shape = Shape::new(&[1], Cartan::new(Kind::A, 1)?)?;
    let codes: Vec<u64> = (0..LONG).map(|k| u64::from(k % 2)).collect(alloc)?;
    if !are_codes(shape.space().size(), codes.as_slice()) {
        return Ok(None);
    }
    Ok(Some(Answer::Tableaux {
        shape,
        codes: Some(Codes::of(codes)),
    }))
}

/// Their text, of more bytes than three pages have.
fn long_text(alloc: Global) -> Result<String, AllocError> {
    let mut text = format!(in alloc; "census A 1\ntableaux {LONG}\n")?;
    for k in 0..LONG {
        text.push_str(if k % 2 == 0 { "1\n" } else { "2\n" })?;
    }
    text.push_str("end\n")?;
    Ok(text)
}

/// Prints an answer to a sink that takes at most 40,000 bytes at once and whose writes with these numbers fail.
fn print_long(alloc: Global, answer: &Answer, fails: Vec<u64>) -> Result<(bool, MemorySink), Fail>
    requires { IsPrintableAnswer answer.now }
{
    let mut sink = MemorySink::new(alloc, ROOM, fails, 40_000)?;
    let page = Page::new(alloc)?;
    let printed = print_answer(&mut sink, page, answer).is_ok();
    Ok((printed, sink))
}

#[test]
fn more_than_a_page(rt: HostRuntime) -> Result<(), Fail> {
    let alloc = rt.alloc();
    let answer = long_answer(alloc)?.expect(&rt, "the codes are those of boxes");
    let text = long_text(alloc)?;
    let (whole, sink) = print_long(alloc, &answer, Vec::new(alloc))?;
    assert!(rt; whole);
    assert_eq!(rt; sink.bytes(), text.as_bytes());
    let mut last = 0;
    for number in 1..=8 {
        let (whole, sink) = print_long(alloc, &answer, vec![in alloc; number]?)?;
        assert!(rt; !whole);
        assert!(rt; text.as_bytes().starts_with(sink.bytes()));
        assert!(rt; number == 1 || last < sink.bytes().len());
        last = sink.bytes().len();
    }
    Ok(())
}
