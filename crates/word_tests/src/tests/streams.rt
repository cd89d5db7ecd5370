//! Streams that fail where they are told, whole reads and writes, and the adapters of the edge.
ghost use Rattle.std.specs.Prelude.{◌<◌, length};

use crystal_streams::{
    Failed, InputAdapter, Line, MemorySink, MemorySource, OutputAdapter, ReadEnd, Sink, Source,
    WriteFault, read_all, write_all,
};
use std::alloc::{AllocError, Global};
use std::io;
use std::io::{ErrorKind, Read, Write};
use std::test::Fail;

// Gives an `x` a read, so many times, and fails from then on.
#[derive(Drop)]
struct Crosses {
    left: u8,
}

impl Read for Crosses {
    fn read(&mut self, buf: &mut [u8]) -> io::Result<usize> {
        if self.left == 0 || buf.is_empty() {
            return Err(io::Error::from(ErrorKind::Other));
        }
        self.left -= 1;
        buf[0] = b'x';
        Ok(1)
    }
}

// Takes two bytes a write, so many bytes in all; its flush fails once it is full.
#[derive(Drop)]
struct Cup {
    room: usize,
    refuses: bool,
    flushes: bool,
}

impl Write for Cup {
    fn write(&mut self, buf: &[u8]) -> io::Result<usize> {
        if self.room == 0 && self.refuses {
            return Err(io::Error::from(ErrorKind::Other));
        }
        let count = buf.len().min(2).min(self.room);
        self.room -= count;
        Ok(count)
    }

    fn flush(&mut self) -> io::Result<()> {
        if self.room == 0 && !self.flushes {
            return Err(io::Error::from(ErrorKind::Other));
        }
        Ok(())
    }
}

/// One read, of which nothing is known.
fn read_into(source: &mut MemorySource, into: &mut [u8]) -> Result<usize, Failed>
    requires { 0 < length into.old }
{
    source.read(into)
}

/// One write, of which nothing is known.
fn write_some(sink: &mut MemorySink, bytes: &[u8]) -> Result<usize, Failed>
    requires { 0 < length bytes.now }
{
    sink.write(bytes)
}

#[test]
fn a_memory_source_fails_where_it_is_told(rt: HostRuntime) -> Result<(), Fail> {
    let bytes = b"abcde".to_vec(rt.alloc())?;
    let fails = [2].to_vec(rt.alloc())?;
    let mut source = MemorySource::new(bytes, fails, 2);
    let mut into = [b'-'; 4];
    let first = read_into(&mut source, &mut into);
    let begun = into;
    let second = read_into(&mut source, &mut into);
    let third = read_into(&mut source, &mut into[3..]);
    let fourth = read_into(&mut source, &mut into);
    let ended = into;
    let fifth = read_into(&mut source, &mut into);
    assert_eq!(rt;
        [first, second, third, fourth, fifth],
        [Ok(2), Err(Failed), Ok(1), Ok(2), Ok(0)]
    );
    assert_eq!(rt; [begun, ended], [*b"ab--", *b"de-c"]);
    Ok(())
}

#[test]
fn a_memory_sink_holds_what_it_took(rt: HostRuntime) -> Result<(), Fail> {
    let fails = [2].to_vec(rt.alloc())?;
    let mut sink = MemorySink::new(rt.alloc(), 5, fails, 3)?;
    let first = write_some(&mut sink, b"abcd");
    let second = write_some(&mut sink, b"d");
    let third = write_some(&mut sink, b"def");
    let fourth = write_some(&mut sink, b"f");
    assert_eq!(rt;
        [first, second, third, fourth],
        [Ok(3), Err(Failed), Ok(2), Err(Failed)]
    );
    assert_eq!(rt; sink.bytes(), b"abcde".as_slice());
    Ok(())
}

#[test]
fn whole_writes(rt: HostRuntime) -> Result<(), Fail> {
    let cases: [(usize, u64, Result<(), WriteFault>, &[u8]); 3] = [
        (9, 9, Ok(()), b"abcdefgh"),
        (9, 2, Err(WriteFault), b"abc"),
        (4, 9, Err(WriteFault), b"abcd"),
    ];
    for (room, failing, answer, taken) in cases {
        let fails = [failing].to_vec(rt.alloc())?;
        let mut sink = MemorySink::new(rt.alloc(), room, fails, 3)?;
        assert_eq!(rt;
            write_all(&mut sink, b"abcdefgh"),
            answer,
            "room {room}, {failing}"
        );
        assert_eq!(rt; sink.bytes(), taken, "room {room}, {failing}");
    }
    Ok(())
}

fn many(alloc: Global, count: usize) -> Result<Vec<u8>, AllocError> {
    Vec::from_elem(alloc, b'z', count)
}

#[test]
fn whole_reads(rt: HostRuntime) -> Result<(), Fail> {
    let cases: [(usize, u64, Result<usize, ReadEnd>); 4] = [
        (20000, 9, Ok(20000)),
        (19999, 9, Err(ReadEnd::TooLong)),
        (20000, 3, Err(ReadEnd::ReadFault)),
        (30000, 5, Err(ReadEnd::ReadFault)),
    ];
    for (limit, failing, answer) in cases {
        let bytes = many(rt.alloc(), 20000)?;
        let fails = [failing].to_vec(rt.alloc())?;
        let mut source = MemorySource::new(bytes, fails, 6000);
        let read = read_all(rt.alloc(), &mut source, limit);
        assert_eq!(rt;
            read.map(|bytes| bytes.len()),
            answer,
            "limit {limit}, {failing}"
        );
    }
    Ok(())
}

#[test]
fn the_edge_counts_failures(rt: HostRuntime) -> Result<(), Fail> {
    let mut input = InputAdapter::new(Crosses { left: 1 });
    let mut into = [0u8; 3];
    assert_eq!(rt; input.read(&mut into), Ok(1));
    assert_eq!(rt; into[0], b'x');
    let read = read_all(rt.alloc(), &mut input, 9);
    assert_eq!(rt; read.map(|bytes| bytes.len()), Err(ReadEnd::ReadFault));
    for (room, refuses, flushes, answer) in [
        (7, false, true, Ok(())),
        (5, true, true, Ok(())),
        (4, true, true, Err(WriteFault)),
        (4, false, true, Err(WriteFault)),
        (5, true, false, Err(WriteFault)),
    ] {
        let mut output = OutputAdapter::new(Cup {
            room,
            refuses,
            flushes,
        });
        assert_eq!(rt; write_all(&mut output, b"abcde"), answer, "room {room}");
    }
    Ok(())
}

// Gives so many bytes, as many a read as are asked for.
#[derive(Drop)]
struct Spring {
    left: usize,
}

impl Read for Spring {
    fn read(&mut self, buf: &mut [u8]) -> io::Result<usize> {
        let count = buf.len().min(self.left);
        self.left -= count;
        Ok(count)
    }
}

// Takes so many bytes, all that it is given at once, and refuses further ones.
#[derive(Drop)]
struct Barrel {
    room: usize,
}

impl Write for Barrel {
    fn write(&mut self, buf: &[u8]) -> io::Result<usize> {
        if self.room == 0 {
            return Err(io::Error::from(ErrorKind::Other));
        }
        let count = buf.len().min(self.room);
        self.room -= count;
        Ok(count)
    }

    fn flush(&mut self) -> io::Result<()> {
        Ok(())
    }
}

#[test]
fn the_edge_loses_no_byte_and_adds_none(rt: HostRuntime) -> Result<(), Fail> {
    let mut input = InputAdapter::new(Spring { left: 10000 });
    let read = read_all(rt.alloc(), &mut input, 20000);
    assert_eq!(rt; read.map(|bytes| bytes.len()), Ok(10000));
    let bytes = many(rt.alloc(), 10000)?;
    for (room, answer) in [(10000, Ok(())), (9999, Err(WriteFault))] {
        let mut output = OutputAdapter::new(Barrel { room });
        assert_eq!(rt; write_all(&mut output, &bytes), answer, "room {room}");
    }
    Ok(())
}

#[test]
fn lines_of_text_and_numbers(rt: HostRuntime) {
    for (value, text) in [
        (0, "0"),
        (9, "9"),
        (10, "10"),
        (-1, "-1"),
        (i64::MIN, "-9223372036854775808"),
        (i64::MAX, "9223372036854775807"),
    ] {
        let mut line = Line::new();
        line.number(value);
        assert_eq!(rt; line.bytes(), text.as_bytes());
    }
    let mut line = Line::new();
    line.text(b"code ");
    line.number(17);
    line.text(b"\n");
    assert_eq!(rt; line.bytes(), b"code 17\n".as_slice());
    assert_eq!(rt; line.room(), 504);
}
