//! What is read of a job that has every key word. Refused jobs and limits stand as rows and tables under tests/.
use crystal_cartan::{Arrow, Kind};
use job_text::{Ask, Command, Job, MOST_JOB_BYTES, read_job};
use sample_jobs::{sample_job, sample_text};
use std::alloc::Global;
use tensor_words::Codes;

fn job(alloc: Global, text: &[u8]) -> Option<Job> {
    if text.len() > MOST_JOB_BYTES {
        return None;
    }
    read_job(alloc, text).ok()
}

fn has_codes(codes: &Codes, wanted: &[u64]) -> bool {
    codes.as_slice() == wanted
}

fn command(job: &Job, session: usize, place: usize) -> Option<Command> {
    if session >= job.scripts.len() {
        return None;
    }
    let script = job.scripts.at(session);
    if place >= script.len() {
        return None;
    }
    Some(*script.at(place))
}

fn ask(job: &Job, place: usize) -> Option<&Ask> {
    if place >= job.asks.len() {
        return None;
    }
    Some(job.asks.at(place))
}

fn demazure_index(ask: Option<&Ask>, place: usize) -> Option<u8> {
    match ask {
        Some(Ask::Demazure(indices)) if place < indices.len() => Some(*indices.at(place)),
        _ => None,
    }
}

fn tops_row(ask: Option<&Ask>, place: u8) -> Option<u8> {
    match ask {
        Some(Ask::Tops(shape)) if 1 <= place && place <= shape.rows() => Some(shape.row(place)),
        _ => None,
    }
}

fn reflected(ask: Option<&Ask>) -> Option<u8> {
    match ask {
        Some(Ask::Reflect(index)) => Some(*index),
        _ => None,
    }
}

fn down(index: u8) -> Arrow {
    Arrow { down: true, index }
}

fn up(index: u8) -> Arrow {
    Arrow { down: false, index }
}

const EVERY_WORD: &[u8] = b"crystal-job 2
# every key word
type B 2
order standard
space v v
start 1 1
  start 2  0
cells 000300
session
add -1 -1
find 1 2
wt 01 1
f 1 1 1
e 02 1 2
session
look f 1 1 1
look e 2 1 1
eps 1 2 2
phi 2 2 2
done

demazure 1 2 1
tops 1 1
reflect 2
";

#[test]
fn every_key_word(rt: HostRuntime) {
    let job = job(rt.alloc(), EVERY_WORD).expect(&rt, "the job is taken");
    assert_eq!(rt; job.world.space().cartan().kind(), Kind::B);
    assert_eq!(rt; job.world.space().size(), 25);
    assert_eq!(rt; job.world.cells(), 300);
    assert!(rt; has_codes(&job.starts, &[0, 7]));
    assert!(rt; has_codes(job.world.roots(), &[0, 7, 24]));
    for (session, place, wanted) in [
        (0, 0, Command::Add(24)),
        (0, 1, Command::Find(1)),
        (0, 2, Command::Wt(0)),
        (0, 3, Command::Move(down(1), 0)),
        (0, 4, Command::Move(up(2), 1)),
        (1, 0, Command::Look(down(1), 0)),
        (1, 1, Command::Look(up(2), 0)),
        (1, 2, Command::Eps(1, 6)),
        (1, 3, Command::Phi(2, 6)),
        (1, 4, Command::Done),
    ] {
        assert_eq!(rt; command(&job, session, place), Some(wanted));
    }
    assert_eq!(rt; command(&job, 0, 5), None);
    assert_eq!(rt; command(&job, 1, 5), None);
    assert_eq!(rt; job.scripts.len(), 2);
    for (place, wanted) in [(0, Some(1)), (1, Some(2)), (2, Some(1)), (3, None)] {
        assert_eq!(rt; demazure_index(ask(&job, 0), place), wanted);
    }
    for (place, wanted) in [(1, Some(1)), (2, Some(1)), (3, None)] {
        assert_eq!(rt; tops_row(ask(&job, 1), place), wanted);
    }
    assert_eq!(rt; reflected(ask(&job, 2)), Some(2));
    assert_eq!(rt; job.asks.len(), 3);
}

/// The value of bytes as digits in base 31, modulo 2^32.
fn checksum(bytes: &[u8]) -> u32 {
    let mut value = 0u32;
    for byte in bytes {
        value = value.wrapping_mul(31).wrapping_add(u32::from(*byte));
    }
    value
}

// Numbers, lengths and checksums are what tests/peers/sample_peer.py prints.
#[test]
fn samples_beside_another_model(rt: HostRuntime) {
    for (number, bytes, sum) in [
        (0, 6617, 3539380902),
        (1, 4590, 2742263466),
        (2, 7576, 2809835908),
        (3, 5487, 1756142449),
        (4, 6697, 3012647378),
        (5, 4588, 1351899565),
        (6, 7807, 1204688371),
        (7, 5373, 2686471527),
        (4294967295, 5591, 1161439368),
    ] {
        let text = sample_text(rt.alloc(), number).expect(&rt, "there is memory");
        assert_eq!(rt; text.len(), bytes);
        assert_eq!(rt; checksum(text.as_slice()), sum);
        let job = sample_job(rt.alloc(), number).expect(&rt, "there is memory");
        assert_eq!(rt; job.scripts.len(), 4);
    }
}

/// How the sample with the number 2 begins: its first number is 14170967488582549417.
const SAMPLE_2: &[u8] = b"crystal-job 1
type C 4
shape 4 3 2 1
cells 200000
session
find 4 3 2 1 3 2 1 2 1 1
";

#[test]
fn first_lines_of_a_sample(rt: HostRuntime) {
    let text = sample_text(rt.alloc(), 2).expect(&rt, "there is memory");
    assert!(rt; text.as_slice().starts_with(SAMPLE_2));
    let job = sample_job(rt.alloc(), 2).expect(&rt, "there is memory");
    assert_eq!(rt; job.world.cells(), 200000);
    assert!(rt; has_codes(&job.starts, &[438374464]));
    assert_eq!(rt; command(&job, 0, 0), Some(Command::Find(438374464)));
    assert_eq!(rt; command(&job, 3, 63).is_some(), true);
    assert_eq!(rt; command(&job, 3, 64), None);
}
