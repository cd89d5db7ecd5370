//! Times adds into the shared table, and growth on it.
//!
//! Usage: graph_bench adds SEATS CODES. Codes of roots are added to a graph from one seat, or from four on threads of their
//! own: SEATS is 0 (nothing is added), 1 or 4, and CODES at most 1,048,576. The graph has as many cells as codes, so in the
//! end it is full. With `pairs` (or `no-pairs`, which adds nothing) in place of SEATS so many pairs of codes are put into a
//! wide graph with that capacity. Prints how many of the adds were new.
//!
//! Usage: graph_bench growth GROWERS < JOB. The graph of a job is grown from its least root by one grower, or by several on
//! threads of their own: GROWERS is 0 (the graph is made, and nothing is grown) to 16. Prints how that ended.
//!
//! Without arguments a thousand codes are added in each way, and a small crystal is grown by one grower and by four.
//!
//! It promises nothing but that it ends, and stands on table_calls and wide_graph for `add`, on job_text for jobs and on
//! crystal_growers for `grow`. Read `adds` and `growth` first.
#![tactic(auto)]

mod adds;
mod growth;
mod pairs;

use adds::{Seats, run_adds};
use crystal_streams::{InputAdapter, read_all};
use growth::growth_of_job;
use job_text::MOST_JOB_BYTES;
use pairs::run_pairs;
use std::alloc::Global;
use std::thread::Threads;
use std::{env, io};

/// The crystal of eight vertices in the cube of the vectors of A_2.
const SMALL: &[u8] = b"crystal-job 1
type A 2
space v v v
start 2 1 1
";

fn main(rt: HostRuntime) -> io::Result<()> {
    let mut arguments = env::args(&rt)?.skip(1);
    let Some(kind) = arguments.next() else {
        return small_run(&rt);
    };
    let Some(callers) = arguments.next() else {
        return print_usage(&rt);
    };
    if kind.as_str() == "adds" {
        let Some(codes) = arguments.next().and_then(|text| text.parse::<u32>().ok()) else {
            return print_usage(&rt);
        };
        return print_adds(&rt, callers.as_str(), codes);
    }
    if kind.as_str() != "growth" {
        return print_usage(&rt);
    }
    let Some(growers) = callers.parse::<u32>().ok().filter(|count| *count <= 16) else {
        return print_usage(&rt);
    };
    let Ok(bytes) = read_all(
        rt.alloc(),
        &mut InputAdapter::new(rt.stdin()),
        MOST_JOB_BYTES,
    ) else {
        return println!(rt; "no job");
    };
    println!(rt;
        "{}",
        growth_of_job(&rt, rt.alloc(), bytes.as_slice(), growers)
    )
}

fn print_usage<R: Print>(rt: &R) -> io::Result<()> {
    println!(rt;
        "usage: graph_bench adds (0 | 1 | 4 | pairs | no-pairs) CODES, or graph_bench growth GROWERS < JOB"
    )
}

fn print_adds<R: Threads + Sync + Print + Alloc<A = Global>>(
    rt: &R,
    seats: &str,
    codes: u32,
) -> io::Result<()> {
    match added(rt, rt.alloc(), seats, codes) {
        Some(fresh) => println!(rt; "new {fresh}"),
        None => println!(rt; "no memory, too many codes, or no such way to add them"),
    }
}

/// How many codes were new, by the word that says how they are added.
fn added<R: Threads + Sync>(rt: &R, alloc: Global, seats: &str, codes: u32) -> Option<usize> {
    match seats {
        "pairs" => run_pairs(alloc, true, codes),
        "no-pairs" => run_pairs(alloc, false, codes),
        _ => run_adds(rt, alloc, seats_of(seats)?, codes),
    }
}

fn seats_of(text: &str) -> Option<Seats> {
    match text {
        "0" => Some(Seats::None),
        "1" => Some(Seats::One),
        "4" => Some(Seats::Four),
        _ => None,
    }
}

fn small_run<R: Threads + Sync + Print + Alloc<A = Global>>(rt: &R) -> io::Result<()> {
    let one = run_adds(rt, rt.alloc(), Seats::One, 1000).unwrap_or(0);
    let four = run_adds(rt, rt.alloc(), Seats::Four, 1000).unwrap_or(0);
    let pairs = run_pairs(rt.alloc(), true, 1000).unwrap_or(0);
    println!(rt; "one {one}")?;
    println!(rt; "four {four}")?;
    println!(rt; "pairs {pairs}")?;
    println!(rt; "one {}", growth_of_job(rt, rt.alloc(), SMALL, 1))?;
    println!(rt; "four {}", growth_of_job(rt, rt.alloc(), SMALL, 4))
}
