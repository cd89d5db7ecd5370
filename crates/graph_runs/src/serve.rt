//! Scripts at seats, and the starts.
ghost use Rattle.std.specs.Prelude.{◌≡◌, ◌≤◌, All, Contains, IfOk, length, map};
ghost use Rattle.graph_rule.specs.Parting.{first_view};
ghost use Rattle.graph_rule.specs.Values.{Belongs};
ghost use Rattle.job_text.specs.declared.commands.Command.TheVariants.{Add as AddCommand};
ghost use Rattle.session_desk.specs.Sessions.{IsAsked};
ghost use Rattle.graph_runs.specs.Serving.{IsServed, IsBegun};

use crystal_streams::NoMemory;
use graph_rule::{Graph, Seat};
use job_text::{Command, Script};
use session_desk::{Replies, run_script};
use shared_desk::SharedDesk;
use std::alloc::Global;
use tensor_words::Codes;

/// What a script did at a seat: the seat, the cells that it put in, which are unpaid, and the replies.
#[derive(Drop)]
pub(crate) struct Served {
    pub(crate) seat: Seat,
    pub(crate) cells: Vec<u32>,
    pub(crate) replies: Replies,
}

/// Runs a script at a seat. All memory is taken before its first command.
pub(crate) fn serve(
    alloc: Global,
    graph: &Graph,
    seat: Seat,
    script: &Script,
) -> Result<Served, NoMemory>
    requires belongs { Belongs seat graph.now }
    requires pledge { seat.view.dues.pledge ≡ 0 }
    requires asked { All (IsAsked graph.now.world) script.now }
    ensures { IfOk result (λ served. IsServed graph.now.world script.now seat served.seat served.cells.items served.replies) }
{
    let mut replies = Vec::with_capacity(alloc, script.len())?;
    let Ok(mut desk) = SharedDesk::new(alloc, graph, seat, script.len()) else {
        return Err(NoMemory);
    };
    run_script(&mut desk, script, &mut replies);
    let (seat, cells) = desk.into_parts();
    Ok(Served {
        seat,
        cells,
        replies: Replies::of(replies),
    })
}

/// Puts the starts in at the first seat of a graph, as by `add` commands.
pub(crate) fn begin(
    alloc: Global,
    graph: &Graph,
    seat: Seat,
    starts: &Codes,
) -> Result<Served, NoMemory>
    requires table { seat.table ≡ graph.now.table }
    requires first { seat.view ≡ first_view graph.now.world }
    requires rooted { All (Contains graph.now.world.roots) starts.now }
    ensures { IfOk result (λ served. IsBegun graph.now starts.now served.seat served.cells.items) }
{
    let script = adds(alloc, starts)?;
    match serve(alloc, graph, seat, &script) {
        Ok(served) => Ok(served),
        Err(NoMemory) => Err(NoMemory),
    }
}

/// The script that puts these codes in.
fn adds(alloc: Global, starts: &Codes) -> Result<Script, NoMemory>
    ensures { IfOk result (λ script. script ≡ map AddCommand starts.now) }
{
    let mut list = Vec::new(alloc);
    'codes: for code in starts.as_slice() {
        list.push(Command::Add(*code))?;
    }
    Ok(Script::of(list))
}
