//! Sessions one after another on a desk over lists in memory.
ghost use Rattle.std.specs.Prelude.{◌≡◌, ◌≢◌, ℕ, ◌+◌, ◌*◌, ◌<◌, ◌≤◌, ◌⊎◌, [], length, All, IfOk};
ghost use Rattle.graph_history.specs.History.{calls};
ghost use Rattle.session_desk.specs.Sessions.{IsAsked, AllRan, Continues, RanAlone};

use crate::reply::Reply;
use crate::scripts::run_script;
use crystal_streams::NoMemory;
use graph_history::{Desk, PlainDesk};
use job_text::{Script, Scripts};
use list_facts::Listed;
use std::alloc::Global;

/// The replies of one session, in order.
pub type Replies = Listed<Reply>;

/// Runs the scripts one after another on one desk, that of session s, counted from 1, under the caller number s. No
/// other caller has further events.
pub fn run_sessions(
    alloc: Global,
    desk: &mut PlainDesk,
    scripts: &Scripts,
) -> Result<Vec<Replies>, NoMemory>
    requires asked { All (All (IsAsked desk.old.world)) scripts.now }
    requires few { length scripts.now ≤ 16 }
    requires short { All (λ script. length script ≤ 4096) scripts.now }
    requires room { 4096 * length scripts.now ≤ desk.old.room }
    requires fresh { (n : ℕ) → 1 ≤ n → n ≤ length scripts.now → calls desk.old.front n ≡ [] }
    ensures world { desk.new.world ≡ desk.old.world }
    ensures begins { Continues desk.old.front desk.new.front }
    ensures others { (n : ℕ) → (n ≡ 0) ⊎ (length scripts.now < n) → calls desk.new.front n ≡ calls desk.old.front n }
    ensures ran { IfOk result (λ told. AllRan desk.old.world desk.new.front scripts.now told.items) }
{
    let mut told = Vec::with_capacity(alloc, scripts.len())?;
    let _space = desk.space();
    'sessions: for place in 0..scripts.len() {
        let replies = run_session(alloc, desk, place as u64 + 1, scripts.at(place))?;
        told.push_reserved(replies);
    }
    Ok(told)
}

/// Runs a script under a caller number that has no event yet.
fn run_session(
    alloc: Global,
    desk: &mut PlainDesk,
    caller: u64,
    script: &Script,
) -> Result<Replies, NoMemory>
    requires asked { All (IsAsked desk.old.world) script.now }
    requires room { length script.now ≤ desk.old.room }
    requires fresh { calls desk.old.front caller ≡ [] }
    ensures world { desk.new.world ≡ desk.old.world }
    ensures room { desk.old.room ≤ desk.new.room + length script.now }
    ensures begins { Continues desk.old.front desk.new.front }
    ensures others { (n : ℕ) → n ≢ caller → calls desk.new.front n ≡ calls desk.old.front n }
    ensures ran { IfOk result (λ told. RanAlone desk.old.world caller desk.new.front script.now told) }
{
    let mut list = Vec::with_capacity(alloc, script.len())?;
    desk.call_as(caller);
    run_script(desk, script, &mut list);
    Ok(Replies::of(list))
}
