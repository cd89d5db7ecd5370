//! The commands of a script, one by one.
ghost use Rattle.std.specs.Prelude.{◌≡◌, ◌<◌, Contains};
ghost use Rattle.crystal_cartan.specs.Types.{HasIndex};
ghost use Rattle.tensor_words.specs.Spaces.{size};
ghost use Rattle.tensor_words.specs.Operators.{IsArrow, op};
ghost use Rattle.graph_history.specs.History.{state_of, HasVertex};
ghost use Rattle.job_text.specs.declared.commands.Command.TheVariants as asked;
ghost use Rattle.session_desk.specs.Replies.{first, on_look, on_move, added_reply, found_reply, debts_reply};
ghost use Rattle.session_desk.specs.Sessions.{IsAsked, Replied, IsAnswered};

use crate::reply::Reply;
use crate::words::{eps_reply, phi_reply, weight_reply};
use crystal_cartan::Arrow;
use graph_history::{Added, Desk, Draw, Look};
use job_text::Command;

/// Answers a command.
pub(crate) fn answer<D: Desk>(desk: &mut D, command: &Command) -> Reply
    requires asked { IsAsked (D.standing desk.old).world command.now }
    requires room { 0 < (D.standing desk.old).room }
    ensures { IsAnswered (D.standing desk.old) (D.standing desk.new) 1 command.now result }
{
    match *command {
        Command::Add(code) => add(desk, code),
        Command::Find(code) => find(desk, code),
        Command::Look(arrow, code) => look(desk, arrow, code),
        Command::Move(arrow, code) => follow(desk, arrow, code),
        Command::Wt(code) => weigh(desk, code),
        Command::Eps(index, code) => count_raises(desk, index, code),
        Command::Phi(index, code) => count_lowers(desk, index, code),
        Command::Done => ask_debts(desk),
    }
}

fn add<D: Desk>(desk: &mut D, code: u64) -> Reply
    requires root { Contains (D.standing desk.old).world.roots code }
    requires room { 0 < (D.standing desk.old).room }
    ensures { IsAnswered (D.standing desk.old) (D.standing desk.new) 1 (asked.Add code) result }
{
    let added = desk.add(code);
    reply_to_add(added)
}

fn reply_to_add(added: Added) -> Reply
    ensures { result ≡ added_reply added }
{
    match added {
        Added::New { .. } => Reply::New,
        Added::Old { .. } => Reply::Old,
        Added::Full => Reply::Full,
    }
}

fn find<D: Desk>(desk: &mut D, code: u64) -> Reply
    requires { code < size (D.standing desk.old).world.space }
    ensures { IsAnswered (D.standing desk.old) (D.standing desk.new) 0 (asked.Find code) result }
{
    let found = desk.find(code);
    reply_to_find(found)
}

fn reply_to_find(found: Option<u32>) -> Reply
    ensures { result ≡ found_reply found }
{
    match found {
        Some(_) => Reply::There,
        None => Reply::Absent,
    }
}

fn look<D: Desk>(desk: &mut D, arrow: Arrow, code: u64) -> Reply
    requires arrow { IsArrow (D.standing desk.old).world.space arrow }
    requires code { code < size (D.standing desk.old).world.space }
    ensures { IsAnswered (D.standing desk.old) (D.standing desk.new) 0 (asked.Look arrow code) result }
{
    match desk.find(code) {
        None => Reply::Absent,
        Some(cell) => look_from(desk, cell, arrow, code),
    }
}

/// Answers a look at an arrow of the vertex of a cell.
fn look_from<D: Desk>(desk: &mut D, cell: u32, arrow: Arrow, code: u64) -> Reply
    requires there { HasVertex (state_of (D.standing desk.old).front) cell code }
    requires arrow { IsArrow (D.standing desk.old).world.space arrow }
    requires code { code < size (D.standing desk.old).world.space }
    ensures { Replied (D.standing desk.old) (D.standing desk.new) 0 (first (on_look (op (D.standing desk.old).world.space arrow code) cell arrow)) result }
{
    match desk.look(cell, arrow) {
        Look::Blank => Reply::Undrawn,
        Look::Zero => Reply::Zero,
        Look::To { cell: to } => Reply::Word(desk.word(to)),
    }
}

fn follow<D: Desk>(desk: &mut D, arrow: Arrow, code: u64) -> Reply
    requires arrow { IsArrow (D.standing desk.old).world.space arrow }
    requires code { code < size (D.standing desk.old).world.space }
    requires room { 0 < (D.standing desk.old).room }
    ensures { IsAnswered (D.standing desk.old) (D.standing desk.new) 1 (asked.Move arrow code) result }
{
    match desk.find(code) {
        None => Reply::Absent,
        Some(cell) => follow_from(desk, cell, arrow, code),
    }
}

/// Answers a move along an arrow of the vertex of a cell.
fn follow_from<D: Desk>(desk: &mut D, cell: u32, arrow: Arrow, code: u64) -> Reply
    requires there { HasVertex (state_of (D.standing desk.old).front) cell code }
    requires arrow { IsArrow (D.standing desk.old).world.space arrow }
    requires code { code < size (D.standing desk.old).world.space }
    requires room { 0 < (D.standing desk.old).room }
    ensures { Replied (D.standing desk.old) (D.standing desk.new) 1 (first (on_move (op (D.standing desk.old).world.space arrow code) cell arrow)) result }
{
    match desk.draw(cell, arrow) {
        Draw::Full => Reply::Full,
        Draw::Zero => Reply::Zero,
        Draw::To { cell: to } => Reply::Word(desk.word(to)),
    }
}

fn weigh<D: Desk>(desk: &D, code: u64) -> Reply
    requires { code < size (D.standing desk.now).world.space }
    ensures { IsAnswered (D.standing desk.now) (D.standing desk.now) 0 (asked.Wt code) result }
{
    let space = desk.space();
    weight_reply(space, code)
}

fn count_raises<D: Desk>(desk: &D, index: u8, code: u64) -> Reply
    requires index { HasIndex (D.standing desk.now).world.space.cartan index }
    requires code { code < size (D.standing desk.now).world.space }
    ensures { IsAnswered (D.standing desk.now) (D.standing desk.now) 0 (asked.Eps index code) result }
{
    let space = desk.space();
    eps_reply(space, index, code)
}

fn count_lowers<D: Desk>(desk: &D, index: u8, code: u64) -> Reply
    requires index { HasIndex (D.standing desk.now).world.space.cartan index }
    requires code { code < size (D.standing desk.now).world.space }
    ensures { IsAnswered (D.standing desk.now) (D.standing desk.now) 0 (asked.Phi index code) result }
{
    let space = desk.space();
    phi_reply(space, index, code)
}

fn ask_debts<D: Desk>(desk: &mut D) -> Reply
    ensures { IsAnswered (D.standing desk.old) (D.standing desk.new) 0 asked.Done result }
{
    let debts = desk.tally();
    reply_to_debts(debts)
}

fn reply_to_debts(debts: u64) -> Reply
    ensures { result ≡ debts_reply debts }
{
    if debts == 0 { Reply::Done } else { Reply::More }
}
