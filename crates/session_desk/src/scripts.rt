//! Scripts on a desk.
ghost use Rattle.std.specs.Prelude.{◌≡◌, ◌+◌, ◌≤◌, length, All, vec_len, vec_capacity};
ghost use Rattle.session_desk.specs.Sessions.{IsAsked, RanScript};

use crate::commands::answer;
use crate::reply::Reply;
use graph_history::Desk;
use job_text::Script;

/// Runs a script on a desk, and appends one reply for each command. Takes no memory.
pub fn run_script<D: Desk>(desk: &mut D, script: &Script, replies: &mut Vec<Reply>)
    requires asked { All (IsAsked (D.standing desk.old).world) script.now }
    requires room { length script.now ≤ (D.standing desk.old).room }
    requires spare { vec_len replies.old + length script.now ≤ vec_capacity replies.old }
    ensures ran { RanScript (D.standing desk.old) (D.standing desk.new) script.now replies.old.items replies.new.items }
    ensures count { vec_len replies.new ≡ vec_len replies.old + length script.now }
    ensures capacity { vec_capacity replies.new ≡ vec_capacity replies.old }
{
    let _space = desk.space();
    'commands: for place in 0..script.len() {
        let reply = answer(desk, script.at(place));
        replies.push_reserved(reply);
    }
}
