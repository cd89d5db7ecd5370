//! The key words of a job: the version that has each, how many words follow it, where its line may stand, and which
//! part follows.
ghost use Rattle.std.specs.Prelude.{◌≡◌, IfSome};
ghost use Rattle.job_text.specs.Rules.{HasIndices, command_rule, ask_rule, rule_of_key, rule_of, is_taken, is_count, part_place, is_part_between};

use JobPart::{Asks, Head, Opening, Session, Typed};
use Version::{One, Two};
use WordsBehind::{AtLeast, Exactly};

/// The version of a job, which its header tells.
#[derive(Clone, Copy, Debug, PartialEq, Eq)]
pub enum Version {
    One,
    Two,
}

/// What the first word of a line makes the line.
#[derive(Clone, Copy, Debug, PartialEq, Eq)]
pub(crate) enum Key {
    Typing,
    Order,
    Shape,
    Space,
    Start,
    Cells,
    Session,
    Add,
    Find,
    Wt,
    Lower,
    Raise,
    Look,
    Eps,
    Phi,
    Done,
    Demazure,
    Tops,
    Reflect,
}

/// The parts of a job, in their order.
#[derive(Clone, Copy, Debug, PartialEq, Eq)]
pub enum JobPart {
    Opening,
    Typed,
    Head,
    Session,
    Asks,
}

/// How many words follow a key word.
#[derive(Clone, Copy, Debug, PartialEq, Eq)]
pub(crate) enum WordsBehind {
    Exactly(u32),
    AtLeast(u32),
}

/// The rule of a key word: the first version that has it, how many words follow it, the first and the last part in
/// which its line may stand, and the part behind that line.
#[derive(Clone, Copy, Debug, PartialEq, Eq)]
pub(crate) struct KeyRule {
    pub key: Key,
    pub since: Version,
    pub count: WordsBehind,
    pub first: JobPart,
    pub last: JobPart,
    pub next: JobPart,
}

/// The rule of a key word of this version.
#[tactic(auto, unfolding(crate::specs::Rules::rule_of))]
pub(crate) fn rule_of(version: Version, word: &[u8]) -> Option<KeyRule>
    ensures rule { result ≡ rule_of version word.now }
    ensures indices { IfSome result HasIndices }
{
    let rule = rule_of_key(word)?;
    if !is_taken(rule.since, version) {
        return None;
    }
    Some(rule)
}

/// Whether a job of this version has the key words that came with the version `since`.
fn is_taken(since: Version, version: Version) -> bool
    ensures { result ≡ is_taken since version }
{
    match (since, version) {
        (Version::Two, Version::One) => false,
        _ => true,
    }
}

/// The rule of a key word, whatever the version.
#[tactic(auto, unfolding(crate::specs::Rules::rule_of_key, crate::specs::Rules::table))]
fn rule_of_key(word: &[u8]) -> Option<KeyRule>
    ensures rule { result ≡ rule_of_key word.now }
    ensures indices { IfSome result HasIndices }
{
    Some(match word {
        b"type" => key_rule(Key::Typing, One, Exactly(2), Opening, Opening, Typed),
        b"order" => key_rule(Key::Order, Two, Exactly(1), Typed, Typed, Typed),
        b"shape" => key_rule(Key::Shape, One, AtLeast(1), Typed, Typed, Head),
        b"space" => key_rule(Key::Space, One, AtLeast(1), Typed, Typed, Head),
        b"start" => key_rule(Key::Start, One, AtLeast(1), Head, Head, Head),
        b"cells" => key_rule(Key::Cells, One, Exactly(1), Head, Head, Head),
        b"session" => key_rule(Key::Session, One, Exactly(0), Head, Session, Session),
        b"add" => command_rule(Key::Add, AtLeast(1)),
        b"find" => command_rule(Key::Find, AtLeast(1)),
        b"wt" => command_rule(Key::Wt, AtLeast(1)),
        b"f" => command_rule(Key::Lower, AtLeast(2)),
        b"e" => command_rule(Key::Raise, AtLeast(2)),
        b"eps" => command_rule(Key::Eps, AtLeast(2)),
        b"phi" => command_rule(Key::Phi, AtLeast(2)),
        b"look" => command_rule(Key::Look, AtLeast(3)),
        b"done" => key_rule(Key::Done, Two, Exactly(0), Session, Session, Session),
        b"demazure" => ask_rule(Key::Demazure, AtLeast(1)),
        b"tops" => ask_rule(Key::Tops, AtLeast(1)),
        b"reflect" => ask_rule(Key::Reflect, Exactly(1)),
        _ => return None,
    })
}

/// The rule of a command that every version has.
fn command_rule(key: Key, count: WordsBehind) -> KeyRule
    ensures { result ≡ command_rule key count }
{
    key_rule(key, One, count, Session, Session, Session)
}

/// The rule of an ask.
fn ask_rule(key: Key, count: WordsBehind) -> KeyRule
    ensures { result ≡ ask_rule key count }
{
    key_rule(key, One, count, Head, Asks, Asks)
}

fn key_rule(
    key: Key,
    since: Version,
    count: WordsBehind,
    first: JobPart,
    last: JobPart,
    next: JobPart,
) -> KeyRule
    ensures { result ≡ record { key = key; since = since; count = count; first = first; last = last; next = next } }
{
    KeyRule {
        key,
        since,
        count,
        first,
        last,
        next,
    }
}

/// Whether so many words may follow.
pub(crate) fn is_count(wanted: WordsBehind, count: usize) -> bool
    ensures { result ≡ is_count wanted count }
{
    match wanted {
        WordsBehind::Exactly(number) => count == number as usize,
        WordsBehind::AtLeast(number) => number as usize <= count,
    }
}

/// The place of a part in the order of parts.
fn part_place(part: JobPart) -> u8
    ensures { result ≡ part_place part }
{
    match part {
        Opening => 0,
        Typed => 1,
        Head => 2,
        Session => 3,
        Asks => 4,
    }
}

/// Whether a part is one of those from the first to the last.
pub(crate) fn is_part_between(first: JobPart, last: JobPart, part: JobPart) -> bool
    ensures { result ≡ is_part_between first last part }
{
    part_place(first) <= part_place(part) && part_place(part) <= part_place(last)
}
