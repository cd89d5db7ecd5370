//! What the lines of a job make of what is known.
ghost use Rattle.std.specs.Prelude.{◌≡◌, ◌==◌, ◌||◌, ◌<◌, ◌≤◌, true, Some, Ok, codes, bytes_eq, length, slice_index_or};
ghost use Rattle.tensor_words.specs.Codes.{code_of};
ghost use Rattle.tableau_reading.specs.Shapes.{shape_space};
ghost use Rattle.tableau_reading.specs.Readings.{top_word};
ghost use Rattle.text_pieces.specs.Pieces.{words};
ghost use Rattle.job_text.specs.declared.commands.Command.TheVariants as command;
ghost use Rattle.job_text.specs.declared.keys.Key.TheVariants.{Demazure};
ghost use Rattle.job_text.specs.declared.drafts.Stage.TheVariants.{Unread};
ghost use Rattle.job_text.specs.Rules.{HasIndices};
ghost use Rattle.job_text.specs.Drafts.{fresh, last_script};
ghost use Rattle.job_text.specs.Outcomes.{Gives};
ghost use Rattle.job_text.specs.Judge as spec;

use crate::arguments;
use crate::commands::{Ask, Command};
use crate::drafts::{Draft, Known, Progress, Stage, TypedHead};
use crate::faults::{JobWhy, Stop};
use crate::keys::{JobPart, Key, KeyRule, Version, is_count, is_part_between, rule_of};
use crystal_cartan::Arrow;
use std::alloc::Global;
use tableau_reading::Shape;
use tensor_words::MOST_CELLS;
use text_pieces::{are_printed, behind, count_words, first, first_word};

/// The most `start` lines, sessions, commands of a session, asks, and indices of a `demazure` ask.
const MOST_STARTS: usize = 256;

const MOST_SESSIONS: usize = 16;

const MOST_COMMANDS: usize = 4096;

const MOST_ASKS: usize = 8;

const MOST_INDICES: usize = 64;

/// What a line makes of a stage.
#[tactic(auto, unfolding(crate::specs::Judge::line_made))]
pub(crate) fn line_made(alloc: Global, line: &[u8], stage: Stage) -> Result<Stage, Stop>
    ensures { Gives result (spec.line_made line.now stage) }
{
    if !are_printed(line) {
        return Err(Stop::Why(JobWhy::BadByte));
    }
    match stage {
        Stage::Unread => header_read(line),
        Stage::Headed(progress) => {
            let after = worded(alloc, line, progress)?;
            Ok(Stage::Headed(after))
        }
    }
}

/// The first line is a header, and no other.
fn header_read(line: &[u8]) -> Result<Stage, Stop>
    ensures { Gives result (spec.stepped line.now Unread) }
{
    match version_of(line) {
        Some(version) => Ok(Stage::Headed(begun(version))),
        None => Err(Stop::Why(JobWhy::BadHeader)),
    }
}

/// The version that a header tells.
fn version_of(line: &[u8]) -> Option<Version>
    ensures { result ≡ spec.version_of line.now }
{
    if line == b"crystal-job 1".as_slice() {
        Some(Version::One)
    } else if line == b"crystal-job 2".as_slice() {
        Some(Version::Two)
    } else {
        None
    }
}

fn begun(version: Version) -> Progress
    ensures { result ≡ spec.begun version }
{
    Progress {
        version,
        part: JobPart::Opening,
        known: Known::Nothing,
    }
}

/// What a line behind the header makes of the progress.
#[tactic(auto, unfolding(crate::specs::Judge::worded))]
fn worded(alloc: Global, line: &[u8], progress: Progress) -> Result<Progress, Stop>
    ensures { Gives result (spec.worded (words line.now) progress) }
{
    let Some((word, rest)) = first_word(line) else {
        return Ok(progress);
    };
    if is_comment(word) {
        return Ok(progress);
    }
    let Some(rule) = rule_of(progress.version, word) else {
        return Err(Stop::Why(JobWhy::UnknownLine));
    };
    ruled(alloc, rest, rule, progress)
}

/// Whether a line that begins with this word is a comment.
fn is_comment(word: &[u8]) -> bool
    ensures { result ≡ (slice_index_or word.now 0 0 == 35) }
{
    matches!(word, [b'#', ..])
}

/// What the line of a key word makes of the progress, its faults in their order.
#[tactic(auto, unfolding(crate::specs::Judge::ruled))]
fn ruled(alloc: Global, text: &[u8], rule: KeyRule, progress: Progress) -> Result<Progress, Stop>
    requires { HasIndices rule }
    ensures { Gives result (spec.ruled rule (words text.now) progress) }
{
    if !(is_count(rule.count, count_words(text)) && is_formed(rule.key, text)) {
        return Err(Stop::Why(JobWhy::UnknownLine));
    }
    if !is_placed(rule, &progress) {
        return Err(Stop::Why(JobWhy::Misplaced));
    }
    if !has_room(rule.key, text, &progress.known) {
        return Err(Stop::Why(JobWhy::TooMany));
    }
    let known = made(alloc, rule.key, text, progress.known)?;
    Ok(Progress {
        version: progress.version,
        part: rule.next,
        known,
    })
}

/// Behind `look` stands f or e.
fn is_formed(key: Key, text: &[u8]) -> bool
    ensures { result ≡ spec.is_formed key (words text.now) }
{
    match key {
        Key::Look => is_direction(first(text)),
        _ => true,
    }
}

fn is_direction(word: &[u8]) -> bool
    ensures { result ≡ (bytes_eq word.now (codes "f") || bytes_eq word.now (codes "e")) }
{
    is_down(word) || word == b"e".as_slice()
}

fn is_down(word: &[u8]) -> bool
    ensures { result ≡ bytes_eq word.now (codes "f") }
{
    word == b"f".as_slice()
}

/// Whether the line is a second line `cells` or `order`.
fn is_second(key: Key, known: &Known) -> bool
    ensures { result ≡ spec.is_second key known.now }
{
    match known {
        Known::Nothing => false,
        Known::Typed(head) => key == Key::Order && head.order.is_some(),
        Known::Begun(draft) => key == Key::Cells && draft.has_cells(),
    }
}

/// Whether the line may stand here.
fn is_placed(rule: KeyRule, progress: &Progress) -> bool
    ensures { result ≡ spec.is_placed rule progress.now }
{
    is_part_between(rule.first, rule.last, progress.part) && !is_second(rule.key, &progress.known)
}

/// Whether a draft has room for the line.
fn draft_has_room(key: Key, text: &[u8], draft: &Draft) -> bool
    ensures { result ≡ spec.draft_has_room key (words text.now) draft.now }
{
    match key {
        Key::Start => draft.start_count() < MOST_STARTS,
        Key::Cells => true,
        Key::Session => draft.session_count() < MOST_SESSIONS,
        Key::Demazure => draft.ask_count() < MOST_ASKS && count_words(text) <= MOST_INDICES,
        Key::Tops | Key::Reflect => draft.ask_count() < MOST_ASKS,
        _ => draft.command_count() < MOST_COMMANDS,
    }
}

/// Whether what is known has room for the line.
#[tactic(auto, unfolding(crate::specs::Judge::has_room))]
fn has_room(key: Key, text: &[u8], known: &Known) -> bool
    ensures { result ≡ spec.has_room key (words text.now) known.now }
{
    match known {
        Known::Begun(draft) => draft_has_room(key, text, draft),
        _ => true,
    }
}

/// What the line of a key word makes of what is known.
#[tactic(auto, unfolding(crate::specs::Judge::made, crate::specs::Judge::has_room))]
fn made(alloc: Global, key: Key, text: &[u8], known: Known) -> Result<Known, Stop>
    requires room { spec.has_room key (words text.now) known ≡ true }
    requires indices { key ≡ Demazure → 1 ≤ length (words text.now) }
    ensures { Gives result (spec.made key (words text.now) known) }
{
    match known {
        Known::Nothing => {
            let cartan = arguments::typed(text)?;
            Ok(Known::Typed(TypedHead {
                cartan,
                order: None,
            }))
        }
        Known::Typed(head) => placed(alloc, key, text, head),
        Known::Begun(draft) => {
            let draft = drafted(alloc, key, text, draft)?;
            Ok(Known::Begun(draft))
        }
    }
}

/// What the line `order`, `shape` or `space` makes of a head.
#[tactic(auto, unfolding(crate::specs::Judge::placed))]
fn placed(alloc: Global, key: Key, text: &[u8], head: TypedHead) -> Result<Known, Stop>
    ensures { Gives result (spec.placed key (words text.now) head) }
{
    match key {
        Key::Order => {
            let order = arguments::order_named(first(text))?;
            Ok(Known::Typed(TypedHead {
                cartan: head.cartan,
                order: Some(order),
            }))
        }
        Key::Shape => {
            let shape = arguments::shaped(alloc, text, head.cartan, head.order())?;
            Ok(Known::Begun(shape_taken(alloc, shape)))
        }
        Key::Space => {
            let space = arguments::space_read(alloc, text, head.cartan, head.order())?;
            Ok(Known::Begun(Draft::fresh(alloc, space, None)))
        }
        _ => Err(Stop::Why(JobWhy::Misplaced)),
    }
}

/// The draft behind a shape: its space, and its top word as the first start.
fn shape_taken(alloc: Global, shape: Shape) -> Draft
    ensures { result ≡ fresh (shape_space shape) (Some (code_of (shape_space shape) (top_word shape))) }
{
    let space = shape.space();
    let top = space.code_of(&shape.top());
    Draft::fresh(alloc, space, Some(top))
}

/// What the line of a key word makes of a draft.
#[tactic(auto, unfolding(crate::specs::Judge::drafted))]
fn drafted(alloc: Global, key: Key, text: &[u8], draft: Draft) -> Result<Draft, Stop>
    requires room { spec.draft_has_room key (words text.now) draft ≡ true }
    requires indices { key ≡ Demazure → 1 ≤ length (words text.now) }
    ensures { Gives result (spec.drafted key (words text.now) draft) }
{
    match key {
        Key::Typing | Key::Order | Key::Shape | Key::Space => Err(Stop::Why(JobWhy::Misplaced)),
        Key::Start => {
            let code = draft.coded(text)?;
            Ok(draft.with_start(code)?)
        }
        Key::Cells => cells_given(text, draft),
        Key::Session => Ok(draft.with_session(alloc)?),
        Key::Add => {
            let code = draft.coded(text)?;
            Ok(draft.with_command(Command::Add(code))?)
        }
        Key::Find => {
            let code = draft.coded(text)?;
            Ok(draft.with_command(Command::Find(code))?)
        }
        Key::Wt => {
            let code = draft.coded(text)?;
            Ok(draft.with_command(Command::Wt(code))?)
        }
        Key::Lower => moved(true, text, draft),
        Key::Raise => moved(false, text, draft),
        Key::Eps => {
            let index = draft.indexed(first(text))?;
            let code = draft.coded(behind(text))?;
            Ok(draft.with_command(Command::Eps(index, code))?)
        }
        Key::Phi => {
            let index = draft.indexed(first(text))?;
            let code = draft.coded(behind(text))?;
            Ok(draft.with_command(Command::Phi(index, code))?)
        }
        Key::Look => looked(is_down(first(text)), behind(text), draft),
        Key::Done => Ok(draft.with_command(Command::Done)?),
        Key::Demazure => {
            let indices = draft.indices(alloc, text)?;
            Ok(draft.with_ask(Ask::Demazure(indices))?)
        }
        Key::Tops => {
            let shape = arguments::shaped(alloc, text, draft.cartan(), draft.order())?;
            Ok(draft.with_ask(Ask::Tops(shape))?)
        }
        Key::Reflect => {
            let index = draft.indexed(first(text))?;
            Ok(draft.with_ask(Ask::Reflect(index))?)
        }
    }
}

/// What the line `cells` makes of a draft.
fn cells_given(text: &[u8], draft: Draft) -> Result<Draft, Stop>
    ensures { Gives result (spec.celled (words text.now) draft) }
{
    let cells = arguments::number_read(first(text))?;
    if cells < 1 || cells > MOST_CELLS {
        return Err(Stop::Why(JobWhy::CellsRange));
    }
    Ok(draft.with_cells(cells))
}

/// The draft with a command that draws an arrow of a word.
fn moved(down: bool, text: &[u8], draft: Draft) -> Result<Draft, Stop>
    requires { length (last_script draft) < 4096 }
    ensures { Gives result (spec.commanded_at draft (words text.now) (λ i c. command.Move (spec.arrow down i) c)) }
{
    let index = draft.indexed(first(text))?;
    let code = draft.coded(behind(text))?;
    Ok(draft.with_command(Command::Move(Arrow { down, index }, code))?)
}

/// The draft with a command that looks along an arrow of a word.
fn looked(down: bool, text: &[u8], draft: Draft) -> Result<Draft, Stop>
    requires { length (last_script draft) < 4096 }
    ensures { Gives result (spec.commanded_at draft (words text.now) (λ i c. command.Look (spec.arrow down i) c)) }
{
    let index = draft.indexed(first(text))?;
    let code = draft.coded(behind(text))?;
    Ok(draft.with_command(Command::Look(Arrow { down, index }, code))?)
}
