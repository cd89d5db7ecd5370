//! Sample jobs: a generated job for each number, to try and to time growth with.
ghost use Rattle.std.specs.Prelude.{◌≡◌, ◌≤◌, ◌<◌, ◌++◌, ◌∷◌, length, codes, IfOk, IsOk, OnOk, Ok};
ghost use Rattle.std.specs.List.{flat_map};
ghost use Rattle.crystal_cartan.specs.Types.{HasIndex};
ghost use Rattle.crystal_streams.specs.Lines.{ended};
ghost use Rattle.tensor_words.specs.Spaces.{size};
ghost use Rattle.tensor_words.specs.Codes.{IsWord, word_of};
ghost use Rattle.job_text.specs.Judge.{judge};
ghost use Rattle.job_text.specs.Jobs.{IsJob, most_job_bytes};
ghost use Rattle.sample_jobs.specs.Samples.{sample_head, next_number, number_behind, kind_chosen, index_chosen, lowered, index_text, before_word, command_line, session_lines, sample, IsSampleJob, SamplesAreJobs, SamplesAreShort};

use crystal_cartan::Cartan;
use crystal_streams::{Line, NoMemory, push_line};
use job_text::{Job, JobFault, read_job};
use std::alloc::Global;
use tableau_reading::print_word;
use tensor_words::{Space, Word, word_with};

/// The sessions of a sample.
pub const SAMPLE_SESSIONS: u32 = 4;

/// The commands of each session of a sample.
pub const SAMPLE_COMMANDS: u32 = 64;

/// From one number to the next: times MULTIPLIER, and INCREMENT more, modulo 2^64, as in the generator of Knuth's MMIX.
const MULTIPLIER: u64 = 6_364_136_223_846_793_005;

const INCREMENT: u64 = 1_442_695_040_888_963_407;

/// The place value from which on a number chooses a kind of command.
const KIND_UNIT: u64 = 1 << 33;

/// The place value from which on it chooses an index.
const INDEX_UNIT: u64 = 1 << 40;

/// Every sample is judged to be a job of four sessions with 64 commands each, whose text is not too long. The call does
/// nothing: its contract is the theorem.
pub fn samples_are_jobs()
    ensures jobs { SamplesAreJobs }
    ensures short { SamplesAreShort }
{}

/// The text of the sample job with this number: a head that depends on the number modulo 4, and four sessions of 64
/// commands each.
pub fn sample_text(alloc: Global, number: u32) -> Result<Vec<u8>, NoMemory>
    ensures { IfOk result (λ text. text.items ≡ sample number) }
{
    let head = sure_job(alloc, head_text(number))?;
    let space = head.world.space();
    let start = word_with(space, *head.starts.at(0));
    let mut text = Vec::from_slice(alloc, head_text(number))?;
    let mut last = u64::from(number);
    'sessions: for _ in 0..SAMPLE_SESSIONS {
        last = put_session(space, &start, last, &mut text)?;
    }
    Ok(text)
}

/// The sample job with this number.
pub fn sample_job(alloc: Global, number: u32) -> Result<Job, NoMemory>
    ensures sample { IfOk result (IsSampleJob number) }
    ensures job { IfOk result IsJob }
{
    let text = sample_text(alloc, number)?;
    sure_job(alloc, text.as_slice())
}

/// The job of a text that has no fault.
fn sure_job(alloc: Global, bytes: &[u8]) -> Result<Job, NoMemory>
    requires short { length bytes.now ≤ most_job_bytes }
    requires judged { IsOk (judge bytes.now) }
    ensures told { IfOk result (λ job. judge bytes.now ≡ Ok job) }
    ensures job { IfOk result IsJob }
{
    match read_job(alloc, bytes) {
        Ok(job) => Ok(job),
        Err(JobFault::NoMemory) => Err(NoMemory),
        Err(JobFault::At { .. }) => unreachable!(),
    }
}

/// The lines of a sample before its sessions.
#[tactic(auto, unfolding(crate::specs::Samples::sample_head))]
fn head_text(number: u32) -> &'static [u8]
    ensures { result.now ≡ flat_map ended (codes "crystal-job 1" ∷ (sample_head number).lines) }
{
    match number % 4 {
        0 => b"crystal-job 1\ntype A 4\nshape 4 3 2 1\ncells 4096\n",
        1 => b"crystal-job 1\ntype B 3\nspace s v v v\nstart +++ 2 1 1\ncells 2048\n",
        2 => b"crystal-job 1\ntype C 4\nshape 4 3 2 1\ncells 200000\n",
        _ => b"crystal-job 1\ntype D 4\nshape 3 2 1\ncells 16384\n",
    }
}

/// Appends a session whose commands the numbers behind `before` choose, and gives the last of these numbers. Each
/// command is about the word that the ones before have come to, from `start` on.
fn put_session(
    space: &Space,
    start: &Word,
    before: u64,
    text: &mut Vec<u8>,
) -> Result<u64, NoMemory>
    requires { IsWord space.now start.now }
    ensures text { OnOk result (text.new.items ≡ text.old.items ++ flat_map ended (session_lines space.now start.now before)) }
    ensures last { IfOk result (λ last. last ≡ number_behind 64 before) }
{
    text.extend_from_slice(b"session\n")?;
    let mut word = *start;
    let mut number = before;
    'commands: for _ in 0..SAMPLE_COMMANDS {
        number = next_number(number);
        push_line(text, &command_line(space, number, &word))?;
        word = lowered(space, index_chosen(space.cartan(), number), &word);
    }
    Ok(number)
}

/// The number that follows.
#[tactic(auto, unfolding(crate::specs::Samples::next_number))]
fn next_number(number: u64) -> u64
    ensures { result ≡ next_number number }
{
    number.wrapping_mul(MULTIPLIER).wrapping_add(INCREMENT)
}

/// The kind of command that a number chooses.
#[tactic(auto, unfolding(crate::specs::Samples::kind_chosen))]
fn kind_chosen(number: u64) -> u8
    ensures { result ≡ kind_chosen number }
{
    (number / KIND_UNIT % 5) as u8
}

/// The index that a number chooses.
#[tactic(auto, unfolding(crate::specs::Samples::index_chosen))]
fn index_chosen(cartan: Cartan, number: u64) -> u8
    ensures value { result ≡ index_chosen cartan number }
    ensures index { HasIndex cartan result }
{
    1 + (number / INDEX_UNIT % u64::from(cartan.rank())) as u8
}

/// The line of the command that a number chooses about a word.
#[tactic(auto, unfolding(crate::specs::Samples::command_line))]
fn command_line(space: &Space, number: u64, word: &Word) -> Line
    requires { IsWord space.now word.now }
    ensures { result ≡ command_line space.now number word.now }
{
    let mut line = before_word(kind_chosen(number), index_chosen(space.cartan(), number));
    print_word(space, word, &mut line);
    line
}

/// A command up to its word, from its kind and its index.
#[tactic(auto, unfolding(crate::specs::Samples::before_word))]
fn before_word(kind: u8, index: u8) -> Line
    ensures text { result ≡ before_word kind index }
    ensures short { length result ≤ 28 }
{
    match kind {
        0 => key_line(b"find "),
        1 => indexed_line(b"look f ", index),
        2 => indexed_line(b"f ", index),
        3 => indexed_line(b"e ", index),
        _ => indexed_line(b"phi ", index),
    }
}

/// A line that has a key word and a blank.
fn key_line(key: &[u8]) -> Line
    requires { length key.now ≤ 7 }
    ensures { result ≡ key.now }
{
    let mut line = Line::new();
    line.text(key);
    line
}

/// A line that has a key word, an index and a blank.
fn indexed_line(key: &[u8], index: u8) -> Line
    requires { length key.now ≤ 7 }
    ensures text { result ≡ key.now ++ index_text index }
    ensures short { length result ≤ 28 }
{
    let mut line = key_line(key);
    line.number(i64::from(index));
    line.text(b" ");
    line
}

/// What f_i makes of a word, and the word itself where that is zero.
fn lowered(space: &Space, index: u8, word: &Word) -> Word
    requires word { IsWord space.now word.now }
    requires index { HasIndex space.now.cartan index }
    ensures value { result ≡ lowered space.now index word.now }
    ensures word { IsWord space.now result }
{
    space.by_rule_lower(word, index).unwrap_or(*word)
}
