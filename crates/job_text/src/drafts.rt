//! What is known of a job while its lines are read.
ghost use Rattle.std.specs.Prelude.{◌≡◌, ◌<◌, ◌≤◌, ◌==◌, ◌||◌, not, true, IfOk, IfSome, OnOk, Option, Some, None, Ok, is_some, length};
ghost use Rattle.crystal_cartan.specs.Types.{HasIndex};
ghost use Rattle.tensor_words.specs.Spaces.{IsSpace, size};
ghost use Rattle.tensor_words.specs.Worlds.{most_cells};
ghost use Rattle.tableau_reading.specs.Shapes.{IsShape};
ghost use Rattle.text_pieces.specs.Pieces.{words};
ghost use Rattle.job_text.specs.declared.commands.Ask.TheVariants as ask;
ghost use Rattle.job_text.specs.Jobs.{IsCommand, IsAsk, IsJob};
ghost use Rattle.job_text.specs.Drafts.{Drafted, order_of, fresh, last_script, with_start, with_cells, with_session, with_command, with_ask, job_of};
ghost use Rattle.job_text.specs.Outcomes.{Gives};
ghost use Rattle.job_text.specs.Judge as spec;

use crate::commands::{Ask, Asks, Command, Indices, Script, Scripts};
use crate::faults::Stop;
use crate::jobs::{DEFAULT_CELLS, Job};
use crate::keys::{JobPart, Version};
use crate::{arguments, roots};
use crystal_cartan::Cartan;
use std::alloc::{AllocError, Global};
use std::marker::Model;
use tensor_words::{Codes, Order, Space};

/// Behind the line `type`: the Cartan type, and the tensor order where a line gave it.
#[derive(Debug, Drop)]
pub struct TypedHead {
    pub cartan: Cartan,
    pub order: Option<Order>,
}

impl TypedHead {
    /// The tensor order: the standard one where no line gave it.
    pub(crate) fn order(&self) -> Order
        ensures { result ≡ order_of self.now }
    {
        self.order.unwrap_or(Order::Standard)
    }
}

/// From the line `shape` or `space` on.
#[derive(Debug, Drop)]
pub struct Draft {
    space: Space,
    top: Option<u64>,
    starts: Vec<u64>,
    cells: Option<u32>,
    scripts: Vec<Script>,
    asks: Vec<Ask>,
}

impl Model for Draft {
    ghost use Rattle.job_text.specs.Drafts.{Drafted};

    ghost Value = { Drafted };

    ghost use Rattle.job_text.specs.DraftFields.{draft_seen, KeepsDraft};

    ghost view = { draft_seen };

    ghost invariant = { KeepsDraft };
}

/// What a job is known to be.
#[derive(Debug, Drop)]
pub enum Known {
    /// Before the line `type`.
    Nothing,
    /// Behind the line `type`.
    Typed(TypedHead),
    /// Behind the line `shape` or `space`.
    Begun(Draft),
}

/// Behind the header: the version, the part that the next line stands in, and what is known.
#[derive(Debug, Drop)]
pub struct Progress {
    pub version: Version,
    pub part: JobPart,
    pub known: Known,
}

/// How far the reading has come.
#[derive(Debug, Drop)]
pub enum Stage {
    /// Before the header.
    Unread,
    /// Behind the header.
    Headed(Progress),
}

impl Draft {
    /// The draft behind the line `shape`, with the code of the top word, or `space`.
    pub(crate) fn fresh(alloc: Global, space: Space, top: Option<u64>) -> Draft
        requires top { IfSome top (λ c. c < size space) }
        ensures { result ≡ fresh space top }
    {
        let _space = space.cartan();
        Draft {
            space,
            top,
            starts: Vec::new(alloc),
            cells: None,
            scripts: Vec::new(alloc),
            asks: Vec::new(alloc),
        }
    }

    pub(crate) fn cartan(&self) -> Cartan
        ensures { result ≡ self.now.space.cartan }
    {
        self.space.cartan()
    }

    /// The tensor order of the job.
    pub(crate) fn order(&self) -> Order
        ensures { result ≡ self.now.space.order }
    {
        self.space.order()
    }

    /// Whether the number of cells was given.
    pub(crate) fn has_cells(&self) -> bool
        ensures { result ≡ is_some self.now.cells }
    {
        self.cells.is_some()
    }

    /// The number of `start` lines.
    pub(crate) fn start_count(&self) -> usize
        ensures { result ≡ length self.now.starts }
    {
        self.starts.len()
    }

    /// The number of sessions.
    pub(crate) fn session_count(&self) -> usize
        ensures { result ≡ length self.now.scripts }
    {
        self.scripts.len()
    }

    /// The number of commands of the last session.
    pub(crate) fn command_count(&self) -> usize
        ensures { result ≡ length (last_script self.now) }
    {
        match self.scripts.last() {
            Some(script) => script.len(),
            None => 0,
        }
    }

    /// The number of asks.
    pub(crate) fn ask_count(&self) -> usize
        ensures { result ≡ length self.now.asks }
    {
        self.asks.len()
    }

    /// The code of the word that a text is.
    pub(crate) fn coded(&self, text: &[u8]) -> Result<u64, Stop>
        ensures given { Gives result (spec.coded self.now.space (words text.now)) }
        ensures word { IfOk result (λ c. c < size self.now.space) }
    {
        arguments::coded(&self.space, text)
    }

    /// The index that a word is.
    pub(crate) fn indexed(&self, word: &[u8]) -> Result<u8, Stop>
        ensures given { Gives result (spec.indexed self.now.space word.now) }
        ensures index { IfOk result (HasIndex self.now.space.cartan) }
    {
        arguments::indexed(&self.space, word)
    }

    /// The indices that the words of a text are.
    pub(crate) fn indices(&self, alloc: Global, text: &[u8]) -> Result<Indices, Stop>
        requires some { 1 ≤ length (words text.now) }
        requires few { length (words text.now) ≤ 64 }
        ensures given { Gives result (spec.all_indexed self.now.space (words text.now)) }
        ensures indices { IfOk result (λ list. IsAsk self.now.space (ask.Demazure list)) }
    {
        arguments::indices(alloc, &self.space, text)
    }

    /// The draft with one more start.
    pub(crate) fn with_start(self, code: u64) -> Result<Draft, AllocError>
        requires word { code < size self.space }
        requires room { length self.starts < 256 }
        ensures { IfOk result (λ d. d ≡ with_start self code) }
    {
        let mut draft = self;
        draft.starts.push(code)?;
        Ok(draft)
    }

    /// The draft with this number of cells.
    pub(crate) fn with_cells(self, cells: u32) -> Draft
        requires { (1 ≤ cells) × (cells ≤ most_cells) }
        ensures { result ≡ with_cells self cells }
    {
        let mut draft = self;
        draft.cells = Some(cells);
        draft
    }

    /// The draft with one more session.
    pub(crate) fn with_session(self, alloc: Global) -> Result<Draft, AllocError>
        requires room { length self.scripts < 16 }
        ensures { IfOk result (λ d. d ≡ with_session self) }
    {
        let mut draft = self;
        draft.scripts.push(Script::of(Vec::new(alloc)))?;
        Ok(draft)
    }

    /// The draft with one more command of the last session.
    pub(crate) fn with_command(self, command: Command) -> Result<Draft, AllocError>
        requires command { IsCommand self.space command }
        requires room { length (last_script self) < 4096 }
        ensures { IfOk result (λ d. d ≡ with_command self command) }
    {
        let mut draft = self;
        let count = draft.scripts.len();
        if count > 0 {
            draft.scripts[count - 1].push(command)?;
        }
        Ok(draft)
    }

    /// The draft with one more ask.
    pub(crate) fn with_ask(self, ask: Ask) -> Result<Draft, AllocError>
        requires ask { IsAsk self.space ask }
        requires room { length self.asks < 8 }
        ensures { IfOk result (λ d. d ≡ with_ask self ask) }
    {
        let mut draft = self;
        draft.asks.push(ask)?;
        Ok(draft)
    }

    /// Whether there is a start.
    pub(crate) fn has_start(&self) -> bool
        ensures { result ≡ (is_some self.now.top || not (length self.now.starts == 0)) }
    {
        self.top.is_some() || !self.starts.is_empty()
    }

    /// The job of a draft with a start, whose lines are all read.
    pub(crate) fn job(self, alloc: Global) -> Result<Job, AllocError>
        requires { (is_some self.top || not (length self.starts == 0)) ≡ true }
        ensures same { IfOk result (λ j. j ≡ job_of self) }
        ensures job { IfOk result IsJob }
    {
        let Draft {
            space,
            top,
            starts,
            cells,
            scripts,
            asks,
        } = self;
        let starts = roots::all_starts(top, starts)?;
        let roots = roots::roots_of(alloc, starts.as_slice(), scripts.as_slice())?;
        Ok(Job {
            world: roots::world_of(space, cells.unwrap_or(DEFAULT_CELLS), roots),
            starts: Codes::of(starts),
            scripts: Scripts::of(scripts),
            asks: Asks::of(asks),
        })
    }
}
