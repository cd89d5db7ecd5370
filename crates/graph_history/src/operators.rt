//! The operators on the codes of a space, for a desk.
ghost use Rattle.std.specs.Prelude.{◌≡◌, ◌<◌, IfOk, IfSome};
ghost use Rattle.tensor_words.specs.Spaces.{IsSpace, size};
ghost use Rattle.tensor_words.specs.Operators.{IsArrow, op};

use crystal_cartan::Arrow;
use signature_rule::LastWord;
use std::alloc::{AllocError, Global};
use std::marker::Model;
use tensor_words::{Space, Steps};

/// The operators of a space on codes, with tables of their own and the word that was met last. Contracts see the space.
#[derive(Debug, Drop)]
pub struct Operators {
    steps: Steps,
    last: LastWord,
}

impl Model for Operators {
    ghost use Rattle.std.specs.Prelude.{◌≡◌};
    ghost use Rattle.tensor_words.specs.Spaces.{SpaceType};

    ghost Value = { SpaceType };

    ghost view = { λ o. o.steps };

    ghost invariant = { λ o. o.last ≡ o.steps };
}

impl Operators {
    /// The operators of a space. Takes the memory of its tables.
    pub fn new(alloc: Global, space: Space) -> Result<Operators, AllocError>
        ensures { IfOk result (λ operators. operators ≡ space) }
    {
        Ok(Operators {
            steps: Steps::new(alloc, space)?,
            last: LastWord::new(space),
        })
    }

    /// The space.
    pub fn space(&self) -> &Space
        ensures value { result.now ≡ self.now }
        ensures space { IsSpace self.now }
    {
        self.steps.space()
    }

    /// The code of what the operator of an arrow makes of the word with this code, `None` for zero. Takes no memory.
    pub fn next(&mut self, code: u64, arrow: Arrow) -> Option<u64>
        requires code { code < size self.old }
        requires arrow { IsArrow self.old arrow }
        ensures same { self.new ≡ self.old }
        ensures value { result ≡ op self.old arrow code }
        ensures word { IfSome result (λ next. next < size self.old) }
    {
        self.last.next(&self.steps, code, arrow)
    }
}
