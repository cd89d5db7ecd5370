//! Two marked words of a space, and the operators on pairs of codes.
ghost use Rattle.std.specs.Prelude.{◌≡◌, ◌<◌, ◌≤◌, ◌↔◌, IsTrue, IfOk, IfSome};
ghost use Rattle.tensor_words.specs.Spaces.{size, IsSpace};
ghost use Rattle.tensor_words.specs.Operators.{IsArrow, op};
ghost use Rattle.crystal_match.specs.Relabelling.{relabelled};
ghost use Rattle.crystal_match.specs.Telling.{pointed, AreEndsApart, IsPointed};

use crate::relabelling::Relabel;
use crystal_cartan::Arrow;
use signature_rule::LastWord;
use std::alloc::{AllocError, Global};
use std::marker::Model;
use tensor_words::{Space, Steps};

/// Two marked words of a space, with its tables and the words that were met last on either side, so that all arrows of a
/// pair cost one pass over each word. Contracts see the space, the two marks and the relabelling.
#[derive(Drop)]
pub(crate) struct MarkedSpace {
    steps: Steps,
    left: LastWord,
    right: LastWord,
    marks: (u64, u64),
    relabel: Relabel,
}

/// The codes that a pair of operators gives, `None` for zero.
pub(crate) type PairEnds = (Option<u64>, Option<u64>);

impl Model for MarkedSpace {
    ghost use Rattle.std.specs.Prelude.{◌≡◌, ◌<◌};
    ghost use Rattle.crystal_match.specs.Telling.{PointedType, IsPointed, pointed};

    ghost Value = { PointedType };

    ghost view = { λ b. pointed b.steps b.marks.0 b.marks.1 b.relabel };

    ghost invariant = { λ b. IsPointed (pointed b.steps b.marks.0 b.marks.1 b.relabel) × (b.left ≡ b.steps) × (b.right ≡ b.steps) };
}

impl MarkedSpace {
    /// The marks of a space. Takes the memory of its tables.
    pub(crate) fn new(
        alloc: Global,
        space: &Space,
        marks: (u64, u64),
        relabel: Relabel,
    ) -> Result<MarkedSpace, AllocError>
        requires first { marks.0 < size space.now }
        requires second { marks.1 < size space.now }
        requires relabel { relabel.cartan ≡ space.now.cartan }
        ensures { IfOk result (λ both. both ≡ pointed space.now marks.0 marks.1 relabel) }
    {
        Ok(MarkedSpace {
            steps: Steps::new(alloc, *space)?,
            left: LastWord::new(*space),
            right: LastWord::new(*space),
            marks,
            relabel,
        })
    }

    /// The number of indices.
    pub(crate) fn rank(&self) -> u8
        ensures rank { result ≡ self.now.space.cartan.rank }
        ensures few { result ≤ 8 }
        ensures pointed { IsPointed self.now }
    {
        self.steps.cartan().rank()
    }

    /// The two marks.
    pub(crate) fn marks(&self) -> (u64, u64)
        ensures marks { result ≡ (self.now.first, self.now.second) }
        ensures pointed { IsPointed self.now }
    {
        self.marks
    }

    /// What the operator of an arrow makes of the first code, and that of the relabelled arrow of the second.
    pub(crate) fn ends(&mut self, pair: (u64, u64), arrow: Arrow) -> PairEnds
        requires first { pair.0 < size self.old.space }
        requires second { pair.1 < size self.old.space }
        requires arrow { IsArrow self.old.space arrow }
        ensures same { self.new ≡ self.old }
        ensures first { result.0 ≡ op self.old.space arrow pair.0 }
        ensures second { result.1 ≡ op self.old.space (relabelled self.old.relabel arrow) pair.1 }
    {
        let first = self.left.next(&self.steps, pair.0, arrow);
        let second = self.right.next(&self.steps, pair.1, self.relabel.of(arrow));
        (first, second)
    }

    /// Whether two ends tell the marks apart.
    pub(crate) fn tells(&self, ends: PairEnds) -> bool
        ensures { IsTrue result ↔ AreEndsApart self.now ends.0 ends.1 }
    {
        match ends {
            (None, None) => false,
            (Some(first), Some(second)) => { (first == self.marks.0) != (second == self.marks.1) }
            _ => true,
        }
    }
}
