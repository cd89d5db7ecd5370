//! Two pointed components compared.
ghost use Rattle.std.specs.Prelude.{◌≡◌, ◌<◌, IfOk, OnOk, IsErrOf, MatchOption};
ghost use Rattle.tensor_words.specs.Spaces.{size};
ghost use Rattle.crystal_match.specs.Telling.{pointed};
ghost use Rattle.crystal_match.specs.Matching.{IsVerdict, PairsOutnumber};

use crate::listings::{Arrows, Pairs};
use crate::marked::MarkedSpace;
use crate::relabelling::Relabel;
use crate::search::{Search, SearchEnd};
use std::alloc::{AllocError, Global};
use tensor_words::Space;
use thiserror::Error;

/// What a comparison finds.
#[derive(Debug, Drop)]
pub enum Verdict {
    /// The components are the same: each word of the first one stands beside its partner.
    Same { pairs: Pairs },
    /// They differ: the first list of arrows that tells the marks apart.
    Differs { walk: Arrows },
}

/// Why a comparison ends without a verdict.
#[derive(Clone, Copy, Debug, Drop, PartialEq, Eq, Error)]
pub enum MatchFault {
    #[error("there are more pairs than the limit")]
    TooMany,
    #[error("out of memory")]
    NoMemory,
}

/// Whether the components of the words with the codes a and b are the same crystal, with a beside b, the arrows of the
/// second relabelled. `TooMany` exactly where the lists of arrows that have to be tried reach more pairs than the limit.
pub fn compare(
    alloc: Global,
    space: &Space,
    a: u64,
    b: u64,
    relabel: &Relabel,
    limit: u32,
) -> Result<Verdict, MatchFault>
    requires first { a < size space.now }
    requires second { b < size space.now }
    requires relabel { relabel.now.cartan ≡ space.now.cartan }
    ensures verdict { IfOk result (IsVerdict (pointed space.now a b relabel.now)) }
    ensures fits { OnOk result (PairsOutnumber (pointed space.now a b relabel.now) limit → ⊥) }
    ensures many { IsErrOf result MatchFault.TooMany → PairsOutnumber (pointed space.now a b relabel.now) limit }
{
    match compared(alloc, space, (a, b), *relabel, limit) {
        Ok(Some(verdict)) => Ok(verdict),
        Ok(None) => Err(MatchFault::TooMany),
        Err(_) => Err(MatchFault::NoMemory),
    }
}

/// The verdict, `None` where there are too many pairs.
fn compared(
    alloc: Global,
    space: &Space,
    marks: (u64, u64),
    relabel: Relabel,
    limit: u32,
) -> Result<Option<Verdict>, AllocError>
    requires first { marks.0 < size space.now }
    requires second { marks.1 < size space.now }
    requires relabel { relabel.cartan ≡ space.now.cartan }
    ensures { let m = pointed space.now marks.0 marks.1 relabel in
        IfOk result (λ found. MatchOption found (PairsOutnumber m limit) (λ verdict. IsVerdict m verdict × (PairsOutnumber m limit → ⊥))) }
{
    let mut both = MarkedSpace::new(alloc, space, marks, relabel)?;
    let mut search = Search::new(alloc, &both)?;
    match search.run(&mut both, limit)? {
        SearchEnd::Closed => Ok(Some(Verdict::Same {
            pairs: search.pairs(alloc)?,
        })),
        SearchEnd::Telling { arrow } => Ok(Some(Verdict::Differs {
            walk: search.walk(alloc, arrow)?,
        })),
        SearchEnd::TooMany => Ok(None),
    }
}
