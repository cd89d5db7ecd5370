//! The mode `census`: the semistandard tableaux of a shape.
ghost use Rattle.std.specs.Prelude.{◌≡◌, [], None, IfOk};
ghost use Rattle.crystal_cartan.specs.declared.types.Kind.TheVariants.{A};
ghost use Rattle.tensor_words.specs.declared.spaces.Order.TheVariants.{Standard};
ghost use Rattle.answer_text.specs.Answers.{IsPrintableAnswer, answer_bytes};
ghost use Rattle.crystal_shell.specs.Modes.Census.{CallsForCensus};

use crate::outcomes::{Answered, Status};
use answer_text::Answer;
use crystal_streams::NoMemory;
use std::alloc::Global;
use tableau_census::{CensusFault, census};
use tableau_reading::Shape;

/// The most tableaux that are listed.
const CENSUS_LIMIT: u32 = 65_536;

/// The answer to a shape of type A.
pub(crate) fn count(alloc: Global, shape: Shape) -> Result<Answered, NoMemory>
    requires kind { shape.cartan.kind ≡ A }
    requires order { shape.order ≡ Standard }
    ensures counts { IfOk result (λ a. CallsForCensus shape a.status (answer_bytes a.answer)) }
    ensures printable { IfOk result (λ a. IsPrintableAnswer a.answer) }
    ensures unkept { IfOk result (λ a. (a.front ≡ []) × (a.held ≡ None)) }
{
    match census(alloc, &shape, CENSUS_LIMIT) {
        Ok(list) => Ok(Answered::without_history(
            Status::Done,
            Answer::Tableaux {
                shape,
                codes: Some(list),
            },
        )),
        Err(CensusFault::TooMany) => Ok(Answered::without_history(
            Status::Full,
            Answer::Tableaux { shape, codes: None },
        )),
        Err(CensusFault::NotTypeA) => unreachable!(),
        Err(CensusFault::NoMemory) => Err(NoMemory),
    }
}
