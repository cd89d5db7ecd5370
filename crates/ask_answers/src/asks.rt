//! Answers to the asks of a job.
ghost use Rattle.std.specs.Prelude.{All, Contains, IfOk};
ghost use Rattle.job_text.specs.Jobs.{IsAsk};
ghost use Rattle.ask_answers.specs.Answers.{IsAskAnswer, AreAnswers, IsPrintableAsk};

use crate::reflections::images;
use crate::subsets::{listed, subset};
use crate::tops::tops_beside_shape;
use crate::values::AskAnswer;
use canonical_graph::Finished;
use crystal_streams::NoMemory;
use job_text::{Ask, Asks};
use std::alloc::Global;

/// The answers to the asks of a job, in their order. The start is the code of the first start of the job.
pub fn answers(
    alloc: Global,
    finished: &Finished,
    start: u64,
    asks: &Asks,
) -> Result<Vec<AskAnswer>, NoMemory>
    requires asks { All (IsAsk finished.now.space) asks.now }
    requires start { Contains finished.now.codes start }
    ensures answers { IfOk result (λ answers. AreAnswers finished.now start asks.now answers.items) }
    ensures printable { IfOk result (λ answers. All (IsPrintableAsk finished.now) answers.items) }
{
    let _space = finished.space();
    let mut answers = Vec::with_capacity(alloc, asks.len())?;
    'asks: for place in 0..asks.len() {
        let answer = answer(alloc, finished, start, asks.at(place))?;
        answers.push_reserved(answer);
    }
    Ok(answers)
}

/// The answer to an ask.
fn answer(alloc: Global, finished: &Finished, start: u64, ask: &Ask) -> Result<AskAnswer, NoMemory>
    requires ask { IsAsk finished.now.space ask.now }
    requires start { Contains finished.now.codes start }
    ensures { IfOk result (IsAskAnswer finished.now start ask.now) }
{
    match ask {
        Ask::Demazure(indices) => {
            let indices = listed(alloc, indices)?;
            let ranks = subset(alloc, finished, start, indices.as_slice())?;
            Ok(AskAnswer::Demazure { indices, ranks })
        }
        Ask::Tops(shape) => {
            let tops = tops_beside_shape(alloc, finished, shape)?;
            Ok(AskAnswer::Tops {
                shape: *shape,
                tops,
            })
        }
        Ask::Reflect(index) => {
            let images = images(alloc, finished, *index)?;
            Ok(AskAnswer::Reflection {
                index: *index,
                images,
            })
        }
    }
}
