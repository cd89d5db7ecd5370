//! The law of the answers to asks.
ghost use Rattle.answer_text.specs.Laws.{AnswersAreOne};

/// Two lists of values that answer the same asks about the same graph and start have one text. The call does nothing:
/// its contract is the theorem.
pub fn answers_are_one()
    ensures { AnswersAreOne }
{}
