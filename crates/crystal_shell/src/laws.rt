//! Laws of the answer.
ghost use Rattle.crystal_shell.specs.Laws.{AnswersAreDetermined, AnsweredIsUnspent};

/// The command words and the input determine the status of an answer, and with its history its text: how the cells were
/// chosen and who came first is in the history alone. The call does nothing: its contract is the theorem.
pub fn answers_are_determined()
    ensures { AnswersAreDetermined }
{}

/// Under the status 0 every word that was asked for found a cell: no event of the history is a `Spent`. The call does
/// nothing: its contract is the theorem.
pub fn answered_is_unspent()
    ensures { AnsweredIsUnspent }
{}
