//! The operators of a space on codes, one word after another.
ghost use Rattle.std.specs.Prelude.{◌≡◌, ◌<◌, IfSome, IsTrue, MatchOption};
ghost use Rattle.tensor_words.specs.Spaces.{size};
ghost use Rattle.tensor_words.specs.Operators.{IsArrow, op};
ghost use Rattle.signature_rule.specs.Acting.{IsActing};

use crate::places::{ActingPlaces, lowered_code, places_of, raised_code};
use crystal_cartan::Arrow;
use std::marker::Model;
use tensor_words::{Space, Steps, Word};

/// A word with its code and the places where the operators act on it.
#[derive(Debug, Drop)]
pub(crate) struct Acting {
    code: u64,
    word: Word,
    places: ActingPlaces,
}

/// The word that the operators of a space took up last, with the places where they act on it, so that all arrows of one word
/// cost one pass over its factors. Takes no memory of its own. Contracts see the space.
#[derive(Debug, Drop)]
pub struct LastWord {
    space: Space,
    acting: Option<Acting>,
}

impl Model for LastWord {
    ghost use Rattle.std.specs.Prelude.{IfSome};
    ghost use Rattle.tensor_words.specs.Spaces.{SpaceType};
    ghost use Rattle.signature_rule.specs.Acting.{IsActing};

    ghost Value = { SpaceType };

    ghost view = { λ l. l.space };

    ghost invariant = { λ l. IfSome l.acting (IsActing l.space) };
}

impl LastWord {
    /// No word of the space was taken up yet.
    pub fn new(space: Space) -> LastWord
        ensures { result ≡ space }
    {
        LastWord {
            space,
            acting: None,
        }
    }

    /// The code of what the operator of an arrow makes of the word with this code, `None` for zero, by the tables of the
    /// space.
    pub fn next(&mut self, steps: &Steps, code: u64, arrow: Arrow) -> Option<u64>
        requires tables { steps.now ≡ self.old }
        requires code { code < size self.old }
        requires arrow { IsArrow self.old arrow }
        ensures same { self.new ≡ self.old }
        ensures value { result ≡ op self.old arrow code }
        ensures word { IfSome result (λ next. next < size self.old) }
    {
        take_up(steps, &mut self.acting, code);
        match &self.acting {
            Some(acting) => acted(steps, acting, arrow),
            None => unreachable!(),
        }
    }
}

/// Makes the word with this code the last, unless it is that already.
fn take_up(steps: &Steps, last: &mut Option<Acting>, code: u64)
    requires code { code < size steps.now }
    requires acting { IfSome last.old (IsActing steps.now) }
    ensures { MatchOption last.new ⊥ (λ acting. IsActing steps.now acting × (acting.code ≡ code)) }
{
    if is_at(last, code) {
        return;
    }
    let word = steps.word(code);
    let places = places_of(steps, &word);
    *last = Some(Acting { code, word, places });
}

fn is_at(last: &Option<Acting>, code: u64) -> bool
    ensures { IsTrue result → MatchOption last.now ⊥ (λ acting. acting.code ≡ code) }
{
    match last {
        Some(acting) => acting.code == code,
        None => false,
    }
}

/// The code of what the operator of an arrow makes of a word.
#[tactic(auto, unfolding(tensor_words::specs::Operators::op))]
fn acted(steps: &Steps, acting: &Acting, arrow: Arrow) -> Option<u64>
    requires acting { IsActing steps.now acting.now }
    requires arrow { IsArrow steps.now arrow }
    ensures value { result ≡ op steps.now arrow acting.now.code }
    ensures word { IfSome result (λ next. next < size steps.now) }
{
    if arrow.down {
        lowered_code(
            steps,
            acting.code,
            &acting.word,
            &acting.places,
            arrow.index,
        )
    } else {
        raised_code(
            steps,
            acting.code,
            &acting.word,
            &acting.places,
            arrow.index,
        )
    }
}
