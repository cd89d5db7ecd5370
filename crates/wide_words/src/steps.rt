//! A wide space with tables: all operators of a wide word by one pass over each half.
ghost use Rattle.std.specs.Prelude.{◌≡◌, ◌<◌, IfOk, IfSome};
ghost use Rattle.std.specs.Option.{option_map};
ghost use Rattle.tensor_words.specs.Spaces.{size};
ghost use Rattle.tensor_words.specs.Codes.{IsWord, code_of};
ghost use Rattle.tensor_words.specs.Operators.{IsArrow, acted, op};
ghost use Rattle.signature_rule.specs.Places.{ArePlaces};
ghost use Rattle.wide_words.specs.WideSpaces.{whole, IsWideSpace, IsWide, number, acts_high};
ghost use Rattle.wide_words.specs.WideReadings.{IsReading};

use crate::operators::{with_high, with_low};
use crate::spaces::{WideCode, WideSpace};
use crystal_cartan::{Arrow, Cartan};
use crystal_streams::NoMemory;
use signature_rule::{
    ActingPlaces, StringLengths, lowered_code, places_of, raised_code, strings_of,
};
use std::alloc::Global;
use std::marker::Model;
use tensor_words::{Order, Steps, Word};

/// A wide space with the tables of its two halves, for the operators of many words. Contracts see the wide space.
#[derive(Debug, Drop)]
pub struct WideSteps {
    high: Steps,
    low: Steps,
}

impl Model for WideSteps {
    ghost use Rattle.wide_words.specs.WideSpaces.{WideSpaceType, IsWideSpace};

    ghost Value = { WideSpaceType };

    ghost view = { λ s. record { high = s.high; low = s.low } };

    ghost invariant = { λ s. IsWideSpace (record { high = s.high; low = s.low }) };
}

/// A wide word as it was read: its two words, where the operators of all indices act on each, and how often they can be
/// applied to each.
#[derive(Clone, Copy, Debug)]
pub struct WideReading {
    pub code: WideCode,
    pub high: Word,
    pub low: Word,
    pub high_places: ActingPlaces,
    pub low_places: ActingPlaces,
    pub high_strings: StringLengths,
    pub low_strings: StringLengths,
}

impl WideSteps {
    /// The wide space with its tables.
    pub fn new(alloc: Global, space: &WideSpace) -> Result<WideSteps, NoMemory>
        ensures { IfOk result (λ steps. steps ≡ space.now) }
    {
        let high = Steps::new(alloc, *space.high())?;
        let low = Steps::new(alloc, *space.low())?;
        Ok(WideSteps { high, low })
    }

    /// The Cartan type of the factors.
    pub fn cartan(&self) -> Cartan
        ensures cartan { result ≡ self.now.high.cartan }
        ensures space { IsWideSpace self.now }
    {
        self.high.cartan()
    }

    /// Reads a wide word, by which `step` then finds what each operator makes of it.
    pub fn read(&self, code: WideCode) -> WideReading
        requires { IsWide self.now code }
        ensures code { result.code ≡ code }
        ensures reading { IsReading self.now result }
    {
        let high = self.high.word(code.high);
        let low = self.low.word(code.low);
        WideReading {
            code,
            high,
            low,
            high_places: places_of(&self.high, &high),
            low_places: places_of(&self.low, &low),
            high_strings: strings_of(&self.high, &high),
            low_strings: strings_of(&self.low, &low),
        }
    }

    /// What the operator of an arrow makes of the wide word that was read, `None` for zero.
    pub fn step(&self, reading: &WideReading, arrow: Arrow) -> Option<WideCode>
        requires reading { IsReading self.now reading.now }
        requires arrow { IsArrow (whole self.now) arrow }
        ensures value { option_map (number self.now) result ≡ op (whole self.now) arrow (number self.now reading.now.code) }
        ensures word { IfSome result (IsWide self.now) }
    {
        let _cartan = self.cartan();
        if self.acts_high(reading, arrow) {
            with_high(reading.code, self.next_high(reading, arrow))
        } else {
            with_low(reading.code, self.next_low(reading, arrow))
        }
    }

    /// Whether the operator acts on the high word, and not on the low one.
    fn acts_high(&self, reading: &WideReading, arrow: Arrow) -> bool
        requires reading { IsReading self.now reading.now }
        requires arrow { IsArrow (whole self.now) arrow }
        ensures { result ≡ acts_high self.now arrow reading.now.high reading.now.low }
    {
        let _rank = self.high.cartan().rank();
        let at = usize::from(arrow.index) - 1;
        let high = &reading.high_strings;
        let low = &reading.low_strings;
        match (self.high.space().order(), arrow.down) {
            (Order::Standard, true) => low.phi[at] <= high.eps[at],
            (Order::Standard, false) => low.phi[at] < high.eps[at],
            (Order::Kashiwara, true) => low.eps[at] < high.phi[at],
            (Order::Kashiwara, false) => low.eps[at] <= high.phi[at],
        }
    }

    /// The code of what the operator makes of the high word, `None` for zero.
    fn next_high(&self, reading: &WideReading, arrow: Arrow) -> Option<u64>
        requires reading { IsReading self.now reading.now }
        requires arrow { IsArrow (whole self.now) arrow }
        ensures value { result ≡ option_map (code_of self.now.high) (acted self.now.high arrow reading.now.high) }
        ensures below { IfSome result (λ c. c < size self.now.high) }
    {
        next_of(
            &self.high,
            reading.code.high,
            &reading.high,
            &reading.high_places,
            arrow,
        )
    }

    /// The code of what the operator makes of the low word, `None` for zero.
    fn next_low(&self, reading: &WideReading, arrow: Arrow) -> Option<u64>
        requires reading { IsReading self.now reading.now }
        requires arrow { IsArrow (whole self.now) arrow }
        ensures value { result ≡ option_map (code_of self.now.low) (acted self.now.low arrow reading.now.low) }
        ensures below { IfSome result (λ c. c < size self.now.low) }
    {
        next_of(
            &self.low,
            reading.code.low,
            &reading.low,
            &reading.low_places,
            arrow,
        )
    }
}

/// The code of what the operator of an arrow makes of a word, `None` for zero.
fn next_of(
    steps: &Steps,
    code: u64,
    word: &Word,
    places: &ActingPlaces,
    arrow: Arrow,
) -> Option<u64>
    requires word { IsWord steps.now word.now }
    requires code { code ≡ code_of steps.now word.now }
    requires places { ArePlaces steps.now word.now places.now }
    requires arrow { IsArrow steps.now arrow }
    ensures value { result ≡ option_map (code_of steps.now) (acted steps.now arrow word.now) }
    ensures below { IfSome result (λ c. c < size steps.now) }
{
    if arrow.down {
        lowered_code(steps, code, word, places, arrow.index)
    } else {
        raised_code(steps, code, word, places, arrow.index)
    }
}
