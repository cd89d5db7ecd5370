//! Wide spaces and the pairs of codes of their words.
ghost use Rattle.std.specs.Prelude.{◌≡◌, ◌↔◌, IfOk, OnErr, IsTrue};
ghost use Rattle.wide_words.specs.WideSpaces.{AreOfOneKind, IsWideSpace, IsWide};

use std::marker::Model;
use tensor_words::Space;

/// Two spaces of different Cartan types or tensor orders, which make no wide space.
#[derive(Clone, Copy, Debug, PartialEq, Eq)]
pub struct Mixed;

/// The code of a wide word as machine words hold it: the code of its high word and that of its low word. Ascending
/// codes are pairs that ascend by `high` and then by `low`.
#[derive(Clone, Copy, Debug, PartialEq, Eq)]
pub struct WideCode {
    pub high: u64,
    pub low: u64,
}

/// The words that are a word of a high space followed by a word of a low one, both of one Cartan type and one tensor
/// order: 2 to 80 factors, at most 2^126 words.
#[derive(Clone, Copy, Debug)]
pub struct WideSpace {
    high: Space,
    low: Space,
}

impl Model for WideSpace {
    ghost use Rattle.wide_words.specs.WideSpaces.{WideSpaceType, IsWideSpace};
    ghost use Rattle.wide_words.specs.WideFields.{wide_fields, wide_fields-view};

    ghost Value = { WideSpaceType };

    ghost view = { λ s. record { high = s.high; low = s.low } };

    ghost invariant = { λ s. IsWideSpace (record { high = s.high; low = s.low }) };

    ghost inverse = { wide_fields };

    ghost inverse_ok = { wide_fields-view };
}

impl WideSpace {
    /// The wide space of these two, or `Mixed` where their Cartan types or orders differ.
    pub fn new(high: Space, low: Space) -> Result<WideSpace, Mixed>
        ensures value { IfOk result (λ s. (s ≡ record { high = high; low = low }) × IsWideSpace s) }
        ensures mixed { OnErr result (AreOfOneKind high low → ⊥) }
    {
        if high.cartan() != low.cartan() || high.order() != low.order() {
            return Err(Mixed);
        }
        Ok(WideSpace { high, low })
    }

    /// The space of the high words.
    pub fn high(&self) -> &Space
        ensures high { result.now ≡ self.now.high }
        ensures space { IsWideSpace self.now }
    {
        &self.high
    }

    /// The space of the low words.
    pub fn low(&self) -> &Space
        ensures low { result.now ≡ self.now.low }
        ensures space { IsWideSpace self.now }
    {
        &self.low
    }

    /// Whether each half of the pair is the code of a word.
    pub fn has(&self, code: WideCode) -> bool
        ensures { IsTrue result ↔ IsWide self.now code }
    {
        code.high < self.high.size() && code.low < self.low.size()
    }
}
