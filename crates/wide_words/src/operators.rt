//! The operators on wide words, by the tensor product rule of the two halves.
ghost use Rattle.std.specs.Prelude.{◌≡◌, ◌<◌, IfSome};
ghost use Rattle.std.specs.Option.{option_map};
ghost use Rattle.tensor_words.specs.Spaces.{size};
ghost use Rattle.tensor_words.specs.Codes.{IsWord, code_of};
ghost use Rattle.tensor_words.specs.Operators.{IsArrow, acted, op};
ghost use Rattle.wide_words.specs.WideSpaces.{whole, IsWide, number, acts_high, with_high, with_low};

use crate::spaces::{WideCode, WideSpace};
use crystal_cartan::Arrow;
use signature_rule::{act, eps, phi};
use tensor_words::{Order, Space, Word, word_with};

impl WideSpace {
    /// What the operator of an arrow makes of a wide word, `None` for zero: the operator of all its factors.
    pub fn act(&self, code: WideCode, arrow: Arrow) -> Option<WideCode>
        requires code { IsWide self.now code }
        requires arrow { IsArrow (whole self.now) arrow }
        ensures value { option_map (number self.now) result ≡ op (whole self.now) arrow (number self.now code) }
        ensures word { IfSome result (IsWide self.now) }
    {
        let high = word_with(self.high(), code.high);
        let low = word_with(self.low(), code.low);
        if self.acts_high(&high, &low, arrow) {
            with_high(code, next_code(self.high(), &high, arrow))
        } else {
            with_low(code, next_code(self.low(), &low, arrow))
        }
    }

    /// Whether the operator acts on the high word, and not on the low one.
    fn acts_high(&self, high: &Word, low: &Word, arrow: Arrow) -> bool
        requires high { IsWord self.now.high high.now }
        requires low { IsWord self.now.low low.now }
        requires arrow { IsArrow (whole self.now) arrow }
        ensures { result ≡ acts_high self.now arrow high.now low.now }
    {
        let i = arrow.index;
        match (self.high().order(), arrow.down) {
            (Order::Standard, true) => phi(self.low(), low, i) <= eps(self.high(), high, i),
            (Order::Standard, false) => phi(self.low(), low, i) < eps(self.high(), high, i),
            (Order::Kashiwara, true) => eps(self.low(), low, i) < phi(self.high(), high, i),
            (Order::Kashiwara, false) => eps(self.low(), low, i) <= phi(self.high(), high, i),
        }
    }
}

/// The code of what the operator of an arrow makes of a word, `None` for zero.
fn next_code(space: &Space, word: &Word, arrow: Arrow) -> Option<u64>
    requires word { IsWord space.now word.now }
    requires arrow { IsArrow space.now arrow }
    ensures value { result ≡ option_map (code_of space.now) (acted space.now arrow word.now) }
    ensures below { IfSome result (λ c. c < size space.now) }
{
    let next = act(space, word, arrow)?;
    Some(space.code_of(&next))
}

/// The pair with this high half, if there is one.
pub(crate) fn with_high(code: WideCode, high: Option<u64>) -> Option<WideCode>
    ensures { result ≡ with_high code high }
{
    let high = high?;
    Some(WideCode {
        high,
        low: code.low,
    })
}

/// The pair with this low half, if there is one.
pub(crate) fn with_low(code: WideCode, low: Option<u64>) -> Option<WideCode>
    ensures { result ≡ with_low code low }
{
    let low = low?;
    Some(WideCode {
        high: code.high,
        low,
    })
}
