//! The tensor product rule by the plain recursion of its definition. The recursion is that of the standard order; in
//! Kashiwara's the operators e_i and f_i, and their lengths, are exchanged at each factor and on the word.
ghost use Rattle.std.specs.Prelude.{◌≡◌, ℕ, ◌+◌, ◌-◌, ◌*◌, ◌≤◌, ◌<◌, ◌++◌, length, take, drop, slice_index, IfSome};
ghost use Rattle.std.specs.Option.{option_map};
ghost use Rattle.crystal_cartan.specs.Types.{HasIndex};
ghost use Rattle.tensor_words.specs.Spaces.{factor_at, size_at};
ghost use Rattle.tensor_words.specs.Codes.{IsWord};
ghost use Rattle.tensor_words.specs.TensorRule.{action, seen_action, seen_actions, word_phi, word_eps, word_lower, word_raise};

use crate::spaces::{Order, Space};
use crate::words::Word;

impl Space {
    /// f_i on a word, `None` for zero, by recursion on the first factor and the rest, in the order of the space.
    #[tactic(auto, unfolding(crate::specs::TensorRule::action))]
    pub fn by_rule_lower(&self, word: &Word, i: u8) -> Option<Word>
        requires word { IsWord self.now word.now }
        requires index { HasIndex self.now.cartan i }
        ensures value { result ≡ (action self.now i).lower word.now }
        ensures word { IfSome result (IsWord self.now) }
    {
        match self.order() {
            Order::Standard => self.lower_from(word, 0, i),
            Order::Kashiwara => self.raise_from(word, 0, i),
        }
    }

    /// e_i on a word, `None` for zero, by recursion on the first factor and the rest, in the order of the space.
    #[tactic(auto, unfolding(crate::specs::TensorRule::action))]
    pub fn by_rule_raise(&self, word: &Word, i: u8) -> Option<Word>
        requires word { IsWord self.now word.now }
        requires index { HasIndex self.now.cartan i }
        ensures value { result ≡ (action self.now i).raise word.now }
        ensures word { IfSome result (IsWord self.now) }
    {
        match self.order() {
            Order::Standard => self.raise_from(word, 0, i),
            Order::Kashiwara => self.lower_from(word, 0, i),
        }
    }

    /// How often e_i can be applied to a word, by recursion on the first factor and the rest, in the order of the
    /// space.
    #[tactic(auto, unfolding(crate::specs::TensorRule::action))]
    pub fn by_rule_eps(&self, word: &Word, i: u8) -> u32
        requires word { IsWord self.now word.now }
        requires index { HasIndex self.now.cartan i }
        ensures value { result ≡ (action self.now i).eps word.now }
        ensures small { result ≤ 80 }
    {
        let _count = self.count();
        match self.order() {
            Order::Standard => self.eps_from(word, 0, i),
            Order::Kashiwara => self.phi_from(word, 0, i),
        }
    }

    /// How often f_i can be applied to a word, by recursion on the first factor and the rest, in the order of the
    /// space.
    #[tactic(auto, unfolding(crate::specs::TensorRule::action))]
    pub fn by_rule_phi(&self, word: &Word, i: u8) -> u32
        requires word { IsWord self.now word.now }
        requires index { HasIndex self.now.cartan i }
        ensures value { result ≡ (action self.now i).phi word.now }
        ensures small { result ≤ 80 }
    {
        let _count = self.count();
        match self.order() {
            Order::Standard => self.phi_from(word, 0, i),
            Order::Kashiwara => self.eps_from(word, 0, i),
        }
    }

    /// The digit of a word at this place, counted from 0, which is one of the factor there.
    pub fn digit_in(&self, word: &Word, place: u8) -> u16
        requires word { IsWord self.now word.now }
        requires place { place < length self.now.factors }
        ensures digit { result ≡ slice_index word.now place }
        ensures below { result < size_at self.now place }
    {
        word.digit(place)
    }

    /// eps of the element with this digit of the factor at this place, as the standard order sees it.
    fn seen_eps(&self, place: u8, digit: u16, i: u8) -> u32
        requires place { place < length self.now.factors }
        requires digit { digit < size_at self.now place }
        requires index { HasIndex self.now.cartan i }
        ensures value { result ≡ (seen_action self.now i (factor_at self.now place)).eps digit }
        ensures small { result ≤ 2 }
    {
        match self.order() {
            Order::Standard => self.digit_eps(place, digit, i),
            Order::Kashiwara => self.digit_phi(place, digit, i),
        }
    }

    /// phi of the element with this digit of the factor at this place, as the standard order sees it.
    fn seen_phi(&self, place: u8, digit: u16, i: u8) -> u32
        requires place { place < length self.now.factors }
        requires digit { digit < size_at self.now place }
        requires index { HasIndex self.now.cartan i }
        ensures value { result ≡ (seen_action self.now i (factor_at self.now place)).phi digit }
        ensures small { result ≤ 2 }
    {
        match self.order() {
            Order::Standard => self.digit_phi(place, digit, i),
            Order::Kashiwara => self.digit_eps(place, digit, i),
        }
    }

    /// f_i of the element with this digit of the factor at this place, as the standard order sees it.
    fn seen_lower(&self, place: u8, digit: u16, i: u8) -> Option<u16>
        requires place { place < length self.now.factors }
        requires digit { digit < size_at self.now place }
        requires index { HasIndex self.now.cartan i }
        ensures value { result ≡ (seen_action self.now i (factor_at self.now place)).lower digit }
        ensures below { IfSome result (λ d. d < size_at self.now place) }
    {
        match self.order() {
            Order::Standard => self.digit_lower(place, digit, i),
            Order::Kashiwara => self.digit_raise(place, digit, i),
        }
    }

    /// e_i of the element with this digit of the factor at this place, as the standard order sees it.
    fn seen_raise(&self, place: u8, digit: u16, i: u8) -> Option<u16>
        requires place { place < length self.now.factors }
        requires digit { digit < size_at self.now place }
        requires index { HasIndex self.now.cartan i }
        ensures value { result ≡ (seen_action self.now i (factor_at self.now place)).raise digit }
        ensures below { IfSome result (λ d. d < size_at self.now place) }
    {
        match self.order() {
            Order::Standard => self.digit_raise(place, digit, i),
            Order::Kashiwara => self.digit_lower(place, digit, i),
        }
    }

    /// phi of the rest of the word from this place on, as the standard order sees it.
    fn phi_from(&self, word: &Word, place: u8, i: u8) -> u32
        requires word { IsWord self.now word.now }
        requires index { HasIndex self.now.cartan i }
        requires place { place ≤ length self.now.factors }
        ensures value { result ≡ word_phi (drop place (seen_actions self.now i)) (drop place word.now) }
        ensures small { result ≤ 2 * (length self.now.factors - place) }
    {
        if place == self.count() {
            return 0;
        }
        let rest = self.phi_from(word, place + 1, i);
        let digit = self.digit_in(word, place);
        self.seen_phi(place, digit, i) + rest.saturating_sub(self.seen_eps(place, digit, i))
    }

    /// eps of the rest of the word from this place on, as the standard order sees it.
    fn eps_from(&self, word: &Word, place: u8, i: u8) -> u32
        requires word { IsWord self.now word.now }
        requires index { HasIndex self.now.cartan i }
        requires place { place ≤ length self.now.factors }
        ensures value { result ≡ word_eps (drop place (seen_actions self.now i)) (drop place word.now) }
        ensures small { result ≤ 2 * (length self.now.factors - place) }
    {
        if place == self.count() {
            return 0;
        }
        let rest = self.eps_from(word, place + 1, i);
        let digit = self.digit_in(word, place);
        rest + self
            .seen_eps(place, digit, i)
            .saturating_sub(self.phi_from(word, place + 1, i))
    }

    /// The word with f_i applied to its rest from this place on, as the standard order sees it.
    fn lower_from(&self, word: &Word, place: u8, i: u8) -> Option<Word>
        requires word { IsWord self.now word.now }
        requires index { HasIndex self.now.cartan i }
        requires place { place ≤ length self.now.factors }
        ensures value { result ≡ option_map (λ z. take place word.now ++ z) (word_lower (drop place (seen_actions self.now i)) (drop place word.now)) }
        ensures word { IfSome result (IsWord self.now) }
    {
        if place == self.count() {
            return None;
        }
        let digit = self.digit_in(word, place);
        if self.phi_from(word, place + 1, i) <= self.seen_eps(place, digit, i) {
            let lowered = self.seen_lower(place, digit, i)?;
            return Some(self.put(word, place, lowered));
        }
        self.lower_from(word, place + 1, i)
    }

    /// The word with e_i applied to its rest from this place on, as the standard order sees it.
    fn raise_from(&self, word: &Word, place: u8, i: u8) -> Option<Word>
        requires word { IsWord self.now word.now }
        requires index { HasIndex self.now.cartan i }
        requires place { place ≤ length self.now.factors }
        ensures value { result ≡ option_map (λ z. take place word.now ++ z) (word_raise (drop place (seen_actions self.now i)) (drop place word.now)) }
        ensures word { IfSome result (IsWord self.now) }
    {
        if place == self.count() {
            return None;
        }
        let digit = self.digit_in(word, place);
        if self.phi_from(word, place + 1, i) < self.seen_eps(place, digit, i) {
            let raised = self.seen_raise(place, digit, i)?;
            return Some(self.put(word, place, raised));
        }
        self.raise_from(word, place + 1, i)
    }
}
