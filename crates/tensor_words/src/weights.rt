//! Weights of words.
ghost use Rattle.std.specs.Prelude.{◌≡◌};
ghost use Rattle.crystal_cartan.specs.Weights.{IsWeight, IsSmall};
ghost use Rattle.tensor_words.specs.Spaces.{word_weight};
ghost use Rattle.tensor_words.specs.Codes.{IsWord};

use crate::spaces::Space;
use crate::words::Word;
use crystal_cartan::Weight;

impl Space {
    /// The weight of a word: the sum of the weights of its elements (Bump and Schilling, Crystal Bases, 2017, section 2.3).
    pub fn weight(&self, word: &Word) -> Weight
        requires { IsWord self.now word.now }
        ensures value { result ≡ word_weight self.now word.now }
        ensures size { IsWeight self.now.cartan result }
        ensures small { IsSmall result }
    {
        let mut weight = Weight::zero(self.cartan());
        let mut place = self.count();
        while place > 0 {
            place -= 1;
            let own = self.digit_weight(place, self.digit_in(word, place));
            weight = own.plus(&weight);
        }
        weight
    }
}
