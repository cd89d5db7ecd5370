//! Laws of words, codes and walks. Each call does nothing: its contract is the theorem.
ghost use Rattle.tensor_words.specs.Codes.{CodesAreLexicographic, CodesCorrespond};
ghost use Rattle.tensor_words.specs.Laws.{ArrowsLeadBack, CodesOfProducts, LawOfReversal, LengthsOfStrings, ProductRule, WordsReversed};
ghost use Rattle.tensor_words.specs.Operators.{OneFactorRule, OperatorsKeepWords};
ghost use Rattle.tensor_words.specs.Reach.{ComponentListIsUnique, WalksAgree};

/// Words and the numbers below the size of the space correspond one to one.
pub fn codes_correspond()
    ensures { CodesCorrespond }
{}

/// Ascending codes are the lexicographic order of words.
pub fn codes_are_lexicographic()
    ensures { CodesAreLexicographic }
{}

/// What an operator makes of a word of the space is zero or a word of the space.
pub fn operators_keep_words()
    ensures { OperatorsKeepWords }
{}

/// On a word of one factor the tensor product rule is the base crystal's own, in both orders.
pub fn one_factor_rule()
    ensures { OneFactorRule }
{}

/// The two-factor rule holds in both orders for any two words, one after the other.
pub fn product_rule()
    ensures { ProductRule }
{}

/// The code of two words, one after the other.
pub fn codes_of_products()
    ensures { CodesOfProducts }
{}

/// The law of reversal: the operators of a word in Kashiwara's order are those of the reversed word in the standard
/// order over the reversed factors, with the result reversed.
pub fn law_of_reversal()
    ensures law { LawOfReversal }
    ensures words { WordsReversed }
{}

/// eps and phi of a word are the lengths of its strings: how often the operators can be applied.
pub fn lengths_of_strings()
    ensures { LengthsOfStrings }
{}

/// On codes, an arrow leads from one to another exactly where the reversed arrow leads back.
pub fn arrows_lead_back()
    ensures { ArrowsLeadBack }
{}

/// The walk over codes is the walk over their words.
pub fn walks_agree()
    ensures { WalksAgree }
{}

/// There is at most one component list.
pub fn component_list_is_unique()
    ensures { ComponentListIsUnique }
{}
