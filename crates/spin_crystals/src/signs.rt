//! Vectors of signs.

/// A vector of signs: bit for bit, a set bit meaning minus, the first sign being the most significant of `size` bits.
#[derive(Clone, Copy, Debug, PartialEq, Eq)]
pub struct Signs {
    pub bits: u8,
    pub size: u8,
}

/// Which spin crystal: all vectors of type B, or those of type D with an even (`Plus`) or an odd number of minus signs.
#[derive(Clone, Copy, Debug, PartialEq, Eq)]
pub enum Half {
    Whole,
    Plus,
    Minus,
}
