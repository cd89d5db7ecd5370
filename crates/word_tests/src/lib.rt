//! Worked values of the crates from letters to readings, and streams in memory.
//!
//! Tests alone, which promise nothing: the check of a crate's tests proves the crate a second time, so they stand
//! behind the crates that they try. The modules, in an order to read them in: `types` of crystal_cartan; `letters` of
//! vector_crystals; `spins` of spin_crystals; `tensors` of tensor_words; `places`, `signatures` of signature_rule;
//! `readings` of tableau_reading; `pieces` of text_pieces; `streams` of crystal_streams. `spaces` makes the spaces that they
//! try.
#![tactic(auto)]

#[cfg(test)]
mod tests;
