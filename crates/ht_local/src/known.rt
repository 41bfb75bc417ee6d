//! What is known of conjugators at the ends of an atom.

use ht_word::Word;

/// The value of conjugators at a word: they send what is under it to where so many steps of the other
/// element lead from this word and the same letters.
#[derive(Debug, Drop)]
pub struct Known {
    pub word: Word,
    pub power: i128,
}
