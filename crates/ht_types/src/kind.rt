//! Kinds of words, and reaches.

use ht_word::{Letters, List};

/// Where steps carry a word under an attractor or a repeller: by so many steps, to the word of the
/// basis at this place, from 0, with these letters behind it.
#[derive(Debug, Drop)]
pub struct Reach {
    pub steps: u128,
    pub to: usize,
    pub rest: Letters,
}

/// The kind of a word of the quasinormal basis (Barker, Duncan and Robertson 2016; the exact numbers
/// are this project's own). Each word has exactly one.
#[derive(Debug, Drop)]
pub enum Kind {
    /// The m-th power carries the word to itself, and none from 1 on below m does.
    Cycle {
        m: u64,
    },
    /// The m-th power carries the word to itself with these letters behind it, at least one, and no
    /// power from 1 on below m carries it to itself with letters behind it.
    Attractor {
        m: u64,
        by: Letters,
    },
    /// The same for the powers from -1 down.
    Repeller {
        m: u64,
        by: Letters,
    },
    /// None of these. A reach ahead is there exactly where the word stays ahead, a reach behind
    /// exactly where it stays behind; each is the first, from one step on.
    Passing {
        ahead: Option<Reach>,
        behind: Option<Reach>,
    },
}

/// The kinds of the words of a basis, in their order.
pub type Kinds = List<Kind>;
