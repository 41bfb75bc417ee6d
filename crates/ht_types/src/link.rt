//! Links, and the places of atoms.
ghost use Rattle.std.specs.Prelude.{◌≡◌};
ghost use Rattle.ht_types.specs.Links.{reach_in};

use crate::direction::Direction;
use crate::kind::Reach;
use ht_word::{List, Word};

/// A word under the infinite part that powers carry under an attractor, by steps ahead, and under a
/// repeller, by steps behind. The reaches needn't be the first. Links are this project's own.
#[derive(Debug, Drop)]
pub struct Link {
    pub cone: Word,
    pub ahead: Reach,
    pub behind: Reach,
}

impl Link {
    /// The reach in the direction.
    pub fn reach(&self, direction: Direction) -> &Reach
        ensures { result.now ≡ reach_in direction self.now }
    {
        match direction {
            Direction::Ahead => &self.ahead,
            Direction::Behind => &self.behind,
        }
    }
}

/// Links, in any order.
pub type Links = List<Link>;

/// Places of words of a basis, from 0.
pub type Places = List<usize>;

/// For each atom the places of its words.
pub type Atoms = List<Places>;
