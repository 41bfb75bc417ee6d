//! The two directions of walks.
ghost use Rattle.std.specs.Prelude.{◌≡◌};
ghost use Rattle.ht_types.specs.Flows.{opposite};

/// By the powers from 0 on, or by those from 0 down.
#[derive(Clone, Copy, Debug, PartialEq, Eq)]
pub enum Direction {
    Ahead,
    Behind,
}

impl Direction {
    /// The other direction.
    pub fn opposite(self) -> Direction
        ensures { result ≡ opposite self }
    {
        match self {
            Direction::Ahead => Direction::Behind,
            Direction::Behind => Direction::Ahead,
        }
    }
}
