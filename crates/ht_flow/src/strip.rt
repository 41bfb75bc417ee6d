//! Letters behind attractors.
ghost use Rattle.std.specs.Prelude.{◌≡◌, ◌≢◌, ◌≤◌, ◌-◌, ◌++◌, List, [], ℕ, length, drop, IfOk};
ghost use Rattle.ht_flow.specs.Rounds.{BeginsTimes};

use ht_word::{Letters, NoMemory};
use std::alloc::Global;

// How often the letters begin with the others, one after another, and what is behind: one pass.
pub(crate) fn stripped<'a>(letters: &'a [u8], by: &[u8]) -> (usize, &'a [u8])
    requires some { by.now ≢ [] }
    ensures times { BeginsTimes result.0 by.now letters.now result.1.now }
    ensures short { (rest : List ℕ) → result.1.now ≢ by.now ++ rest }
{
    let mut times = 0;
    let mut left = letters;
    'stripping: while let Some(shorter) = left.strip_prefix(by) {
        left = shorter;
        times += 1;
    }
    (times, left)
}

// The last so many letters, and those behind them.
pub(crate) fn last_letters(
    alloc: Global,
    letters: &Letters,
    count: usize,
    behind: &Letters,
) -> Result<Letters, NoMemory>
    requires { count ≤ length letters.now }
    ensures { IfOk result (λ joined. joined ≡ drop (length letters.now - count) letters.now ++ behind.now) }
{
    let mut joined = Letters::from_slice(alloc, &letters.as_slice()[letters.len() - count..])?;
    joined.extend(behind.as_slice())?;
    Ok(joined)
}
