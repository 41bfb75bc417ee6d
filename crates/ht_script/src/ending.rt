//! How lines end behind their slots.
ghost use Rattle.ht_text.specs.Fronts.{IsRowsText, IsLongestFront};
ghost use Rattle.ht_script.specs.Tokens.{◌▸◌, IsSpaces};
ghost use Rattle.ht_script.specs.Slots.{IsOfEnding};

use crate::factor::factors_front;
use crate::token::{count_spaces, first_token};
use ht_text::{is_rows, rows_front};

/// What stands behind the last slot: spaces alone, rows, or rows or factors.
#[derive(Clone, Copy, Debug, PartialEq, Eq)]
pub(crate) enum Ending {
    Spaces,
    Rows,
    Value,
}

impl Ending {
    // The length of the longest front of the bytes that some bytes of the ending have. At most eight
    // passes over them.
    pub(crate) fn front(self, bytes: &[u8]) -> usize
        ensures { IsLongestFront (IsOfEnding self) bytes.now result }
    {
        match self {
            Ending::Spaces => count_spaces(bytes),
            Ending::Rows => last_rows_front(bytes),
            Ending::Value => value_front(bytes),
        }
    }
}

// The length of the longest front of the bytes that rows or factors have. Eight passes over them.
fn value_front(bytes: &[u8]) -> usize
    ensures { IsLongestFront (IsOfEnding Ending.Value) bytes.now result }
{
    last_rows_front(bytes).max(factors_front(bytes))
}

// The length of the longest front of the bytes that rows and spaces behind them have. Three passes
// over them.
fn last_rows_front(bytes: &[u8]) -> usize
    ensures { IsLongestFront (IsRowsText ▸ IsSpaces) bytes.now result }
{
    let Some((at, token, rest)) = first_token(bytes) else {
        return bytes.len();
    };
    if rest.is_empty() || !is_rows(token) {
        return at + rows_front(token);
    }
    at + token.len() + count_spaces(rest)
}
