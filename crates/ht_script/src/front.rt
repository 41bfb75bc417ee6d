//! The longest front of bytes that some line has.
ghost use Rattle.ht_text.specs.Fronts.{IsLongestFront};
ghost use Rattle.ht_script.specs.Lines.{IsLineText};
ghost use Rattle.ht_script.specs.Slots.{FitsSlots, IsUnmarked};

use crate::command::{Command, Slot, keyword_front};
use crate::ending::Ending;
use crate::token::{behind_mark, count_before, first_token};

// The length of the longest front of the bytes that some line has. At most ten passes over them.
pub(crate) fn line_front(line: &[u8]) -> usize
    ensures { IsLongestFront IsLineText line.now result }
{
    if let Some(text) = behind_mark(line) {
        return line.len() - text.len() + count_before(text, b'\n');
    }
    command_front(line)
}

// The same for bytes that no comment begins with.
fn command_front(line: &[u8]) -> usize
    requires { IsUnmarked line.now }
    ensures { IsLongestFront IsLineText line.now result }
{
    let Some((at, token, rest)) = first_token(line) else {
        return line.len();
    };
    let Some(command) = Command::of_keyword(token) else {
        return at + keyword_front(token);
    };
    if rest.is_empty() {
        return line.len();
    }
    let behind = slots_front(command.slots(), command.ending(), rest);
    at + token.len() + behind
}

// The length of the longest front of the bytes that tokens for the slots and the ending behind them
// have. At most five passes over each token and eight over the ending.
fn slots_front(slots: &[Slot], ending: Ending, bytes: &[u8]) -> usize
    ensures { IsLongestFront (FitsSlots ending slots.now) bytes.now result }
{
    let Some((slot, later)) = slots.split_first() else {
        return ending.front(bytes);
    };
    let Some((at, token, rest)) = first_token(bytes) else {
        return bytes.len();
    };
    if rest.is_empty() {
        return at + slot.front(token);
    }
    if !slot.holds(token) {
        return at + slot.front(token);
    }
    let behind = slots_front(later, ending, rest);
    at + token.len() + behind
}
