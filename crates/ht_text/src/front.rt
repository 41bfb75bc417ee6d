//! The longest fronts of texts.
ghost use Rattle.std.specs.Prelude.{◌≡◌, ◌<◌, ◌↔◌, length, slice_index, IsTrue};
ghost use Rattle.ht_text.specs.Fronts.{IsNumText, IsWordText, IsRowsText, IsLongestFront};

use crate::place::{Place, Spot};

/// The length of the longest front of the bytes that is a front of some text of a number. Constant
/// time; takes no memory.
pub fn num_front(bytes: &[u8]) -> usize
    ensures { IsLongestFront IsNumText bytes.now result }
{
    if begins_with_zero(bytes) {
        return 1;
    }
    for (i, b) in bytes.iter().enumerate() {
        if i == 4 || !b.is_ascii_digit() {
            return i;
        }
    }
    bytes.len()
}

// Whether the first byte is a 0.
fn begins_with_zero(bytes: &[u8]) -> bool
    ensures { IsTrue result ↔ ((0 < length bytes.now) × (slice_index bytes.now 0 ≡ 48)) }
{
    match bytes {
        [b'0', ..] => true,
        _ => false,
    }
}

/// The length of the longest front of the bytes that is a front of some text of a word. One pass
/// over that front; takes no memory.
pub fn word_front(bytes: &[u8]) -> usize
    ensures { IsLongestFront IsWordText bytes.now result }
{
    let mut place = Place::Start;
    for (i, b) in bytes.iter().enumerate() {
        let Some(next) = place.next(*b) else {
            return i;
        };
        place = next;
    }
    bytes.len()
}

/// Whether the bytes are the text of some word. One pass over them; takes no memory.
pub fn is_word(bytes: &[u8]) -> bool
    ensures { IsTrue result ↔ IsWordText bytes.now }
{
    let mut place = Place::Start;
    for b in bytes {
        let Some(next) = place.next(*b) else {
            return false;
        };
        place = next;
    }
    place.is_whole()
}

/// The length of the longest front of the bytes that is a front of some text of rows. One pass over
/// that front; takes no memory.
pub fn rows_front(bytes: &[u8]) -> usize
    ensures { IsLongestFront IsRowsText bytes.now result }
{
    let mut spot = Spot::From(Place::Start);
    for (i, b) in bytes.iter().enumerate() {
        let Some(next) = spot.next(*b) else {
            return i;
        };
        spot = next;
    }
    bytes.len()
}

/// Whether the bytes are the text of some rows. One pass over them; takes no memory.
pub fn is_rows(bytes: &[u8]) -> bool
    ensures { IsTrue result ↔ IsRowsText bytes.now }
{
    let mut spot = Spot::From(Place::Start);
    for b in bytes {
        let Some(next) = spot.next(*b) else {
            return false;
        };
        spot = next;
    }
    spot.is_whole()
}
