//! Names of elements.
ghost use Rattle.std.specs.Prelude.{◌↔◌, ℕ, List, IfOk, IsTrue, MatchOption};
ghost use Rattle.ht_text.specs.Fronts.{IsLongestFront};
ghost use Rattle.ht_script.specs.Names.{IsName, IsNameByte, IsNameStart};
ghost use Rattle.ht_script.specs.Tokens.{IsSpan};
ghost use Rattle.ht_script.specs.Lines.{IsNamed};

use ht_word::{Name, NoMemory};
use std::alloc::Global;

// The bytes of the longest name behind its first one.
const MOST_BEHIND: usize = 31;

fn is_name_byte(byte: u8) -> bool
    ensures { IsTrue result ↔ IsNameByte byte }
{
    byte.is_ascii_lowercase() || byte.is_ascii_digit() || byte == b'_'
}

fn is_name_start(byte: u8) -> bool
    ensures { IsTrue result ↔ IsNameStart byte }
{
    byte.is_ascii_lowercase() && byte != b'x'
}

// How many bytes of a name the bytes begin with. One pass over them.
fn count_name_bytes(bytes: &[u8]) -> usize
    ensures { IsSpan IsNameByte bytes.now result }
{
    for (i, b) in bytes.iter().enumerate() {
        if !is_name_byte(*b) {
            return i;
        }
    }
    bytes.len()
}

// Whether the bytes are a name. Constant time.
pub(crate) fn is_name(bytes: &[u8]) -> bool
    ensures { IsTrue result ↔ IsName bytes.now }
{
    let Some((first, others)) = bytes.split_first() else {
        return false;
    };
    is_name_start(*first) && others.len() <= MOST_BEHIND && count_name_bytes(others) == others.len()
}

// The length of the longest front of the bytes that some name has. Constant time.
pub(crate) fn name_front(bytes: &[u8]) -> usize
    ensures { IsLongestFront IsName bytes.now result }
{
    let Some((first, others)) = bytes.split_first() else {
        return 0;
    };
    if !is_name_start(*first) {
        return 0;
    }
    let within = others.len().min(MOST_BEHIND);
    1 + count_name_bytes(&others[..within])
}

// The name that the bytes are. Two passes over them.
pub(crate) fn read_name(alloc: Global, bytes: &[u8]) -> Result<Option<Name>, NoMemory>
    ensures { IfOk result (λ found. MatchOption found
        ((name : List ℕ) → ¬ IsNamed name bytes.now) (λ name. IsNamed name bytes.now)) }
{
    if !is_name(bytes) {
        return Ok(None);
    }
    Ok(Some(Name::from_slice(alloc, bytes)?))
}
