//! Names of files.
ghost use Rattle.std.specs.Prelude.{◌↔◌, ℕ, List, IfOk, IsTrue, MatchOption};
ghost use Rattle.ht_text.specs.Fronts.{IsLongestFront};
ghost use Rattle.ht_script.specs.Names.{IsFileName, IsFileByte, IsFileStart};
ghost use Rattle.ht_script.specs.Tokens.{IsSpan};
ghost use Rattle.ht_script.specs.Lines.{IsFileNamed};

use ht_word::{Name, NoMemory};
use std::alloc::Global;

// The bytes of the longest name of a file behind its first one.
const MOST_BEHIND: usize = 63;

fn is_file_byte(byte: u8) -> bool
    ensures { IsTrue result ↔ IsFileByte byte }
{
    is_file_start(byte) || byte == b'_' || byte == b'-' || byte == b'.'
}

fn is_file_start(byte: u8) -> bool
    ensures { IsTrue result ↔ IsFileStart byte }
{
    byte.is_ascii_uppercase() || byte.is_ascii_lowercase() || byte.is_ascii_digit()
}

// How many bytes of a file's name the bytes begin with. One pass over them.
fn count_file_bytes(bytes: &[u8]) -> usize
    ensures { IsSpan IsFileByte bytes.now result }
{
    for (i, b) in bytes.iter().enumerate() {
        if !is_file_byte(*b) {
            return i;
        }
    }
    bytes.len()
}

// Whether the bytes are the name of a file. Constant time.
pub(crate) fn is_file(bytes: &[u8]) -> bool
    ensures { IsTrue result ↔ IsFileName bytes.now }
{
    let Some((first, others)) = bytes.split_first() else {
        return false;
    };
    is_file_start(*first) && others.len() <= MOST_BEHIND && count_file_bytes(others) == others.len()
}

// The length of the longest front of the bytes that some file's name has. Constant time.
pub(crate) fn file_front(bytes: &[u8]) -> usize
    ensures { IsLongestFront IsFileName bytes.now result }
{
    let Some((first, others)) = bytes.split_first() else {
        return 0;
    };
    if !is_file_start(*first) {
        return 0;
    }
    let within = others.len().min(MOST_BEHIND);
    1 + count_file_bytes(&others[..within])
}

// The name of a file that the bytes are. Two passes over them.
pub(crate) fn read_file(alloc: Global, bytes: &[u8]) -> Result<Option<Name>, NoMemory>
    ensures { IfOk result (λ found. MatchOption found
        ((file : List ℕ) → ¬ IsFileNamed file bytes.now) (λ file. IsFileNamed file bytes.now)) }
{
    if !is_file(bytes) {
        return Ok(None);
    }
    Ok(Some(Name::from_slice(alloc, bytes)?))
}
