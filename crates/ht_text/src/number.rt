//! Texts of numbers: one to four decimal digits, and no 0 before another.
ghost use Rattle.std.specs.Prelude.{◌≡◌, ◌++◌, ◌≤◌, ℕ, ◌↔◌, MatchOption, IsTrue, OnOk, OnErr, decimal};
ghost use Rattle.ht_text.specs.Texts.{IsNum, IsNumUpTo, HasForm};
ghost use Rattle.ht_text.specs.Writes.{AddsFront};

use ht_word::NoMemory;
use itoa::Buffer;

/// The number that the bytes are the text of; `None` exactly where they are the text of none.
/// Constant time; takes no memory.
pub fn read_num(bytes: &[u8]) -> Option<u32>
    ensures { MatchOption result ((n : ℕ) → ¬ IsNum bytes.now n) (IsNum bytes.now) }
{
    read_digits(bytes, 4)
}

// The number that the bytes are the text of, with at most so many digits. Constant time.
pub(crate) fn read_digits(bytes: &[u8], most: usize) -> Option<u32>
    requires some { 1 ≤ most }
    requires few { most ≤ 6 }
    ensures { MatchOption result ((n : ℕ) → ¬ IsNumUpTo most bytes.now n) (IsNumUpTo most bytes.now) }
{
    if !has_form(bytes, most) {
        return None;
    }
    let mut value = 0u32;
    for b in bytes {
        if !b.is_ascii_digit() {
            return None;
        }
        value = value * 10 + (*b - b'0') as u32;
    }
    Some(value)
}

// There is a byte, at most so many, and no 0 before another.
fn has_form(bytes: &[u8], most: usize) -> bool
    requires { 1 ≤ most }
    ensures { IsTrue result ↔ HasForm most bytes.now }
{
    match bytes {
        [] => false,
        [b'0'] => true,
        [first, ..] => *first != b'0' && bytes.len() <= most,
    }
}

/// Appends the decimal digits of a number, at most ten bytes. After a refusal `out` holds what it
/// held and a front of them.
pub fn write_num(n: u32, out: &mut Vec<u8>) -> Result<(), NoMemory>
    ensures ok { OnOk result (out.new.items ≡ out.old.items ++ decimal n) }
    ensures err { OnErr result (AddsFront out.old.items out.new.items (decimal n)) }
{
    write_size(n as usize, out)
}

/// Appends the decimal digits of a size, at most twenty bytes. After a refusal `out` holds what it
/// held and a front of them.
pub fn write_size(n: usize, out: &mut Vec<u8>) -> Result<(), NoMemory>
    ensures ok { OnOk result (out.new.items ≡ out.old.items ++ decimal n) }
    ensures err { OnErr result (AddsFront out.old.items out.new.items (decimal n)) }
{
    out.extend_from_slice(Buffer::new().format(n).as_bytes())?;
    Ok(())
}

/// Appends the decimal digits of a number, at most 39 bytes. After a refusal `out` holds what it
/// held and a front of them.
pub fn write_natural(n: u128, out: &mut Vec<u8>) -> Result<(), NoMemory>
    ensures ok { OnOk result (out.new.items ≡ out.old.items ++ decimal n) }
    ensures err { OnErr result (AddsFront out.old.items out.new.items (decimal n)) }
{
    out.extend_from_slice(Buffer::new().format(n).as_bytes())?;
    Ok(())
}
