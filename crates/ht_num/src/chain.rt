//! The chain of an exponent: the powers over which a power is made by doubling.
ghost use Rattle.std.specs.Prelude.{◌≡◌, ◌≤◌, ◌<◌, ◌^◌, length, slice_get, Some};
ghost use Rattle.ht_num.specs.Chains.{chain};

/// The length of the chain of k. At most 127 halvings; takes no memory.
pub fn chain_len(k: u128) -> u32
    requires low { 1 ≤ k }
    requires high { k < 2 ^ 127 }
    ensures { result ≡ length (chain k) }
{
    let mut rest = k;
    let mut len = 1;
    while rest > 1 {
        len += 1 + (rest % 2) as u32;
        rest /= 2;
    }
    len
}

/// The entry of the chain of k at a place, counted from 0. At most 254 halvings; takes no memory.
pub fn chain_at(k: u128, i: u32) -> u128
    requires low { 1 ≤ k }
    requires high { k < 2 ^ 127 }
    requires inside { i < length (chain k) }
    ensures { slice_get (chain k) i ≡ Some result }
{
    let mut rest = k;
    let mut len = chain_len(k);
    // the chain of the half, then one or two further numbers
    while i + 1 < len {
        if rest % 2 == 1 && i + 2 == len {
            return rest - 1;
        }
        len -= 1 + (rest % 2) as u32;
        rest /= 2;
    }
    rest
}
