//! Cuts of bytes.
ghost use Rattle.std.specs.Prelude.{◌≡◌, ◌≢◌, ◌++◌, ◌∷◌, ℕ, List, All, MatchOption};

/// The parts before and after the first of a byte; `None` exactly where it isn't there. One pass
/// over the bytes; takes no memory.
pub fn cut(bytes: &[u8], byte: u8) -> Option<(&[u8], &[u8])>
    ensures { MatchOption result (All (λ b. b ≢ byte) bytes.now)
        (λ parts. All (λ b. b ≢ byte) parts.0.now × (bytes.now ≡ parts.0.now ++ byte ∷ parts.1.now)) }
{
    for (i, b) in bytes.iter().enumerate() {
        if *b == byte {
            return Some((&bytes[..i], &bytes[i + 1..]));
        }
    }
    None
}

/// What is behind a prefix; `None` exactly where the bytes don't begin with it. One pass over the
/// prefix; takes no memory.
pub fn after<'a>(bytes: &'a [u8], prefix: &[u8]) -> Option<&'a [u8]>
    ensures { MatchOption result ((rest : List ℕ) → bytes.now ≢ prefix.now ++ rest) (λ rest. bytes.now ≡ prefix.now ++ rest.now) }
{
    bytes.strip_prefix(prefix)
}
