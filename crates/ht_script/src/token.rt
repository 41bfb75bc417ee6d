//! Tokens with spaces round them.
ghost use Rattle.std.specs.Prelude.{◌≡◌, ◌≢◌, ◌↔◌, ℕ, List, All, IsTrue, MatchOption, codes};
ghost use Rattle.ht_text.specs.Fronts.{IsLongestFront};
ghost use Rattle.ht_script.specs.Tokens.{Is, IsSpaces, IsSpan, IsFirstToken};
ghost use Rattle.ht_script.specs.Lines.{IsCommentText};

use ht_text::after;

// How many spaces the bytes begin with. One pass over them.
pub(crate) fn count_spaces(bytes: &[u8]) -> usize
    ensures { IsSpan (λ b. b ≡ 32) bytes.now result }
{
    for (i, b) in bytes.iter().enumerate() {
        if *b != b' ' {
            return i;
        }
    }
    bytes.len()
}

// How many bytes there are before the first of a byte. One pass over them.
pub(crate) fn count_before(bytes: &[u8], byte: u8) -> usize
    ensures { IsSpan (λ b. b ≢ byte) bytes.now result }
{
    for (i, b) in bytes.iter().enumerate() {
        if *b == byte {
            return i;
        }
    }
    bytes.len()
}

// How many spaces the first token has before it, the token, and what is behind it; `None` where
// there are only spaces. One pass over the spaces and the token.
pub(crate) fn first_token(bytes: &[u8]) -> Option<(usize, &[u8], &[u8])>
    ensures { MatchOption result (IsSpaces bytes.now) (λ p. IsFirstToken bytes.now p.0 p.1.now p.2.now) }
{
    let at = count_spaces(bytes);
    let text = &bytes[at..];
    if text.is_empty() {
        return None;
    }
    let (token, rest) = text.split_at(count_before(text, b' '));
    Some((at, token, rest))
}

// What is behind a `#` that has only spaces before it. One pass over the spaces.
pub(crate) fn behind_mark(bytes: &[u8]) -> Option<&[u8]>
    ensures { MatchOption result ((text : List ℕ) → ¬ IsCommentText bytes.now text) (λ text. IsCommentText bytes.now text.now) }
{
    after(&bytes[count_spaces(bytes)..], b"#")
}

// Whether there are only spaces. One pass over them.
pub(crate) fn only_spaces(bytes: &[u8]) -> bool
    ensures { IsTrue result ↔ IsSpaces bytes.now }
{
    bytes.iter().all(|b| *b == b' ')
}

// Whether the token is `=`.
pub(crate) fn is_equals(token: &[u8]) -> bool
    ensures { IsTrue result ↔ Is (codes "=") token.now }
{
    token == b"=".as_slice()
}

// How many bytes two texts begin with alike: the longest front that the text has. One pass over
// the shorter one.
pub(crate) fn shared_front(bytes: &[u8], text: &[u8]) -> usize
    ensures { IsLongestFront (Is text.now) bytes.now result }
{
    for (i, b) in bytes.iter().enumerate() {
        if i == text.len() {
            return i;
        }
        if *b != text[i] {
            return i;
        }
    }
    bytes.len()
}
