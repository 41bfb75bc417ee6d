//! Texts of exponents: an integer, or `-` and an integer.
ghost use Rattle.std.specs.Prelude.{◌≡◌, ◌<◌, ◌^◌, ◌↔◌, ℕ, pos, neg_ℤ, IsTrue, MatchOption};
ghost use Rattle.std.specs.Int.{IsInRange};
ghost use Rattle.std.specs.Str.Parse.{AllDigits, digits_value};
ghost use Rattle.ht_pair.specs.Numbers.{IsWide};
ghost use Rattle.ht_text.specs.Fronts.{IsLongestFront};
ghost use Rattle.ht_script.specs.declared.factor.Exponent.{Exponent};
ghost use Rattle.ht_script.specs.Factors.{IsExponent};
ghost use Rattle.ht_script.specs.Exponents.{IsIntegerText, IsExponentText, Raises, StandsFor};
ghost use Rattle.ht_script.specs.Tokens.{IsSpan};

use crate::factor::Exponent;
use ht_text::after;

// The largest absolute value of an exponent that isn't wide.
const MOST: u128 = 0x7fff_ffff_ffff_ffff_ffff_ffff_ffff_ffff;

// The exponent that the text behind `^` is. Two passes over it.
pub(crate) fn read_exponent(text: &[u8]) -> Option<Exponent>
    ensures { MatchOption result (¬ IsExponentText text.now) (λ exponent. Raises exponent text.now) }
{
    let Some(digits) = after(text, b"-") else {
        return read_integer(text);
    };
    let Some(exponent) = read_integer(digits) else {
        return None;
    };
    Some(negative(exponent))
}

// Whether the text is that of an exponent. One pass over it.
pub(crate) fn is_exponent(text: &[u8]) -> bool
    ensures { IsTrue result ↔ IsExponentText text.now }
{
    let Some(digits) = after(text, b"-") else {
        return is_integer(text);
    };
    is_integer(digits)
}

// The length of the longest front of the text that some exponent has. One pass over it.
pub(crate) fn exponent_front(text: &[u8]) -> usize
    ensures { IsLongestFront IsExponentText text.now result }
{
    let Some(digits) = after(text, b"-") else {
        return integer_front(text);
    };
    1 + integer_front(digits)
}

// The exponent with the other sign.
fn negative(exponent: Exponent) -> Exponent
    requires { (k : ℕ) × IsExponent (pos k) exponent }
    ensures { (k : ℕ) → IsExponent (pos k) exponent → IsExponent (neg_ℤ (pos k)) result }
{
    match exponent {
        Exponent::Fits(value) => Exponent::Fits(-value),
        Exponent::Wide => Exponent::Wide,
    }
}

// The exponent that the integer's text stands for. Two passes over it.
fn read_integer(text: &[u8]) -> Option<Exponent>
    ensures { MatchOption result (¬ IsIntegerText text.now) (λ exponent. StandsFor exponent text.now) }
{
    if !is_integer(text) {
        return None;
    }
    let Some(value) = value_of(text) else {
        return Some(Exponent::Wide);
    };
    Some(Exponent::Fits(value as i128))
}

// The number of the digits; `None` where it is wide. One pass over them.
fn value_of(digits: &[u8]) -> Option<u128>
    requires { AllDigits 10 digits.now }
    ensures { MatchOption result (IsWide (digits_value 10 digits.now))
        (λ value. (value ≡ digits_value 10 digits.now) × (value < 2 ^ 127)) }
{
    let mut value = 0u128;
    for b in digits {
        let digit = (*b - b'0') as u128;
        if value > (MOST - digit) / 10 {
            return None;
        }
        value = value * 10 + digit;
    }
    Some(value)
}

// Whether the text is that of an integer. One pass over it.
fn is_integer(text: &[u8]) -> bool
    ensures { IsTrue result ↔ IsIntegerText text.now }
{
    !text.is_empty() && integer_front(text) == text.len()
}

// The length of the longest front of the text that some integer has. One pass over it.
fn integer_front(text: &[u8]) -> usize
    ensures { IsLongestFront IsIntegerText text.now result }
{
    if let Some(_) = after(text, b"0") {
        return 1;
    }
    count_digits(text)
}

// How many digits the bytes begin with. One pass over them.
fn count_digits(bytes: &[u8]) -> usize
    ensures { IsSpan (IsInRange 48 57) bytes.now result }
{
    for (i, b) in bytes.iter().enumerate() {
        if !b.is_ascii_digit() {
            return i;
        }
    }
    bytes.len()
}
