//! Factors of a product: reading them, and the longest front that some factors have.
ghost use Rattle.std.specs.Prelude.{◌↔◌, ℕ, List, IfOk, IsTrue, MatchOption};
ghost use Rattle.ht_text.specs.Fronts.{IsLongestFront};
ghost use Rattle.ht_script.specs.Factors.{IsFactor, IsFactorText, AreFactors, AreFactorsText};

use crate::exponent::{exponent_front, is_exponent, read_exponent};
use crate::name::{is_name, name_front, read_name};
use crate::token::first_token;
use ht_text::cut;
use ht_word::{List, Name, NoMemory};
use std::alloc::Global;

/// An exponent of a factor.
#[derive(Clone, Copy, Debug, PartialEq, Eq)]
pub enum Exponent {
    /// At most 2^127 - 1 in absolute value.
    Fits(i128),
    /// Past that.
    Wide,
}

/// A factor of a product: the name of an element, and an exponent.
#[derive(Debug, Drop)]
pub struct Factor {
    /// The name of an element.
    pub name: Name,
    /// The exponent; 1 where none is written.
    pub exponent: Exponent,
}

/// The factors of a product, from left to right.
pub type Factors = List<Factor>;

// The factors that the bytes are. Four passes over them.
pub(crate) fn read_factors(alloc: Global, bytes: &[u8]) -> Result<Option<Factors>, NoMemory>
    ensures { IfOk result (λ found. MatchOption found
        ((factors : List Factor) → ¬ AreFactors factors bytes.now) (λ factors. AreFactors factors bytes.now)) }
{
    let mut factors = List::new(alloc);
    let mut left = bytes;
    while let Some((_, token, rest)) = first_token(left) {
        let Some(factor) = read_factor(alloc, token)? else {
            return Ok(None);
        };
        factors.push(factor)?;
        left = rest;
    }
    if factors.len() == 0 {
        return Ok(None);
    }
    Ok(Some(factors))
}

// The factor that the token is. Three passes over it.
fn read_factor(alloc: Global, token: &[u8]) -> Result<Option<Factor>, NoMemory>
    ensures { IfOk result (λ found. MatchOption found
        ((factor : Factor) → ¬ IsFactor factor token.now) (λ factor. IsFactor factor token.now)) }
{
    let Some((front, text)) = cut(token, b'^') else {
        let Some(name) = read_name(alloc, token)? else {
            return Ok(None);
        };
        return Ok(Some(Factor {
            name,
            exponent: Exponent::Fits(1),
        }));
    };
    let Some(exponent) = read_exponent(text) else {
        return Ok(None);
    };
    let Some(name) = read_name(alloc, front)? else {
        return Ok(None);
    };
    Ok(Some(Factor { name, exponent }))
}

// The length of the longest front of the bytes that some factors have. Five passes over them.
pub(crate) fn factors_front(bytes: &[u8]) -> usize
    ensures { IsLongestFront AreFactorsText bytes.now result }
{
    let mut done = 0;
    let mut left = bytes;
    while let Some((at, token, rest)) = first_token(left) {
        if rest.is_empty() || !is_factor(token) {
            return done + at + factor_front(token);
        }
        done += at + token.len();
        left = rest;
    }
    bytes.len()
}

// Whether the token is a factor. Two passes over it.
fn is_factor(token: &[u8]) -> bool
    ensures { IsTrue result ↔ IsFactorText token.now }
{
    let Some((name, text)) = cut(token, b'^') else {
        return is_name(token);
    };
    is_name(name) && is_exponent(text)
}

// The length of the longest front of the token that some factor has. Two passes over it.
fn factor_front(token: &[u8]) -> usize
    ensures { IsLongestFront IsFactorText token.now result }
{
    let Some((name, text)) = cut(token, b'^') else {
        return name_front(token);
    };
    if !is_name(name) {
        return name_front(name);
    }
    name.len() + 1 + exponent_front(text)
}
