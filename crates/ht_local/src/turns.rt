//! Letters turned into others.
ghost use Rattle.std.specs.Prelude.{◌≡◌, ◌↔◌, ◌≤◌, ℕ, IfOk, Contains, length};
ghost use Rattle.ht_local.specs.Borders.{AreBorders, HoldsFront};
ghost use Rattle.ht_local.specs.Candidates.{IsTurned};

use crate::borders::{borders, next_held};
use ht_word::NoMemory;
use std::alloc::Global;

// All places, from 0, by which the letters turn into others, as many, in ascending order: those at which
// the others stand in the letters twice. Three passes.
pub(crate) fn turns(alloc: Global, letters: &[u8], by: &[u8]) -> Result<Vec<usize>, NoMemory>
    ensures { IfOk result (λ places. (place : ℕ) → Contains places.items place ↔ IsTurned letters.now place by.now) }
{
    let mut places = Vec::new(alloc);
    if letters.len() != by.len() {
        return Ok(places);
    }
    let table = borders(alloc, by)?;
    let mut held = held_after(letters, by, &table);
    for place in 0..letters.len() {
        if held == by.len() {
            places.push(place)?;
        }
        held = next_held(by, &table, held, letters[place]);
    }
    Ok(places)
}

// How many letters of `by` the letters end with, as many as any.
fn held_after(letters: &[u8], by: &[u8], table: &[usize]) -> usize
    requires many { length letters.now ≡ length by.now }
    requires table { AreBorders by.now table.now (length by.now) }
    ensures { HoldsFront by.now letters.now (length by.now) result }
{
    let mut held = 0;
    for letter in letters {
        held = next_held(by, table, held, *letter);
    }
    held
}
