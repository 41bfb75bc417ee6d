//! Fronts of letters that others end with, by a failure table (Knuth, Morris and Pratt 1977).
ghost use Rattle.std.specs.Prelude.{◌≡◌, ◌<◌, ◌≤◌, ◌+◌, ◌-◌, ◌++◌, ◌∷◌, [], ℕ, List, length, IfOk};
ghost use Rattle.ht_local.specs.Borders.{AreBorders, HoldsFront};

use ht_word::NoMemory;
use std::alloc::Global;

// How many letters of the front the letters end with, once there is one more behind them: from so many
// before it, fewer than all.
fn advanced(by: &[u8], table: &[usize], before: usize, letter: u8) -> usize
    requires before { before < length by.now }
    requires table { AreBorders by.now table.now before }
    ensures holds { (z : List ℕ) (most : ℕ) → most < length by.now → HoldsFront by.now z most before → HoldsFront by.now (z ++ letter ∷ []) (most + 1) result }
    ensures within { result ≤ before + 1 }
{
    let mut held = before;
    'shortening: while by[held] != letter {
        if held == 0 {
            return 0;
        }
        held = table[held - 1];
    }
    held + 1
}

// The failure table of the letters: one pass.
pub(crate) fn borders(alloc: Global, by: &[u8]) -> Result<Vec<usize>, NoMemory>
    ensures { IfOk result (λ table. AreBorders by.now table.items (length by.now)) }
{
    let mut table = Vec::new(alloc);
    if by.is_empty() {
        return Ok(table);
    }
    table.push(0)?;
    let mut held = 0;
    for count in 1..by.len() {
        held = advanced(by, &table, held, by[count]);
        table.push(held)?;
    }
    Ok(table)
}

// So many letters, but fewer than all.
fn shortened(by: &[u8], table: &[usize], held: usize) -> usize
    requires some { 1 ≤ length by.now }
    requires table { AreBorders by.now table.now (length by.now) }
    requires held { held ≤ length by.now }
    ensures holds { (z : List ℕ) → HoldsFront by.now z (length by.now) held → HoldsFront by.now z (length by.now - 1) result }
    ensures less { result < length by.now }
{
    if held == by.len() {
        table[held - 1]
    } else {
        held
    }
}

// How many letters of the front the letters end with, once there is one more behind them.
pub(crate) fn next_held(by: &[u8], table: &[usize], held: usize, letter: u8) -> usize
    requires some { 1 ≤ length by.now }
    requires table { AreBorders by.now table.now (length by.now) }
    requires held { held ≤ length by.now }
    ensures holds { (z : List ℕ) → HoldsFront by.now z (length by.now) held → HoldsFront by.now (z ++ letter ∷ []) (length by.now) result }
    ensures within { result ≤ length by.now }
{
    advanced(by, table, shortened(by, table, held), letter)
}
