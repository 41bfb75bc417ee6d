//! The rows that move groups of words within themselves.
ghost use Rattle.std.specs.Prelude.{◌≡◌, [], ◌∷◌, ◌++◌, length, IfOk, OnOk};
ghost use Rattle.ht_sample.specs.Groups.{sends, turn, exchange, drift, wheel, in_twos, in_fours, group_rows, sample_rows};

use ht_pair::{Row, Rows};
use ht_word::{NoMemory, Word};
use std::alloc::Global;

// How many groups there are.
const GROUPS: usize = 500;

// How many words a group has.
const IN_GROUP: usize = 8;

// The rows of all groups.
pub(crate) fn rows_of_groups(alloc: Global, words: &[Word]) -> Result<Rows, NoMemory>
    requires { length words.now ≡ 4000 }
    ensures { IfOk result (λ rows. rows ≡ sample_rows words.now) }
{
    let mut rows = Rows::new(alloc);
    for number in 0..GROUPS {
        let start = IN_GROUP * number;
        add_group(alloc, &mut rows, number, &words[start..start + IN_GROUP])?;
    }
    Ok(rows)
}

// Adds the rows of the group with the number.
fn add_group(alloc: Global, rows: &mut Rows, number: usize, words: &[Word]) -> Result<(), NoMemory>
    ensures { OnOk result (rows.new ≡ rows.old ++ group_rows number words.now) }
{
    match number % 4 {
        0 => add_turn(alloc, rows, words),
        1 => add_exchanges(alloc, rows, words),
        2 => add_drifts(alloc, rows, words),
        _ => add_wheels(alloc, rows, words),
    }
}

// Adds the rows from each word to the next, and from the last to the first.
fn add_turn(alloc: Global, rows: &mut Rows, words: &[Word]) -> Result<(), NoMemory>
    ensures { OnOk result (rows.new ≡ rows.old ++ turn words.now) }
{
    let [first, behind @ ..] = words else {
        return Ok(());
    };
    let mut from = first;
    for to in behind {
        add_row(alloc, rows, from, to)?;
        from = to;
    }
    add_row(alloc, rows, from, first)
}

// Adds the rows that exchange the words two by two.
fn add_exchanges(alloc: Global, rows: &mut Rows, words: &[Word]) -> Result<(), NoMemory>
    ensures { OnOk result (rows.new ≡ rows.old ++ in_twos exchange words.now) }
{
    let mut left = words;
    while let [u, v, behind @ ..] = left {
        add_row(alloc, rows, u, v)?;
        add_row(alloc, rows, v, u)?;
        left = behind;
    }
    Ok(())
}

// Adds the rows by which the words drift two by two.
fn add_drifts(alloc: Global, rows: &mut Rows, words: &[Word]) -> Result<(), NoMemory>
    ensures { OnOk result (rows.new ≡ rows.old ++ in_twos drift words.now) }
{
    let mut left = words;
    while let [u, v, behind @ ..] = left {
        add_drift(alloc, rows, u, v)?;
        left = behind;
    }
    Ok(())
}

// Adds the rows by which the words run as wheels four by four.
fn add_wheels(alloc: Global, rows: &mut Rows, words: &[Word]) -> Result<(), NoMemory>
    ensures { OnOk result (rows.new ≡ rows.old ++ in_fours wheel words.now) }
{
    let mut left = words;
    while let [t, u, v, y, behind @ ..] = left {
        add_wheel(alloc, rows, t, u, v, y)?;
        left = behind;
    }
    Ok(())
}

// Adds the rows u to u1, v1 to u2 and v2 to v.
fn add_drift(alloc: Global, rows: &mut Rows, u: &Word, v: &Word) -> Result<(), NoMemory>
    ensures { OnOk result (rows.new ≡ rows.old ++ drift u.now v.now) }
{
    add_row(alloc, rows, u, &u.child(alloc, 1)?)?;
    add_row(alloc, rows, &v.child(alloc, 1)?, &u.child(alloc, 2)?)?;
    add_row(alloc, rows, &v.child(alloc, 2)?, v)
}

// Adds the rows t to u, u to t1, v to y, y1 to t2 and y2 to v.
fn add_wheel(
    alloc: Global,
    rows: &mut Rows,
    t: &Word,
    u: &Word,
    v: &Word,
    y: &Word,
) -> Result<(), NoMemory>
    ensures { OnOk result (rows.new ≡ rows.old ++ wheel t.now u.now v.now y.now) }
{
    add_row(alloc, rows, t, u)?;
    add_row(alloc, rows, u, &t.child(alloc, 1)?)?;
    add_row(alloc, rows, v, y)?;
    add_row(alloc, rows, &y.child(alloc, 1)?, &t.child(alloc, 2)?)?;
    add_row(alloc, rows, &y.child(alloc, 2)?, v)
}

// Adds a row. Copies the words.
pub(crate) fn add_row(
    alloc: Global,
    rows: &mut Rows,
    from: &Word,
    to: &Word,
) -> Result<(), NoMemory>
    ensures { OnOk result (rows.new ≡ rows.old ++ sends from.now to.now ∷ []) }
{
    let from = from.copy(alloc)?;
    let to = to.copy(alloc)?;
    rows.push(Row { from, to })
}
