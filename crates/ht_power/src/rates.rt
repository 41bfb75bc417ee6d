//! The common period of the ends, and how fast an element draws words to them.
ghost use Rattle.std.specs.Prelude.{◌≡◌, ◌≤◌, ◌<◌, ◌^◌, ℕ, length, IfSome};
ghost use Rattle.std.specs.Int.{◌∣◌};
ghost use Rattle.ht_pair.specs.Rates.{IsPeriod};
ghost use Rattle.ht_power.specs.RatesTold.{TellsEnd, TellsJoined, TellsPeriod, TellsRate, TellsRates};

use ht_num::{lcm, plus, times};
use ht_types::{Direction, Kind, Typed};

// The common period of the ends of two elements, and the letters that each brings in it: at its attractors,
// and at its repellers.
#[derive(Clone, Copy, Debug)]
pub(crate) struct Rates {
    pub(crate) period: u128,
    pub(crate) first_ahead: u128,
    pub(crate) first_behind: u128,
    pub(crate) second_ahead: u128,
    pub(crate) second_behind: u128,
}

// The rates of two elements; `None` exactly where one of the numbers exceeds 2^127-1.
pub(crate) fn rates_of(f: &Typed, g: &Typed) -> Option<Rates>
    requires { g.now.element.shape ≡ f.now.element.shape }
    ensures { TellsRates f.now g.now result }
{
    f.keeps_kinds();
    g.keeps_kinds();
    let period = joined_period(g, joined_period(f, 1)?)?;
    Some(Rates {
        period,
        first_ahead: rate_sum(f, Direction::Ahead, period)?,
        first_behind: rate_sum(f, Direction::Behind, period)?,
        second_ahead: rate_sum(g, Direction::Ahead, period)?,
        second_behind: rate_sum(g, Direction::Behind, period)?,
    })
}

// The least common multiple of a number and the periods of all ends. One pass over the words; takes no memory.
fn joined_period(t: &Typed, number: u128) -> Option<u128>
    requires { (1 ≤ number) × (number < 2 ^ 127) }
    ensures { TellsJoined t.now number result }
{
    t.keeps_kinds();
    let mut joined = number;
    for place in 0..t.quasi().basis.words().len() {
        let Some(m) = period_at(t, place) else {
            continue;
        };
        joined = lcm(joined, m)?;
    }
    Some(joined)
}

// The period of the word of the basis at a place, where walks end there. Constant time; takes no memory.
fn period_at(t: &Typed, place: usize) -> Option<u128>
    requires { place < length t.now.quasi.basis.words }
    ensures period { TellsPeriod t.now place result }
    ensures short { IfSome result (λ m. m < 2 ^ 64) }
{
    t.keeps_kinds();
    match t.kind(place) {
        Kind::Attractor { m, .. } | Kind::Repeller { m, .. } => Some(u128::from(*m)),
        _ => None,
    }
}

// The letters that all ends of walks in the direction bring in a common period. One pass; takes no memory.
fn rate_sum(t: &Typed, direction: Direction, period: u128) -> Option<u128>
    requires low { (1 ≤ period) × (period < 2 ^ 127) }
    requires common { (m : ℕ) → IsPeriod t.now.element.shape t.now.element.rows t.now.quasi.basis.words m → m ∣ period }
    ensures { TellsRate direction t.now period result }
{
    t.keeps_kinds();
    let mut total = 0;
    for place in 0..t.quasi().basis.words().len() {
        let Some((m, letters)) = end_at(t, direction, place) else {
            continue;
        };
        total = plus(total, times(letters, period / m)?)?;
    }
    Some(total)
}

// The period and the number of letters of the word of the basis at a place, where walks in the direction end
// there. Constant time; takes no memory.
fn end_at(t: &Typed, direction: Direction, place: usize) -> Option<(u128, u128)>
    requires { place < length t.now.quasi.basis.words }
    ensures end { TellsEnd direction t.now place result }
    ensures short { IfSome result (λ end. end.1 < 2 ^ 64) }
{
    match direction {
        Direction::Ahead => attractor_at(t, place),
        Direction::Behind => repeller_at(t, place),
    }
}

// The same where the word is an attractor.
fn attractor_at(t: &Typed, place: usize) -> Option<(u128, u128)>
    requires { place < length t.now.quasi.basis.words }
    ensures end { TellsEnd Direction.Ahead t.now place result }
    ensures short { IfSome result (λ end. end.1 < 2 ^ 64) }
{
    t.keeps_kinds();
    match t.kind(place) {
        Kind::Attractor { m, by } => Some((u128::from(*m), by.len() as u128)),
        _ => None,
    }
}

// And where it is a repeller.
fn repeller_at(t: &Typed, place: usize) -> Option<(u128, u128)>
    requires { place < length t.now.quasi.basis.words }
    ensures end { TellsEnd Direction.Behind t.now place result }
    ensures short { IfSome result (λ end. end.1 < 2 ^ 64) }
{
    t.keeps_kinds();
    match t.kind(place) {
        Kind::Repeller { m, by } => Some((u128::from(*m), by.len() as u128)),
        _ => None,
    }
}
