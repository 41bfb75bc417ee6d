//! The value of conjugators at one end of a link, from that at its other end.
ghost use Rattle.std.specs.Prelude.{◌≡◌, ◌+◌, ◌<◌, ◌^◌, Some, length, nat_abs, IfOk};
ghost use Rattle.ht_word.specs.Words.{◌·◌, IsLetters, IsUnderSome, IsWordOf};
ghost use Rattle.ht_types.specs.Links.{IsLink, reach_in};
ghost use Rattle.ht_local.specs.Crossings.{power_across, IsFarWord, IsLedBy, IsRightAcross, IsShared};
ghost use Rattle.ht_local.specs.KnownValues.{IsHeld};

use crate::front::turned_front;
use crate::known::Known;
use crate::led::{Led, led_by};
use ht_types::{Direction, Exit, Link, Reach, Sharing, Typed, exit_of};
use ht_word::{Letters, NoMemory, Word};
use std::alloc::Global;

// The value at the far end of the link, from that at its end in the direction (ahead: the attractor's); `None`
// only where no conjugator has the one that is known. As many steps of g as the known power and the link's
// steps make, at most, with letters put behind where a step splits; one exit, and one question whether words
// share an orbit: of the words under the end where the exit leads the lengths leave one.
pub(crate) fn across<S: Sharing>(
    alloc: Global,
    f: &Typed,
    g: &Typed,
    share: &S,
    link: &Link,
    direction: Direction,
    near: &Known,
) -> Result<Option<Known>, NoMemory>
    requires shape { g.now.element.shape ≡ f.now.element.shape }
    requires share { S.typed share.now ≡ g.now }
    requires link { IsLink f.now link.now }
    requires near { IsHeld g.now near.now }
    ensures held { IfOk result (λ found. (far : Known) → found ≡ Some far → IsHeld g.now far) }
    ensures right { IfOk result (IsRightAcross f.now g.now link.now direction near.now) }
{
    f.keeps_kinds();
    g.keeps_kinds();
    let far = link.reach(direction.opposite());
    let way = led_across(alloc, g, link, direction, near)?;
    let to = g
        .quasi()
        .basis
        .words()
        .at(way.walk.to)
        .joined(alloc, way.walk.rest.as_slice())?;
    let exit = exit_of(alloc, g, direction.opposite(), &to)?;
    let Some(word) = far_word(alloc, f, g, &exit, far, &way.letters)? else {
        return Ok(None);
    };
    shared(alloc, g, share, word, far, &way.letters, &to)
}

// The known word with the letters of its reach, led by the known power and by the steps of the link, against
// the direction.
fn led_across(
    alloc: Global,
    g: &Typed,
    link: &Link,
    direction: Direction,
    near: &Known,
) -> Result<Led, NoMemory>
    requires near { IsHeld g.now near.now }
    requires letters { IsLetters g.now.element.shape (reach_in direction link.now).rest }
    requires few { (link.now.ahead.steps < 2 ^ 121) × (link.now.behind.steps < 2 ^ 121) }
    ensures { IfOk result (IsLedBy g.now (power_across direction near.now.power (link.now.ahead.steps + link.now.behind.steps)) (near.now.word · (reach_in direction link.now).rest)) }
{
    let power = power_across(direction, near.power, link.ahead.steps + link.behind.steps);
    let reach = link.reach(direction);
    let from = near.word.joined(alloc, reach.rest.as_slice())?;
    led_by(alloc, g, power, &from)
}

// The word where the exit ends, with the front of its letters behind it that the lengths leave; none where the
// letters of the far end aren't these, turned by that front.
fn far_word(
    alloc: Global,
    f: &Typed,
    g: &Typed,
    exit: &Exit,
    far: &Reach,
    led: &Letters,
) -> Result<Option<Word>, NoMemory>
    requires exit { exit.now.to < length g.now.quasi.basis.words }
    requires far { far.now.to < length f.now.quasi.basis.words }
    ensures { IfOk result (IsFarWord f.now g.now exit.now far.now led.now) }
{
    let behind = far.rest.len() as u128 + led.len() as u128 + exit.letters.len() as u128;
    let before = exit.rest.len() as u128;
    let Some(front) = turned_front(alloc, g.kind(exit.to), f.kind(far.to), before, behind)? else {
        return Ok(None);
    };
    let end = g.quasi().basis.words().at(exit.to);
    Ok(Some(end.joined(alloc, front.as_slice())?))
}

// The word, and the power that carries it with the letters behind it to the other word.
fn shared<S: Sharing>(
    alloc: Global,
    g: &Typed,
    share: &S,
    word: Word,
    far: &Reach,
    led: &Letters,
    to: &Word,
) -> Result<Option<Known>, NoMemory>
    requires share { S.typed share.now ≡ g.now }
    requires word { IsWordOf g.now.element.shape ((word · far.now.rest) · led.now) × IsUnderSome ((word · far.now.rest) · led.now) g.now.quasi.basis.words }
    requires to { IsWordOf g.now.element.shape to.now × IsUnderSome to.now g.now.quasi.basis.words }
    ensures { IfOk result (IsShared g.now word far.now led.now to.now) }
{
    let mut asked = word.joined(alloc, far.rest.as_slice())?;
    asked.letters.extend(led.as_slice())?;
    let Some(power) = share.share(alloc, &asked, to)? else {
        return Ok(None);
    };
    Ok(Some(Known { word, power }))
}

// So many steps more against the direction.
fn power_across(direction: Direction, power: i128, steps: u128) -> i128
    requires power { nat_abs power < 2 ^ 122 }
    requires steps { steps < 2 ^ 122 }
    ensures power { result ≡ power_across direction power steps }
    ensures few { nat_abs result < 2 ^ 123 }
{
    match direction {
        Direction::Ahead => power - steps as i128,
        Direction::Behind => power + steps as i128,
    }
}
