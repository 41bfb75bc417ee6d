//! The links of the rows of what one step carries under the basis.
ghost use Rattle.std.specs.Prelude.{◌↔◌, [], ◌∷◌, Contains, IsTrue, IfOk, OnOk};
ghost use Rattle.ht_word.specs.Words.{IsUnderSome, IsWordOf};
ghost use Rattle.ht_types.specs.Flows.{IsUnderInfinite};
ghost use Rattle.ht_links.specs.Listing.{IsLinkUnder, AddsRowLinks};

use ht_pair::Row;
use ht_types::{Direction, Exit, Kind, Link, Links, Reach, Typed, exit_of};
use ht_word::{NoMemory, Word};
use std::alloc::Global;

// Adds a link for each row whose `from` word is under the infinite part.
pub(crate) fn add_row_links(alloc: Global, t: &Typed, links: &mut Links) -> Result<(), NoMemory>
    ensures { OnOk result (AddsRowLinks t.now t.now.quasi.y links.old links.new) }
{
    for row in t.quasi().y.as_slice() {
        add_row_link(alloc, t, row, links)?;
    }
    Ok(())
}

// Adds a link for the row if its `from` word is under the infinite part.
fn add_row_link(alloc: Global, t: &Typed, row: &Row, links: &mut Links) -> Result<(), NoMemory>
    requires { Contains t.now.quasi.y row.now }
    ensures { OnOk result (AddsRowLinks t.now (row.now ∷ []) links.old links.new) }
{
    t.keeps_kinds();
    if !is_infinite(t, &row.from) {
        return Ok(());
    }
    links.push(link_under(alloc, t, &row.from)?)
}

// Whether the word is under the infinite part. A binary search.
fn is_infinite(t: &Typed, word: &Word) -> bool
    requires { IsUnderSome word.now t.now.quasi.basis.words }
    ensures { IsTrue result ↔ IsUnderInfinite t.now.element.shape t.now.element.rows t.now.quasi.basis.words word.now }
{
    let Some(place) = t.quasi().basis.find(word) else {
        unreachable!()
    };
    match t.kind(place) {
        Kind::Cycle { .. } => false,
        _ => true,
    }
}

// A link under the word: with letters behind it the word comes under an attractor ahead, and with more
// letters, which stay behind there, under a repeller behind.
fn link_under(alloc: Global, t: &Typed, word: &Word) -> Result<Link, NoMemory>
    requires word { IsWordOf t.now.element.shape word.now }
    requires infinite { IsUnderInfinite t.now.element.shape t.now.element.rows t.now.quasi.basis.words word.now }
    ensures { IfOk result (IsLinkUnder t.now word.now) }
{
    let ahead = exit_of(alloc, t, Direction::Ahead, word)?;
    let longer = word.joined(alloc, ahead.letters.as_slice())?;
    let behind = exit_of(alloc, t, Direction::Behind, &longer)?;
    let cone = longer.joined(alloc, behind.letters.as_slice())?;
    let mut rest = ahead.rest;
    rest.extend(behind.letters.as_slice())?;
    Ok(Link {
        cone,
        ahead: Reach {
            steps: ahead.steps,
            to: ahead.to,
            rest,
        },
        behind: Reach {
            steps: behind.steps,
            to: behind.to,
            rest: behind.rest,
        },
    })
}
