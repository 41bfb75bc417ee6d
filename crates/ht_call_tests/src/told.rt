//! What is told of elements with their kinds. One function owns such an element: where it is let go, the
//! prover goes through all that it keeps.
use crate::atoms::{told_atoms, told_links};
use crate::local::told_conjugacy;
use crate::texts::element_of;
use crate::walks::all_behind;
use ht_quasi::quasinormal;
use ht_types::{Typed, types};
use ht_word::Shape;
use std::alloc::Global;
use std::process::Abort;
use std::test::Fail;

// What an element with its kinds is asked.
#[derive(Clone, Copy, Debug)]
pub(crate) enum Asked<'a> {
    Atoms,
    Links,
    Behind,
    Into(&'a str),
}

// What the element of G(n,r) with these rows tells.
pub(crate) fn told_of(
    rt: &impl Abort,
    alloc: Global,
    n: u32,
    r: u32,
    rows: &str,
    asked: Asked<'_>,
) -> Result<String, Fail> {
    let element = element_of(alloc, Shape::new(n, r)?, rows)?;
    let typed = types(alloc, &element, quasinormal(alloc, &element, 9)?)?;
    match asked {
        Asked::Atoms => told_atoms(alloc, &typed),
        Asked::Links => told_links(alloc, &typed),
        Asked::Behind => all_behind(rt, alloc, &typed),
        Asked::Into(other) => told_with(alloc, &typed, other),
    }
}

// What it tells with the element of these other rows.
fn told_with(alloc: Global, f: &Typed, rows: &str) -> Result<String, Fail> {
    let element = element_of(alloc, f.element().shape(), rows)?;
    let g = types(alloc, &element, quasinormal(alloc, &element, 9)?)?;
    told_conjugacy(alloc, f, &g)
}
