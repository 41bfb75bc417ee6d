//! Atoms, and links of their ends.
use crate::texts::add_word;
use crate::told::{Asked, told_of};
use ht_atoms::atoms;
use ht_links::links;
use ht_types::{Places, Reach, Typed};
use std::alloc::Global;
use std::test::Fail;

// Elements of G(n,r) and the places of the words of each atom. `checks/atoms.py` makes these anew by the
// definition. In the first one words are joined beside a pond and over it, and root 6 is apart.
const ATOMS: [(u32, u32, &str, &str); 12] = [
    (
        2,
        6,
        "x1.1>x1;x1.2>x5;x2>x4.21;x3>x4.22;x4>x4.1;x5.1>x2;x5.2>x3;x6.1>x6.11;x6.21>x6.12;x6.22>x6.2",
        "0 1 2 3 4;5 6;",
    ),
    (
        2,
        2,
        "x1.111>x1.122;x1.112>x1.1212;x1.121>x1.1211;x1.122>x1.11;x1.2>x1.22;x2.1>x2;x2.2>x1.21",
        "0 1 2;3 4;",
    ),
    (
        2,
        2,
        "x1.1>x1.11;x1.21>x1.2;x1.22>x1.12;x2.1>x2.2112;x2.211>x2.212;x2.212>x2.2111;x2.221>x2.22;x2.222>x2.1",
        "0 1;2 3 4 5;",
    ),
    (2, 2, "x1.1>x1;x1.2>x2.2;x2>x2.1", "0 1;"),
    (
        2,
        2,
        "x1.11>x2.2;x1.12>x1.1;x1.21>x1.22;x1.22>x1.21;x2>x2.1",
        "0 3;",
    ),
    (
        3,
        1,
        "x1.1>x1.13;x1.21>x1.2;x1.22>x1.11;x1.23>x1.12;x1.3>x1.3",
        "0 1;",
    ),
    (
        3,
        2,
        "x1.1>x1.1;x1.2>x1.3;x1.3>x1.2;x2.1>x2.11;x2.2>x2.31;x2.31>x2.2;x2.32>x2.33;x2.331>x2.12;x2.332>x2.32;x2.333>x2.13",
        "3 6 7;",
    ),
    (
        2,
        4,
        "x1.111>x2.2;x1.112>x2.11;x1.12>x2.12;x1.21>x4.1;x1.22>x1.2;x2.1>x1.12;x2.2>x1.11;x3>x4.2;x4>x3",
        "0 1 3 4;2 5 6;",
    ),
    (3, 1, "x1.1>x1.3;x1.2>x1.1;x1.3>x1.2", ""),
    (
        2,
        1,
        "x1.1>x1.112;x1.21>x1.111;x1.221>x1.12;x1.222>x1.2",
        "0 1;",
    ),
    (
        2,
        1,
        "x1.1>x1.121;x1.21>x1.122;x1.221>x1.11;x1.222>x1.2",
        "0 1;",
    ),
    (
        2,
        2,
        "x1.1>x2.222;x1.2>x1;x2.11>x2.212;x2.12>x2.1;x2.21>x2.221;x2.22>x2.211",
        "0 1 2 3;",
    ),
];

fn add_places(alloc: Global, places: &Places, text: &mut String) -> Result<(), Fail> {
    for (index, place) in places.as_slice().iter().enumerate() {
        let before = if index == 0 { "" } else { " " };
        text.push_str(&format!(in alloc; "{before}{place}")?)?;
    }
    text.push(';')?;
    Ok(())
}

pub(crate) fn told_atoms(alloc: Global, typed: &Typed) -> Result<String, Fail> {
    let mut text = String::new(alloc);
    for places in atoms(alloc, typed)?.as_slice() {
        add_places(alloc, places, &mut text)?;
    }
    Ok(text)
}

#[test]
fn atoms_are_the_finest_pieces(rt: HostRuntime) -> Result<(), Fail> {
    for (n, r, rows, wanted) in ATOMS {
        let text = told_of(&rt, rt.alloc(), n, r, rows, Asked::Atoms)?;
        assert_eq!(rt; text.as_str(), wanted);
    }
    Ok(())
}

// The steps of the reach, the place and the letters.
fn add_reach(alloc: Global, reach: &Reach, text: &mut String) -> Result<(), Fail> {
    let rest = reach.rest.as_slice();
    text.push_str(&format!(in alloc; "{} {}{rest:?};", reach.steps, reach.to)?)?;
    Ok(())
}

pub(crate) fn told_links(alloc: Global, typed: &Typed) -> Result<String, Fail> {
    let mut text = String::new(alloc);
    for link in links(alloc, typed)?.as_slice() {
        add_word(alloc, &link.cone, &mut text)?;
        add_reach(alloc, &link.ahead, &mut text)?;
        add_reach(alloc, &link.behind, &mut text)?;
    }
    Ok(text)
}

// From the repeller x1 to the attractor x2: a link for each row, and two for each of these words.
#[test]
fn links_join_the_ends_of_an_atom(rt: HostRuntime) -> Result<(), Fail> {
    let text = told_of(
        &rt,
        rt.alloc(),
        2,
        2,
        "x1.1>x1;x1.2>x2.2;x2>x2.1",
        Asked::Links,
    )?;
    let wanted =
        "x1.12 2 1[2];0 0[1, 2];x1.2 1 1[2];0 0[2];x2.2 0 1[2];1 0[2];x1.2 1 1[2];0 0[2];x1.2 1 1[2];1 0[1, 2];x2.2 0 1[2];1 0[2];x2.2 1 1[1, 2];1 0[2];";
    assert_eq!(rt; text.as_str(), wanted);
    Ok(())
}
