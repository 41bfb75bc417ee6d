//! Conjugacy on the atoms of two elements.
ghost use Rattle.std.specs.Prelude.{◌≡◌, All};
ghost use Rattle.ht_pair.specs.Atoms.{IsAtom};
ghost use Rattle.ht_types.specs.Links.{ConnectEnds, IsLink};

use crate::told::{Asked, told_of};
use ht_atoms::atoms;
use ht_links::links;
use ht_local::local;
use ht_share::Sharer;
use ht_types::{Links, Places, Typed};
use std::alloc::Global;
use std::test::Fail;

// Elements of G(n,r), and for each atom of the first whether some rows conjugate on it into each atom of the
// second: `+` or `-`. In the third and fourth pair steps and letters agree. In the fifth rows that commute go
// twice over one of two atoms. The seventh takes the second round of attractors, and the eighth letters behind an
// attractor. In the ninth the powers at the two ends differ, and in the last the atoms have two and three words.
const PAIRS: [(u32, u32, &str, &str, &str); 10] = [
    (
        2,
        1,
        "x1.1>x1.112;x1.21>x1.111;x1.221>x1.12;x1.222>x1.2",
        "x1.1>x1.121;x1.21>x1.122;x1.221>x1.11;x1.222>x1.2",
        "+;",
    ),
    (
        2,
        1,
        "x1.1>x1.11;x1.21>x1.12;x1.22>x1.2",
        "x1.11>x1.1;x1.12>x1.21;x1.2>x1.22",
        "-;",
    ),
    (
        2,
        2,
        "x1.1>x1;x1.2>x2.2;x2>x2.1",
        "x1.1>x1;x1.21>x2.22;x1.22>x2.21;x2>x2.1",
        "-;",
    ),
    (
        2,
        2,
        "x1.1>x2.2;x1.21>x2.11;x1.22>x1;x2>x2.12",
        "x1.11>x2.21;x1.12>x2.11;x1.21>x2.22;x1.22>x1;x2>x2.12",
        "-;",
    ),
    (
        2,
        4,
        "x1>x1.11;x2>x2.11;x3.1>x1.12;x3.21>x2.2;x3.22>x3;x4.1>x2.12;x4.21>x1.2;x4.22>x4",
        "x1>x1.11;x2>x2.11;x3.1>x1.12;x3.21>x1.2;x3.22>x3;x4.1>x2.12;x4.21>x2.2;x4.22>x4",
        "--;",
    ),
    (
        2,
        4,
        "x1>x1.11;x2>x2.11;x3.1>x1.12;x3.21>x1.2;x3.22>x3;x4.1>x2.12;x4.21>x2.2;x4.22>x4",
        "x1>x1.11;x2>x2.11;x3.1>x1.12;x3.21>x1.2;x3.22>x3;x4.1>x2.12;x4.21>x2.2;x4.22>x4",
        "++;++;",
    ),
    (
        2,
        2,
        "x1.1>x2.11;x1.21>x1;x1.22>x2.21;x2.1>x2.12;x2.2>x2.22",
        "x1>x1.2;x2.1>x2.12;x2.21>x2.11;x2.221>x2.2;x2.222>x1.1",
        "+;",
    ),
    (
        2,
        1,
        "x1.1>x1.111;x1.21>x1.112;x1.221>x1.2;x1.222>x1.12",
        "x1.111>x1.22;x1.112>x1.1;x1.12>x1.212;x1.2>x1.211",
        "+;",
    ),
    (
        2,
        2,
        "x1.1>x1;x1.2>x2.2;x2>x2.1",
        "x1>x1.1;x2.1>x1.2;x2.21>x2.2;x2.22>x2.1",
        "+;",
    ),
    (
        2,
        1,
        "x1.1>x1.11;x1.21>x1.2;x1.22>x1.12",
        "x1.1>x1.212;x1.21>x1.211;x1.221>x1.22;x1.222>x1.1",
        "+;",
    ),
];

// Whether some rows conjugate on the one atom into the other.
fn sign(
    alloc: Global,
    f: &Typed,
    k: &Places,
    links: &Links,
    g: &Typed,
    l: &Places,
) -> Result<char, Fail>
    requires shape { g.now.element.shape ≡ f.now.element.shape }
    requires first { IsAtom f.now.element.shape f.now.element.rows f.now.quasi.basis.words k.now }
    requires second { IsAtom g.now.element.shape g.now.element.rows g.now.quasi.basis.words l.now }
    requires links { All (IsLink f.now) links.now }
    requires connected { ConnectEnds f.now k.now links.now }
{
    Ok(match local(alloc, f, k, links, g, l, &Sharer::new(g))? {
        Some(_) => '+',
        None => '-',
    })
}

pub(crate) fn told_conjugacy(alloc: Global, f: &Typed, g: &Typed) -> Result<String, Fail>
    requires { g.now.element.shape ≡ f.now.element.shape }
{
    let joined = links(alloc, f)?;
    let others = atoms(alloc, g)?;
    let mut text = String::new(alloc);
    for k in atoms(alloc, f)?.as_slice() {
        for l in others.as_slice() {
            text.push(sign(alloc, f, k, &joined, g, l)?)?;
        }
        text.push(';')?;
    }
    Ok(text)
}

#[test]
fn atoms_are_conjugate_where_some_rows_conjugate(rt: HostRuntime) -> Result<(), Fail> {
    for (n, r, first, second, wanted) in PAIRS {
        let text = told_of(&rt, rt.alloc(), n, r, first, Asked::Into(second))?;
        assert_eq!(rt; text.as_str(), wanted);
    }
    Ok(())
}
