//! Whether elements are conjugate.
ghost use Rattle.std.specs.Prelude.{◌≡◌, IfOk};
ghost use Rattle.ht_pair.specs.Verdicts.{IsVerdict};

use crate::matching::with_atoms;
use ht_cycles::match_cycles;
use ht_pair::{Verdict, reduce_rows};
use ht_types::{Sharing, Typed};
use ht_word::NoMemory;
use std::alloc::Global;

/// Whether an element conjugates `f` into `g`, both of one shape; `share` answers for `g`. `Conjugate`
/// holds the canonical rows of a normal conjugator, which is this project's own notion; `NotConjugate`
/// comes exactly where no element conjugates (Higman 1974; Barker, Duncan and Robertson 2016).
///
/// The periodic parts are matched by their profiles. The atoms of `g` are put into classes of conjugate
/// ones, and then each atom of `f` takes the last free atom of the first class that it is conjugate to.
/// An atom is compared with one of each class, and by `local` only where the ends of both are equal: as
/// many attractors and as many repellers of each period and number of letters. For A atoms, of which none
/// has the ends of more than C classes, these are at most 2AC calls of `local`. Beside these O(N log N)
/// comparisons of words for N words and rows of both, and what `links` takes.
pub fn conjugate<S: Sharing>(
    alloc: Global,
    f: &Typed,
    g: &Typed,
    share: &S,
) -> Result<Verdict, NoMemory>
    requires shape { g.now.element.shape ≡ f.now.element.shape }
    requires share { S.typed share.now ≡ g.now }
    ensures { IfOk result (IsVerdict f.now.element.shape f.now.element.rows g.now.element.rows) }
{
    f.keeps_kinds();
    g.keeps_kinds();
    let Some(cycles) = match_cycles(alloc, f, g)? else {
        return Ok(Verdict::NotConjugate);
    };
    let Some(rows) = with_atoms(alloc, f, g, share, cycles)? else {
        return Ok(Verdict::NotConjugate);
    };
    let reduced = reduce_rows(alloc, f.element().shape(), rows)?;
    Ok(Verdict::Conjugate(reduced))
}
