//! Whether a power of an element carries a word to a word, tried in full.
ghost use Rattle.std.specs.Prelude.{◌↔◌, IfOk, IsTrue};
ghost use Rattle.ht_word.specs.Words.{IsWordOf};
ghost use Rattle.ht_pair.specs.Orbits.{ShareOrbit};

use ht_ops::Image;
use ht_pair::Element;
use ht_word::{NoMemory, Word};
use std::alloc::Global;

// Whether the k-th power of the element carries the one word to the other, by |k| steps of the image.
pub(crate) fn carries(
    alloc: Global,
    f: &Element,
    k: i128,
    u: &Word,
    v: &Word,
) -> Result<bool, NoMemory>
    requires { IsWordOf f.now.shape u.now }
    ensures { IfOk result (λ yes. IsTrue yes ↔ ShareOrbit f.now.shape f.now.rows u.now v.now k) }
{
    f.keeps_limits();
    let image = Image::cone(alloc, u.copy(alloc)?)?.walk(alloc, f, k)?;
    let Some(word) = image.as_word() else {
        return Ok(false);
    };
    Ok(word.same(v))
}
