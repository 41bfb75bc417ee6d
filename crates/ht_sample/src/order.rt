//! Places in a random order.
ghost use Rattle.std.specs.Prelude.{◌≡◌, IfOk};
ghost use Rattle.ht_sample.specs.Shuffles.{places_to, shuffled};

use crate::draws::Draws;
use ht_word::NoMemory;
use std::alloc::Global;

// How many places there are.
const PLACES: usize = 4_000;

// The places 0 to 3,999 in a random order.
pub(crate) fn shuffled_places(alloc: Global, draws: &mut Draws) -> Result<Vec<usize>, NoMemory>
    ensures { IfOk result (λ order. order.items ≡ shuffled 3999 draws.old.state (places_to 4000)) }
{
    let mut order: Vec<usize> = (0..PLACES).collect(alloc)?;
    let mut place = PLACES - 1;
    while place > 0 {
        let other = draws.draw(place + 1);
        order.swap(place, other);
        place -= 1;
    }
    Ok(order)
}
