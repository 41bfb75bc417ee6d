//! The numbers that are drawn.
ghost use Rattle.std.specs.Prelude.{◌≡◌, ◌<◌};
ghost use Rattle.ht_sample.specs.Draws.{next_state, drawn};

// What the next numbers depend on.
#[derive(Drop)]
pub(crate) struct Draws {
    pub state: u64,
}

impl Draws {
    // A number below k.
    pub fn draw(&mut self, k: usize) -> usize
        requires { 0 < k }
        ensures drawn { result ≡ drawn self.old.state k }
        ensures state { self.new.state ≡ next_state self.old.state }
        ensures below { result < k }
    {
        self.state = next(self.state);
        ((self.state >> 33) % k as u64) as usize
    }
}

// The state behind a state.
fn next(state: u64) -> u64
    ensures { result ≡ next_state state }
{
    state
        .wrapping_mul(6_364_136_223_846_793_005)
        .wrapping_add(1_442_695_040_888_963_407)
}
