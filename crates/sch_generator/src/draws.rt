//! Numbers that are drawn one after the other, as by the portable `rand` of ISO C (C11 7.22.2.2, the example).

ghost use Rattle.std.specs.Prelude.{◌≡◌, ◌<◌};
ghost use Rattle.sch_generator.specs.Draws.{draw};

const MULTIPLIER: u64 = 1_103_515_245;

const INCREMENT: u64 = 12_345;

/// A state has 31 bits.
const MODULUS: u64 = 1 << 31;

/// An answer is made of a state without its low 16 bits, which are the least random.
const DIVISOR: u32 = 1 << 16;

/// The state that numbers are drawn from.
#[derive(Drop)]
pub(crate) struct Draws {
    pub(crate) state: u32,
}

impl Draws {
    /// Draws a number below `bound`.
    #[tactic(auto, unfolding(crate::specs::Draws::draw))]
    pub(crate) fn draw(&mut self, bound: u32) -> u32
        requires { 0 < bound }
        ensures answer { result ≡ (draw self.old.state bound).answer }
        ensures state { self.new.state ≡ (draw self.old.state bound).state }
        ensures below { result < bound }
    {
        let next = (MULTIPLIER * u64::from(self.state) + INCREMENT) % MODULUS;
        self.state = next as u32;
        self.state / DIVISOR % bound
    }
}
