// What the generator draws with.
ghost use Rattle.std.specs.Prelude.{◌≡◌, ◌<◌};
ghost use Rattle.season_generator.specs.Draws.{drawn, next};

/// A linear congruential generator over 64 bits, with Knuth's multiplier for MMIX.
#[derive(Clone, Copy)]
pub(crate) struct Draws {
    state: u64,
}

const MULTIPLIER: u64 = 6_364_136_223_846_793_005;

const INCREMENT: u64 = 1_442_695_040_888_963_407;

impl Draws {
    /// The draws from a seed.
    pub(crate) fn new(seed: u32) -> Draws
        ensures { result.state ≡ seed }
    {
        Draws {
            state: u64::from(seed),
        }
    }

    /// A number below `n`.
    #[tactic(auto, using(crate::proofs::DrawLemmas::next_is, crate::proofs::DrawLemmas::value_below), unfolding(crate::specs::Draws::drawn))]
    pub(crate) fn draw(&mut self, n: u32) -> u32
        requires { 0 < n }
        ensures number { result ≡ drawn n self.old.state }
        ensures below { result < n }
        ensures state { self.new.state ≡ next self.old.state }
    {
        self.state = self.state.wrapping_mul(MULTIPLIER).wrapping_add(INCREMENT);
        (self.state / (1 << 33)) as u32 % n
    }
}
