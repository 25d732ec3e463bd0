// Numbers that are drawn from a seed.
ghost use Rattle.std.specs.Prelude.{◌<◌};

use rand_core::utils::NextWord;
use rand_pcg::Lcg64Xsh32;

/// The stream of the generator.
const STREAM: u64 = 11;

/// The draws of one seed.
#[derive(Drop)]
pub(crate) struct Dice {
    generator: Lcg64Xsh32,
}

impl Dice {
    /// The draws of a seed.
    pub(crate) fn new(seed: u64) -> Dice {
        Dice {
            generator: Lcg64Xsh32::new(seed, STREAM),
        }
    }

    /// Any number.
    pub(crate) fn word(&mut self) -> u32 {
        self.generator.next_word()
    }

    /// A number below the limit.
    pub(crate) fn below(&mut self, limit: u32) -> u32
        requires { 0 < limit }
        ensures { result < limit }
    {
        self.word() % limit
    }

    /// A position below the length.
    pub(crate) fn place(&mut self, len: usize) -> usize
        requires { 0 < len }
        ensures { result < len }
    {
        self.word() as usize % len
    }

    /// True once in so many draws.
    pub(crate) fn is_one_in(&mut self, count: u32) -> bool
        requires { 0 < count }
    {
        self.below(count) == 0
    }
}
