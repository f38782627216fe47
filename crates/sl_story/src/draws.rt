//! Draws: numbers that follow from a seed.

ghost use Rattle.std.specs.Prelude.{◌<◌};

use rand_core::utils::NextWord;
use rand_pcg::Pcg32;

/// Which of the generator's streams is used.
const STREAM: u64 = 54;

/// What is left of a seed's draws.
#[derive(Drop)]
pub(crate) struct Draws {
    words: Pcg32,
}

impl Draws {
    /// The draws of a seed.
    pub(crate) fn new(seed: u64) -> Draws {
        Draws {
            words: Pcg32::new(seed, STREAM),
        }
    }

    /// A number below `bound`.
    pub(crate) fn below(&mut self, bound: u32) -> u32
        requires { 0 < bound }
        ensures { result < bound }
    {
        self.words.next_word() % bound
    }

    /// Whether it comes to pass, where it does so once in so many times.
    pub(crate) fn once_in(&mut self, times: u32) -> bool
        requires { 0 < times }
    {
        self.below(times) == 0
    }

    /// One of these.
    pub(crate) fn one_of(&mut self, numbers: &[u32], other: u32) -> u32 {
        match u32::try_from(numbers.len()) {
            Ok(count) if count > 0 => {
                let at = self.below(count);
                numbers.get(at as usize).copied().unwrap_or(other)
            }
            _ => other,
        }
    }
}
