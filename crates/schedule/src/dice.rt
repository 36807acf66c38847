use rand_pcg::Lcg64Xsh32;
use rand_pcg::rand_core::utils::NextWord;
use std::marker::Model;

/// Dice that draw words of 32 bits: those of the generator PCG XSH RR 64/32 (`Lcg64Xsh32`), from a seed, on a stream.
#[derive(Drop)]
pub struct Dice {
    words: Lcg64Xsh32,
}

impl Model for Dice {
    ghost use Rattle.rand_pcg.specs.Lcg.{Lcg};

    ghost Value = { Lcg };

    ghost view = { λ d. d.words };
}

impl Dice {
    ghost use Rattle.std.specs.Prelude.{◌≡◌, ◌<◌, ◌%◌};
    ghost use Rattle.rand_pcg.specs.Lcg.{next};
    ghost use Rattle.rand_pcg.specs.Pcg.{multiplier_64};
    ghost use Rattle.schedule.specs.Words.{dice, word_of};

    /// Dice that haven't drawn yet. The same seed and stream draw the same words.
    pub fn new(seed: u64, stream: u64) -> Dice
        ensures { result ≡ dice seed stream }
    {
        Dice {
            words: Lcg64Xsh32::new(seed, stream),
        }
    }

    /// Draws one word, and answers it modulo `n`: one of n choices. With n = 2^32 that is the word itself.
    #[inline(always)]
    pub fn pick(&mut self, n: u64) -> u32
        requires some { 0 < n }
        ensures word { result ≡ word_of self.old % n }
        ensures next { self.new ≡ next 64 multiplier_64 self.old }
    {
        let word: u32 = self.words.next_word();
        (u64::from(word) % n) as u32
    }
}
