// The words of a generator.
ghost use Rattle.std.specs.Prelude.{◌≡◌};
ghost use Rattle.nl_gen.specs.Soak as soak;
ghost use Rattle.nl_gen.specs.Soak.{first_word, after_word, after_line};

use crate::drawn::{Drawn, of_draws};
use rand_core::utils::NextWord;
use rand_pcg::Lcg64Xsh32;

#[tactic(auto, unfolding(crate::specs::Soak::first_word, crate::specs::Soak::after_word))]
fn word(generator: &mut Lcg64Xsh32) -> u32
    ensures word { result ≡ first_word generator.old }
    ensures after { generator.new ≡ after_word generator.old }
{
    generator.next_word()
}

/// Draws the call of a line.
pub(crate) fn draw(generator: &mut Lcg64Xsh32) -> Drawn
    ensures drawn { result ≡ soak.drawn_of (first_word generator.old) (first_word (after_word generator.old))
        (first_word (after_word (after_word generator.old))) }
    ensures after { generator.new ≡ after_line generator.old }
{
    let r = word(generator);
    let a = word(generator);
    let b = word(generator);
    of_draws(r, a, b)
}
