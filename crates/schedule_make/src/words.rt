ghost use Rattle.std.specs.Prelude.{◌≡◌};
ghost use Rattle.rand_pcg.specs.Pcg.{pcg32};
ghost use Rattle.schedule_make.specs.Made.{after_words, words_of};

use rand_core::utils::NextWord;
use rand_pcg::Lcg64Xsh32;

/// The random words of one step.
#[derive(Clone, Copy, Debug, PartialEq, Eq)]
pub struct Words {
    /// Of which kind it is.
    pub kind: u32,
    /// Which of the candidates it names.
    pub number: u32,
    /// Which input it gives.
    pub input: u32,
}

// The next three words.
pub(crate) fn next_words(random: &mut Lcg64Xsh32) -> Words
    ensures words { result ≡ words_of random.old }
    ensures after { random.new ≡ after_words random.old }
{
    let kind = random.next_word();
    let number = random.next_word();
    let input = random.next_word();
    Words {
        kind,
        number,
        input,
    }
}
