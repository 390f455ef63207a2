ghost use Rattle.std.specs.Prelude.{◌≡◌, ◌==◌, [], ◌∷◌, MatchOption, position};
ghost use Rattle.app_text.specs.Words.{words_of};

/// The byte between two words.
pub const SPACE: u8 = b' ';

fn first_space(text: &[u8]) -> Option<usize>
    ensures { result ≡ position (λ b. b == 32) text.now }
{
    text.iter().position(|b| *b == SPACE)
}

/// The first word of a text, and what stands after its space. `None` comes exactly where the whole
/// text is one word.
pub fn cut_word(text: &[u8]) -> Option<(&[u8], &[u8])>
    ensures { MatchOption result (words_of text.now ≡ text.now ∷ []) (λ cut. words_of text.now ≡ cut.0.now ∷ words_of cut.1.now) }
{
    match first_space(text) {
        Some(place) => Some((&text[..place], &text[place + 1..])),
        None => None,
    }
}
