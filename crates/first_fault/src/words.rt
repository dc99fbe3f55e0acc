//! Cuts a text at a sign, and into words at its spaces.
ghost use Rattle.std.specs.Prelude.{◌≡◌, ◌<◌, ◌≤◌, ◌==◌, ◌⊎◌, [], ◌∷◌, false, length, slice_index, IfSome};
ghost use Rattle.std.specs.List.{position_or_len};
ghost use Rattle.std.specs.Option.{option_map_or};
ghost use Rattle.first_fault.specs.Words.{is_space, words_of};

/// The first word of a text and the rest after it; `None` if the text has no word.
pub fn next_word(text: &[u8]) -> Option<(&[u8], &[u8])>
    ensures words { words_of text.now
        ≡ option_map_or (λ cut. cut.0.now ∷ words_of cut.1.now) result [] }
    ensures shorter { IfSome result (λ cut. length cut.1.now < length text.now) }
{
    let text = skip_spaces(text);
    if text.is_empty() {
        return None;
    }
    let len = position_of(text, b' ');
    Some(text.split_at(len))
}

// The text without the spaces that it begins with.
fn skip_spaces(text: &[u8]) -> &[u8]
    ensures words { words_of result.now ≡ words_of text.now }
    ensures begins { result.now ≡ [] ⊎ is_space (slice_index result.now 0) ≡ false }
    ensures shorter { length result.now ≤ length text.now }
{
    let mut rest = text;
    while let [b' ', behind @ ..] = rest {
        rest = behind;
    }
    rest
}

/// The number of bytes before the first such sign.
pub fn position_of(text: &[u8], sign: u8) -> usize
    ensures { result ≡ position_or_len (λ other. other == sign) text.now }
{
    for (index, other) in text.iter().enumerate() {
        if *other == sign {
            return index;
        }
    }
    text.len()
}
