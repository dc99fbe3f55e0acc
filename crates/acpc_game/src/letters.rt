//! Cuts a text into letters, each with the digits after it.
ghost use Rattle.std.specs.Prelude.{◌≡◌, ◌+◌, true, [], ◌∷◌, length};
ghost use Rattle.std.specs.List.{list_all, prefix_len};
ghost use Rattle.std.specs.Char.{is_digit};
ghost use Rattle.std.specs.Option.{option_map_or};
ghost use Rattle.acpc_game.specs.Letters.{scan};

/// The digits at the front, and the rest.
pub fn cut_digits(text: &[u8]) -> (&[u8], &[u8])
    ensures digits { (scan text.now).0 ≡ result.0.now }
    ensures letters { (scan text.now).1 ≡ (scan result.1.now).1 }
    ensures begins { (scan result.1.now).0 ≡ [] }
    ensures all { list_all (λ b. is_digit b 10) result.0.now ≡ true }
    ensures len { length result.0.now + length result.1.now ≡ length text.now }
{
    let len = digits_len(text);
    text.split_at(len)
}

// The number of digits at the front.
fn digits_len(text: &[u8]) -> usize
    ensures { result ≡ prefix_len (λ b. is_digit b 10) text.now }
{
    for (index, b) in text.iter().enumerate() {
        if !b.is_ascii_digit() {
            return index;
        }
    }
    text.len()
}

/// The first byte, and the rest.
pub fn cut_first(text: &[u8]) -> Option<(u8, &[u8])>
    ensures { text.now ≡ option_map_or (λ cut. cut.0 ∷ cut.1.now) result [] }
{
    match text {
        [first, behind @ ..] => Some((*first, behind)),
        [] => None,
    }
}
