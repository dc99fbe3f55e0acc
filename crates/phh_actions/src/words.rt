//! What comes after the first `#` of a text is commentary.
ghost use Rattle.std.specs.Prelude.{◌≡◌, bytes_eq};
ghost use Rattle.phh_actions.specs.Words as words;

use first_fault::position_of;

/// The text before its commentary.
pub fn strip_commentary(text: &[u8]) -> &[u8]
    ensures { result.now ≡ words.before_commentary text.now }
{
    let len = position_of(text, b'#');
    &text[..len]
}

/// Whether the word is this one.
pub fn is_word(word: &[u8], text: &str) -> bool
    ensures { result ≡ bytes_eq word.now text.now }
{
    word == text.as_bytes()
}
