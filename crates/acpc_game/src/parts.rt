//! Cuts a text at a sign: a file at newlines, a line at colons, a field at bars and strokes.
ghost use Rattle.std.specs.Prelude.{◌≡◌, ◌+◌, ◌<◌, ◌≤◌, [], ◌∷◌, length, IfSome};
ghost use Rattle.std.specs.Option.{option_map_or};
ghost use Rattle.acpc_game.specs.Parts.{has_front, lines_of, parts_of};
ghost use Rattle.acpc_game.specs.Parts as parts;

use first_fault::position_of;
use memchr::memchr;

/// Whether the text begins with these bytes.
pub fn has_prefix(text: &[u8], front: &[u8]) -> bool
    ensures { result ≡ has_front front.now text.now }
{
    if text.len() < front.len() {
        return false;
    }
    let (first, _rest) = text.split_at(front.len());
    first == front
}

/// The first line of a text and the rest, if the text is not empty.
pub fn next_line(text: &[u8]) -> Option<(&[u8], &[u8])>
    ensures lines { lines_of text.now
        ≡ option_map_or (λ cut. cut.0.now ∷ lines_of cut.1.now) result [] }
    ensures shorter { IfSome result (λ cut. length cut.1.now < length text.now) }
    ensures within { IfSome result (λ cut. length cut.0.now ≤ length text.now) }
{
    if text.is_empty() {
        return None;
    }
    match memchr(b'\n', text) {
        Some(place) => Some((strip_carriage_return(&text[..place]), &text[place + 1..])),
        None => Some((strip_carriage_return(text), &[])),
    }
}

// The line without the carriage return at its end, if there is one.
fn strip_carriage_return(line: &[u8]) -> &[u8]
    ensures within { length result.now ≤ length line.now }
    ensures line { result.now ≡ parts.without_return line.now }
{
    if line.is_empty() {
        return line;
    }
    let last = line.len() - 1;
    if line[last] == b'\r' {
        &line[..last]
    } else {
        line
    }
}

/// The number of parts into which the sign divides the text.
pub fn count_parts(text: &[u8], sign: u8) -> usize
    ensures { result ≡ length (parts_of sign text.now) }
{
    let (_first, more) = cut_at(text, sign);
    let mut count = 1;
    let mut rest = more;
    while let Some(left) = rest {
        let (_part, more) = cut_at(left, sign);
        count += 1;
        rest = more;
    }
    count
}

/// The part before the first such sign, and what follows the sign, if there is one.
pub fn cut_at(text: &[u8], sign: u8) -> (&[u8], Option<&[u8]>)
    ensures parts { parts_of sign text.now
        ≡ result.0.now ∷ option_map_or (λ rest. parts_of sign rest.now) result.1 [] }
    ensures len { length text.now
        ≡ length result.0.now + option_map_or (λ rest. 1 + length rest.now) result.1 0 }
{
    let len = position_of(text, sign);
    if len == text.len() {
        return (text, None);
    }
    let (front, rest) = text.split_at(len);
    let (_sign, behind) = rest.split_at(1);
    (front, Some(behind))
}
