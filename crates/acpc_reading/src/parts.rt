//! Takes the parts of a field one after the other.
ghost use Rattle.std.specs.Prelude.{◌≡◌, ◌+◌, [], ◌∷◌, length, IfSome};
ghost use Rattle.std.specs.Option.{option_map_or};
ghost use Rattle.acpc_reading.specs.Left.{len_left, parts_left};

use acpc_game::cut_at;

/// The first part of the rest of a field, and what comes after its sign; `None` if nothing is left.
pub fn next_part<'a>(rest: Option<&'a [u8]>, sign: u8) -> Option<(&'a [u8], Option<&'a [u8]>)>
    ensures parts { parts_left sign rest.entry
        ≡ option_map_or (λ cut. cut.0.now ∷ parts_left sign cut.1) result [] }
    ensures len { IfSome result (λ cut. len_left rest.entry
        ≡ 1 + length cut.0.now + len_left cut.1) }
{
    match rest {
        Some(text) => Some(cut_at(text, sign)),
        None => None,
    }
}
