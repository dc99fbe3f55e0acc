//! Reads known cards from their letters.
ghost use Rattle.std.specs.Prelude.{◌≡◌, ◌≤◌, option_map};
ghost use Rattle.card_set.specs.Row.{slots_of};
ghost use Rattle.acpc_reading.specs.Cards.{hole_said, known_said};

use card_set::{Slot, SlotRow, read_slots};

/// The hole cards of a seat: two known ones, or an empty row if they are unknown.
#[tactic(auto, unfolding(crate::specs::Cards::hole_said))]
pub fn read_hole(text: &[u8]) -> Option<SlotRow>
    ensures { option_map slots_of result ≡ hole_said text.now }
{
    if !text.is_empty() {
        return read_known(2, text);
    }
    let mut slots = SlotRow::new();
    slots.push(Slot::Unknown);
    slots.push(Slot::Unknown);
    Some(slots)
}

/// `count` known cards, at most seven.
#[tactic(auto, using(crate::proofs::CardLaws::bad_known, crate::proofs::CardLaws::other_len, crate::proofs::CardLaws::some_unknown, crate::proofs::CardLaws::all_known))]
pub fn read_known(count: u8, text: &[u8]) -> Option<SlotRow>
    requires { count ≤ 7 }
    ensures { option_map slots_of result ≡ known_said count text.now }
{
    let Ok(slots) = read_slots(text) else {
        return None;
    };
    if slots.len != count {
        return None;
    }
    if slots.has_unknown() {
        return None;
    }
    Some(slots)
}
