//! The parts of an action: the name of a seat, an amount of chips, and cards.
ghost use Rattle.std.specs.Prelude.{◌≡◌, ◌≤◌, bytes_eq};
ghost use Rattle.card_set.specs.Row.{cards_of, slots_of};
ghost use Rattle.phh_actions.specs.Action.{all_known, amount_said, has_fraction, one_to, seat_said, seen_by, slots_said};
ghost use Rattle.chip_ledger.specs.SeatsSaid.{default_name};

use crate::fault::ActionFault;
use crate::words::is_word;
use card_set::{CardRow, SlotRow, read_slots as read_row};
use chip_ledger::{MOST_CHIPS, PlayerCount, Seat};
use first_fault::{is_all_digits, position_of, read_digits};

/// The seat of the hand that a word names.
#[tactic(auto, unfolding(crate::specs::Action::seat_said, crate::specs::Action::seat_named))]
pub fn read_seat(players: PlayerCount, name: &[u8]) -> Result<Seat, ActionFault>
    ensures { seen_by (λ seat. seat.number) result ≡ seat_said players.number name.now }
{
    for index in 0..players.number {
        if names_seat(name, index + 1) {
            return Seat::new(index + 1).ok_or(ActionFault::BadAction);
        }
    }
    Err(ActionFault::BadAction)
}

// Whether the word is p and this number.
fn names_seat(name: &[u8], seat: u8) -> bool
    requires first { 1 ≤ seat }
    requires last { seat ≤ 10 }
    ensures { result ≡ bytes_eq name.now (default_name seat) }
{
    if seat < 10 {
        name == [b'p', b'0' + seat].as_slice()
    } else {
        is_word(name, "p10")
    }
}

/// The amount that a word means; leading zeros are allowed.
#[tactic(auto, unfolding(crate::specs::Action::amount_said))]
pub fn read_amount(word: &[u8]) -> Result<u64, ActionFault>
    ensures { seen_by (λ amount. amount) result ≡ amount_said word.now }
{
    if !is_all_digits(word) {
        return Err(if is_fraction(word) {
            ActionFault::AmountNotWhole
        } else {
            ActionFault::BadAction
        });
    }
    match read_digits(word, MOST_CHIPS) {
        Some(amount) => Ok(amount),
        None => Err(ActionFault::AmountLimit),
    }
}

// Whether the word is digits, a point and digits.
#[tactic(auto, unfolding(crate::specs::Action::has_fraction, first_fault::specs::Digits::are_digits))]
fn is_fraction(word: &[u8]) -> bool
    ensures { result ≡ has_fraction word.now }
{
    let len = position_of(word, b'.');
    if len == word.len() {
        return false;
    }
    is_all_digits(&word[..len]) && is_all_digits(&word[len + 1..])
}

/// The cards, if each of them is known.
pub fn known_cards(slots: SlotRow) -> Result<CardRow, ActionFault>
    ensures { seen_by cards_of result ≡ all_known (slots_of slots) }
{
    if slots.has_unknown() {
        return Err(ActionFault::BadAction);
    }
    Ok(slots.known_cards())
}

/// One to `most` cards, known or unknown, two letters each.
#[tactic(auto, unfolding(crate::specs::Action::slots_said))]
pub fn read_slots(most: u8, word: &[u8]) -> Result<SlotRow, ActionFault>
    requires { most ≤ 7 }
    ensures { seen_by slots_of result ≡ slots_said most word.now }
{
    let Ok(slots) = read_row(word) else {
        return Err(ActionFault::BadAction);
    };
    keep_within(most, slots)
}

// The cards, if there are one to `most`.
fn keep_within(most: u8, slots: SlotRow) -> Result<SlotRow, ActionFault>
    ensures { seen_by slots_of result ≡ one_to most (slots_of slots) }
{
    let len = slots.as_slice().len();
    if 1 <= len && len <= usize::from(most) {
        Ok(slots)
    } else {
        Err(ActionFault::BadAction)
    }
}
