//! Compares names and cards one by one, as the rules do.
ghost use Rattle.std.specs.Prelude.{◌≡◌, ◌≤◌, length, ◌&&◌};
ghost use Rattle.std.specs.List.{list_any};
ghost use Rattle.card_set.specs.Deck as decks;
ghost use Rattle.card_set.specs.declared.card.Slot.TheVariants.{Known};
ghost use Rattle.card_set.specs.Row.{cards_of, slots_of};
ghost use Rattle.play_event.specs.NameMatching as naming;
ghost use Rattle.card_set.specs.Known as known;
ghost use Rattle.play_event.specs.Taken as taken;
ghost use Rattle.play_event.specs.CardReasons as reasons;

use card_set::{Card, CardRow, Slot, SlotRow, index_in_deck};

/// Whether both are known and the same card.
pub fn is_one_card(a: Slot, b: Slot) -> bool
    ensures { result ≡ taken.is_one_card a b }
{
    match a {
        Slot::Known(card) => slot_is_card(card, b),
        Slot::Unknown => false,
    }
}

/// Whether a known card is not among the names.
pub fn left_out(slot: Slot, names: &[Card]) -> bool
    ensures { result ≡ reasons.is_left_out names.now slot }
{
    match slot {
        Slot::Known(card) => !is_named(card, names),
        Slot::Unknown => false,
    }
}

/// Whether the card is among the names.
pub fn is_named(card: Card, names: &[Card]) -> bool
    ensures { result ≡ naming.is_named card names.now }
{
    match names {
        [] => false,
        [name, rest @ ..] => is_same_card(card, *name) || is_named(card, rest),
    }
}

/// Whether two of the known cards are the same.
pub fn has_repeat(slots: &[Slot]) -> bool
    ensures { result ≡ taken.has_repeat slots.now }
{
    match slots {
        [] => false,
        [slot, rest @ ..] => is_repeated(*slot, rest) || has_repeat(rest),
    }
}

// The card is also among the others.
fn is_repeated(slot: Slot, others: &[Slot]) -> bool
    ensures { result ≡ taken.is_repeated slot others.now }
{
    match slot {
        Slot::Known(card) => any_slot_is_card(card, others),
        Slot::Unknown => false,
    }
}

// One of the slots has the card.
fn any_slot_is_card(card: Card, slots: &[Slot]) -> bool
    ensures { result ≡ list_any (taken.slot_is_card card) slots.now }
{
    match slots {
        [] => false,
        [slot, rest @ ..] => slot_is_card(card, *slot) || any_slot_is_card(card, rest),
    }
}

/// Whether the slot is known to have the card.
pub fn slot_is_card(card: Card, slot: Slot) -> bool
    ensures { result ≡ taken.slot_is_card card slot }
{
    match slot {
        Slot::Known(other) => is_same_card(card, other),
        Slot::Unknown => false,
    }
}

/// The number of blank slots: those that name no card.
pub fn blanks(slots: &[Slot]) -> usize
    ensures blanks { result ≡ naming.blanks_in slots.now }
    ensures most { result ≤ length slots.now }
{
    let mut count = 0;
    for slot in slots {
        if slot.is_unknown() {
            count += 1;
        }
    }
    count
}

/// The names without the first that is this card.
pub fn without(slot: Slot, names: &CardRow) -> CardRow
    ensures { cards_of result ≡ naming.without_name slot (cards_of names.now) }
{
    match slot {
        Slot::Unknown => *names,
        Slot::Known(card) => without_card(card, names),
    }
}

// The names without the first that is this card.
fn without_card(card: Card, names: &CardRow) -> CardRow
    ensures { cards_of result ≡ naming.without_name (Known card) (cards_of names.now) }
{
    let mut left = CardRow::new();
    let mut found = false;
    for name in names.as_slice() {
        if !found && is_same_card(card, *name) {
            found = true;
        } else {
            left.push(*name);
        }
    }
    left
}

/// Whether both are the same card: same rank and same suit.
pub fn is_same_card(a: Card, b: Card) -> bool
    ensures { result ≡ decks.is_same_card a b }
{
    index_in_deck(a) == index_in_deck(b)
}

/// The cards as known slots: the form in which a script's event names cards.
pub fn slots(cards: &CardRow) -> SlotRow
    ensures { slots_of result ≡ known.known_slots (cards_of cards.now) }
{
    let mut slots = SlotRow::new();
    for card in cards.as_slice() {
        slots.push(Slot::Known(*card));
    }
    slots
}
