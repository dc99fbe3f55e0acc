//! Matches a place with the names.
ghost use Rattle.std.specs.Prelude.{◌≡◌, drop};
ghost use Rattle.card_set.specs.Row.{cards_of};
ghost use Rattle.play_event.specs.NameMatching.{matched_card};
ghost use Rattle.card_places.specs.Plain.{place_of};
ghost use Rattle.card_places.specs.Marks.{mark_by, IsFound};

use crate::dealt_card::DealtCard;
use crate::names::is_named;
use card_set::{CardRow, Slot};

/// A place that was looked at, and how far the names got.
#[derive(Clone, Copy)]
pub struct FoundPlace {
    pub card: DealtCard,
    /// The number of the other names that are used up.
    pub taken: u8,
    /// The number of blanks that are left.
    pub blanks: u8,
}

/// Matches a place that the event applies to with the names. A known card is marked if it is named;
/// an unknown one takes the next of the other names, `taken` of which are used up, or else one of
/// the blanks.
pub fn match_name(
    card: DealtCard,
    street: Option<u8>,
    count: u8,
    names: &CardRow,
    others: &CardRow,
    taken: u8,
    blanks: u8,
) -> FoundPlace
    ensures { IsFound result (matched_card (mark_by street count) (cards_of names.now) card.slot
        (drop taken (cards_of others.now)) blanks (place_of card)) (cards_of others.now) }
{
    let same = FoundPlace {
        card,
        taken,
        blanks,
    };
    match card.slot {
        Slot::Known(known) => {
            if is_named(known, names.as_slice()) {
                FoundPlace {
                    card: marked(card, street, count),
                    ..same
                }
            } else {
                same
            }
        }
        Slot::Unknown => {
            if taken < others.len {
                let slot = Slot::Known(others.cards[taken as usize]);
                FoundPlace {
                    card: marked(DealtCard { slot, ..card }, street, count),
                    taken: taken + 1,
                    ..same
                }
            } else if blanks > 0 {
                FoundPlace {
                    card: marked(card, street, count),
                    blanks: blanks - 1,
                    ..same
                }
            } else {
                same
            }
        }
    }
}

/// A card that is discarded on this street, after `count` dealt cards, is gone; without a street it
/// stays.
pub fn marked(card: DealtCard, street: Option<u8>, count: u8) -> DealtCard
    ensures { place_of result ≡ mark_by street count (place_of card) }
{
    match street {
        Some(discarded) => DealtCard {
            gone_after: Some(count),
            discarded,
            ..card
        },
        None => card,
    }
}
