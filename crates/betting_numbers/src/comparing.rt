//! Whose up-cards open before others', for any number of cards.
ghost use Rattle.std.specs.Prelude.{false, ◌≡◌, ◌*◌};
ghost use Rattle.card_set.specs.Deck as deck;
ghost use Rattle.card_set.specs.Ranks.{high_ace, low_ace, ranks_of};
ghost use Rattle.card_set.specs.Row.{cards_of};
ghost use Rattle.card_set.specs.UpCards as up_cards;
ghost use Rattle.play_event.specs.Openers as openers;
ghost use Rattle.play_event.specs.declared.limit.Opener.TheVariants as openings;
ghost use Rattle.play_event.specs.Openers.{card_stands, is_lower, razz_order};
ghost use Rattle.betting_numbers.specs.HeightRow.{heights_in};
ghost use Rattle.betting_numbers.specs.Earliest as earliest;
ghost use Rattle.betting_numbers.specs.UpClass.{high_class_by, low_class_by};

use crate::counting::ranks_in;
use crate::heights::Heights;
use card_set::{CardRow, index_in_deck, suit_index};
use hand_order::{Ace, height_of};
use play_event::Opener;

/// The up-cards of one seat open before those of another.
pub fn is_opener_before(opener: Opener, first: bool, a: &CardRow, b: &CardRow) -> bool
    ensures { result ≡ openers.is_opener_before opener first (cards_of a.now) (cards_of b.now) }
{
    match opener {
        Opener::Blinds => false,
        Opener::LowUp => {
            if first {
                deck_stand(a) < deck_stand(b)
            } else {
                worse_high(b, a)
            }
        }
        Opener::HighUp => {
            if first {
                razz_stand(b) < razz_stand(a)
            } else {
                worse_low(b, a)
            }
        }
    }
}

// The up-cards are weaker, with aces high.
fn worse_high(a: &CardRow, b: &CardRow) -> bool
    ensures { result ≡ openers.is_weaker_up_high (cards_of a.now) (cards_of b.now) }
{
    let one = high_standing(a);
    let other = high_standing(b);
    other.class < one.class
        || (one.class == other.class && lower(one.heights.as_slice(), other.heights.as_slice()))
}

// The up-cards are weaker in razz.
fn worse_low(a: &CardRow, b: &CardRow) -> bool
    ensures { result ≡ openers.is_weaker_low (cards_of a.now) (cards_of b.now) }
{
    let one = low_standing(a);
    let other = low_standing(b);
    other.class < one.class
        || (one.class == other.class && lower(other.heights.as_slice(), one.heights.as_slice()))
}

// At the first place where the ranks differ, the left one is lower.
fn lower(a: &[u8], b: &[u8]) -> bool
    ensures { result ≡ is_lower a.now b.now }
{
    match a {
        [] => false,
        [height, rest @ ..] => match b {
            [] => false,
            [other, others @ ..] => { height < other || (height == other && lower(rest, others)) }
        },
    }
}

/// The up-cards of one seat open before all up-cards that those of another open before. A seat that
/// is as early as every other seat opens before each seat that some seat opens before.
pub fn opens_as_early(opener: Opener, first: bool, a: &CardRow, b: &CardRow) -> bool
    ensures { result ≡ earliest.opens_no_later opener first (cards_of a.now) (cards_of b.now) }
{
    match opener {
        Opener::Blinds => true,
        Opener::LowUp => {
            if first {
                deck_stand(a) <= deck_stand(b)
            } else {
                as_good_high(a, b)
            }
        }
        Opener::HighUp => {
            if first {
                razz_stand(b) <= razz_stand(a)
            } else {
                as_good_low(a, b)
            }
        }
    }
}

// The position of the first card in the deck's order.
fn deck_stand(cards: &CardRow) -> u8
    ensures { result ≡ card_stands deck.deck_index (cards_of cards.now) }
{
    match cards.as_slice() {
        [] => 0,
        [card, ..] => index_in_deck(*card),
    }
}

// The up-cards are better, with aces high, or open before all that the others open before.
fn as_good_high(a: &CardRow, b: &CardRow) -> bool
    ensures { result ≡ earliest.opens_no_later openings.LowUp false (cards_of a.now)
        (cards_of b.now) }
{
    let one = high_standing(a);
    let other = high_standing(b);
    one.class < other.class
        || (other.class == one.class && as_high(one.heights.as_slice(), other.heights.as_slice()))
}

// How up-cards compare: their class, numbered from the best, and then their ranks in order.
#[derive(Clone, Copy, Debug)]
struct Standing {
    class: u8,
    heights: Heights,
}

// The class and the ranks of up-cards in games where the high hand opens.
#[tactic(auto, unfolding(card_set::specs::UpCards::up_high_class))]
fn high_standing(cards: &CardRow) -> Standing
    ensures class { result.class ≡ up_cards.up_high_class (cards_of cards.now) }
    ensures heights { heights_in result.heights ≡ ranks_of high_ace (cards_of cards.now) }
{
    let ranks = ranks_in(cards, Ace::High);
    Standing {
        class: high_class(ranks.fours, ranks.threes, ranks.pairs),
        heights: ranks.heights,
    }
}

// The classes of high up-cards, numbered from the best.
fn high_class(fours: u8, threes: u8, pairs: u8) -> u8
    ensures { result ≡ high_class_by fours threes pairs }
{
    if fours == 1 {
        0
    } else if threes == 1 && pairs == 0 {
        1
    } else if pairs == 2 {
        2
    } else if pairs == 1 && threes == 0 {
        3
    } else if fours == 0 && threes == 0 && pairs == 0 {
        4
    } else {
        5
    }
}

// At the first place where the ranks differ, the left one is higher, or the left list is longer.
fn as_high(a: &[u8], b: &[u8]) -> bool
    ensures { result ≡ earliest.is_as_high a.now b.now }
{
    match b {
        [] => true,
        [other, others @ ..] => match a {
            [] => false,
            [height, rest @ ..] => { other < height || (other == height && as_high(rest, others)) }
        },
    }
}

// The position of the first card in the order of razz.
fn razz_stand(cards: &CardRow) -> u8
    ensures { result ≡ card_stands razz_order (cards_of cards.now) }
{
    match cards.as_slice() {
        [] => 0,
        [card, ..] => 4 * height_of(card.rank, Ace::Low) + suit_index(card.suit),
    }
}

// The up-cards are better in razz, or open before all that the others open before.
fn as_good_low(a: &CardRow, b: &CardRow) -> bool
    ensures { result
        ≡ earliest.opens_no_later openings.HighUp false (cards_of a.now) (cards_of b.now) }
{
    let one = low_standing(a);
    let other = low_standing(b);
    one.class < other.class
        || (other.class == one.class && as_low(one.heights.as_slice(), other.heights.as_slice()))
}

// The class and the ranks of up-cards in razz.
#[tactic(auto, unfolding(card_set::specs::UpCards::low_class))]
fn low_standing(cards: &CardRow) -> Standing
    ensures class { result.class ≡ up_cards.low_class (cards_of cards.now) }
    ensures heights { heights_in result.heights ≡ ranks_of low_ace (cards_of cards.now) }
{
    let ranks = ranks_in(cards, Ace::Low);
    Standing {
        class: low_class(ranks.fours, ranks.threes, ranks.pairs),
        heights: ranks.heights,
    }
}

// The classes of low up-cards, numbered from the best.
fn low_class(fours: u8, threes: u8, pairs: u8) -> u8
    ensures { result ≡ low_class_by fours threes pairs }
{
    if fours == 0 && threes == 0 && pairs == 0 {
        0
    } else if pairs == 1 && threes == 0 {
        1
    } else if pairs == 2 {
        2
    } else if threes == 1 && pairs == 0 {
        3
    } else if threes == 1 && pairs == 1 {
        4
    } else if fours == 1 {
        5
    } else {
        6
    }
}

// At the first place where the ranks differ, the left one is lower, or the left list is longer.
fn as_low(a: &[u8], b: &[u8]) -> bool
    ensures { result ≡ earliest.is_as_low a.now b.now }
{
    match b {
        [] => true,
        [other, others @ ..] => match a {
            [] => false,
            [height, rest @ ..] => { height < other || (height == other && as_low(rest, others)) }
        },
    }
}
