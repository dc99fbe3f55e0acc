//! Tests how hands compare in each order: `cards best ORDER CARDS CARDS`, `cards up ORDER CARDS
//! CARDS`, and `cards deal PICK HOLE BOARD CARDS`, in which the last cards are a hand of the high
//! order.
ghost use Rattle.std.specs.Prelude.{◌≡◌, ◌≢◌, ◌≤◌, IfSome, take, drop, length};
ghost use Rattle.card_set.specs.Different.{AllDifferent};
ghost use Rattle.card_set.specs.Row.{cards_of};
ghost use Rattle.card_set.specs.UpCards.{AreUpCards};

use crate::words;
use badugi_rank::Badugi;
use card_set::{CardRow, CardSet, Slot, read_slots};
use hand_order::{HandOrder, Pick, Score, best_of};
use high_rank::{High, ShortDeckHigh, up_high};
use low_rank::{DeuceSeven, EightLow, RazzLow, up_low};
use std::alloc::{AllocError, Global};

/// The answer to a row about cards.
pub fn answer_to(alloc: Global, row: &str) -> Result<Option<String>, AllocError> {
    let (question, rest) = words::first_and_rest(row);
    let (name, hands) = words::first_and_rest(rest);
    let answer = match question.as_bytes() {
        b"best" => by_order(name, hands),
        b"up" => by_up_cards(name, hands),
        b"deal" => by_deal(alloc, name, hands)?,
        _ => None,
    };
    match answer {
        Some(text) => Ok(Some(String::from_str(alloc, text)?)),
        None => Ok(None),
    }
}

// How the best hands of two sets of cards compare in an order.
fn by_order(name: &str, hands: &str) -> Option<&'static str> {
    let (first, second) = words::first_and_rest(hands);
    match name.as_bytes() {
        b"high" => Some(compared(best::<High>(first)?, best::<High>(second)?)),
        b"short" => Some(compared(
            best::<ShortDeckHigh>(first)?,
            best::<ShortDeckHigh>(second)?,
        )),
        b"eight" => Some(compared(best::<EightLow>(first)?, best::<EightLow>(second)?)),
        b"razz" => Some(compared(best::<RazzLow>(first)?, best::<RazzLow>(second)?)),
        b"deuce" => Some(compared(best::<DeuceSeven>(first)?, best::<DeuceSeven>(second)?)),
        b"badugi" => Some(compared(best::<Badugi>(first)?, best::<Badugi>(second)?)),
        _ => None,
    }
}

// How two sets of up-cards of the same size compare.
fn by_up_cards(name: &str, hands: &str) -> Option<&'static str> {
    let (first, second) = words::first_and_rest(hands);
    let (first, second) = (up_cards(first)?, up_cards(second)?);
    match name.as_bytes() {
        b"high" => Some(compared(Some(up_high(&first)), Some(up_high(&second)))),
        b"low" => Some(compared(Some(up_low(&first)), Some(up_low(&second)))),
        _ => None,
    }
}

// One to four different cards.
fn up_cards(text: &str) -> Option<CardRow>
    ensures { IfSome result (λ row. AreUpCards (cards_of row)) }
{
    let row = different_cards(text)?;
    if row.len >= 1 && row.len <= 4 {
        Some(row)
    } else {
        None
    }
}

// How the best hand of hole cards and board compares with a hand.
fn by_deal(alloc: Global, name: &str, deal: &str) -> Result<Option<&'static str>, AllocError> {
    let (hole, rest) = words::first_and_rest(deal);
    let (board, hand) = words::first_and_rest(rest);
    let both = format!(in alloc; "{hole}{board}")?;
    let picked = match name.as_bytes() {
        b"any_five" => best_dealt(both.as_str(), hole.len() / 2, Pick::AnyFive),
        b"two_and_three" => best_dealt(both.as_str(), hole.len() / 2, Pick::TwoAndThree),
        _ => None,
    };
    match (picked, best::<High>(hand)) {
        (Some(first), Some(second)) => Ok(Some(compared(first, second))),
        _ => Ok(None),
    }
}

// The best hand of the first `count` cards as hole cards and the others as the board.
fn best_dealt(text: &str, count: usize, pick: Pick) -> Option<Option<Score>>
    requires { pick ≢ Pick.AllHeld }
{
    let all = different_cards(text)?;
    if count < 2 || all.len < 5 || count > usize::from(all.len) - 3 {
        return None;
    }
    let hole = first_cards(&all, count);
    let board = last_cards(&all, count);
    Some(best_of::<High>(&hole, &board, pick))
}

// The first `count` cards of a row.
fn first_cards(row: &CardRow, count: usize) -> CardRow
    requires { count ≤ length (cards_of row.now) }
    ensures { cards_of result ≡ take count (cards_of row.now) }
{
    let mut first = CardRow::new();
    for card in &row.as_slice()[..count] {
        first.push(*card);
    }
    first
}

// The cards of a row after the first `count`.
fn last_cards(row: &CardRow, count: usize) -> CardRow
    requires { count ≤ length (cards_of row.now) }
    ensures { cards_of result ≡ drop count (cards_of row.now) }
{
    let mut last = CardRow::new();
    for card in &row.as_slice()[count..] {
        last.push(*card);
    }
    last
}

// The best hand of the cards, or `None` if it cannot be asked for.
fn best<O: HandOrder>(text: &str) -> Option<Option<Score>> {
    let cards = CardSet::of(&different_cards(text)?);
    let count = cards.len();
    if count == O::HELD || O::HELD == 5 && count >= 5 && count <= 7 {
        Some(O::best_set(&cards))
    } else {
        None
    }
}

// The cards that the text spells, if they are known and different.
fn different_cards(text: &str) -> Option<CardRow>
    ensures { IfSome result (λ row. AllDifferent (cards_of row)) }
{
    let Ok(slots) = read_slots(text.as_bytes()) else {
        return None
    };
    let mut row = CardRow::new();
    let mut seen = CardSet::empty();
    for slot in slots.as_slice() {
        let Slot::Known(card) = *slot else {
            return None
        };
        if row.len >= 7 || seen.has(card) {
            return None;
        }
        seen.insert(card);
        row.push(card);
    }
    Some(row)
}

// How the first hand compares with the second.
fn compared(first: Option<Score>, second: Option<Score>) -> &'static str {
    match (first, second) {
        (Some(x), Some(y)) => if x > y {
            "better"
        } else if x < y {
            "weaker"
        } else {
            "even"
        },
        (Some(_), None) => "the second is no hand",
        (None, Some(_)) => "the first is no hand",
        (None, None) => "no hands",
    }
}
