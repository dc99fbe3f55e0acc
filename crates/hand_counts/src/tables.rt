//! For each order: the lowest hand of each class, and the counts of all hands.
ghost use Rattle.std.specs.Prelude.{◌≤◌};

use crate::dealing::{count_hands, hand_of};
use crate::tally::Tally;
use badugi_rank::Badugi;
use card_set::CardRow;
use hand_order::HandOrder;
use high_rank::{High, ShortDeckHigh};
use low_rank::{DeuceSeven, EightLow, RazzLow};
use std::alloc::{AllocError, Global};

/// The place in the deck of the first six, where the short deck begins.
const SHORT_DECK: u8 = 16;

// The classes of each order, with the lowest hand of each.
const HIGH: [(&str, &str); 9] = [
    ("straight flush", "2h3h4h5hAh"),
    ("four of a kind", "2c2d2h2s3c"),
    ("full house", "2c2d2h3c3d"),
    ("flush", "2c3c4c5c7c"),
    ("straight", "2c3c4c5cAd"),
    ("three of a kind", "2c2d2h3c4c"),
    ("two pair", "2c2d3c3d4c"),
    ("pair", "2c2d3c4c5c"),
    ("high card", "2c3c4c5c7d"),
];

const SHORT_DECK_HIGH: [(&str, &str); 9] = [
    ("straight flush", "6h7h8h9hAh"),
    ("four of a kind", "6c6d6h6s7c"),
    ("flush", "6c7c8c9cJc"),
    ("full house", "6c6d6h7c7d"),
    ("straight", "6c7c8c9cAd"),
    ("three of a kind", "6c6d6h7c8c"),
    ("two pair", "6c6d7c7d8c"),
    ("pair", "6c6d7c8c9c"),
    ("high card", "6c7c8c9cJd"),
];

const EIGHT_LOW: [(&str, &str); 4] = [
    ("five", "2c3c4c5cAc"),
    ("six", "2c3c4c5c6c"),
    ("seven", "3c4c5c6c7c"),
    ("eight", "4c5c6c7c8c"),
];

const RAZZ_LOW: [(&str, &str); 6] = [
    ("no pair", "9cTcJcQcKc"),
    ("pair", "TcJcQcKcKd"),
    ("two pair", "JcQcQdKcKd"),
    ("three of a kind", "JcQcKcKdKh"),
    ("full house", "QcQdKcKdKh"),
    ("four of a kind", "QcKcKdKhKs"),
];

const DEUCE_SEVEN: [(&str, &str); 9] = [
    ("high card", "9cJcQcKcAd"),
    ("pair", "JcQcKcAcAd"),
    ("two pair", "QcKcKdAcAd"),
    ("three of a kind", "QcKcAcAdAh"),
    ("straight", "TcJcQcKcAd"),
    ("flush", "9cJcQcKcAc"),
    ("full house", "KcKdAcAdAh"),
    ("four of a kind", "KcAcAdAhAs"),
    ("straight flush", "TcJcQcKcAc"),
];

const BADUGI: [(&str, &str); 4] = [
    ("four cards", "TcJdQhKs"),
    ("three cards", "JcQdKhKs"),
    ("two cards", "QcQdKcKd"),
    ("one card", "KcKdKhKs"),
];

/// The lines of all orders.
pub fn all_counts(alloc: Global) -> Result<Vec<String>, AllocError> {
    let mut lines = Vec::new(alloc);
    add_counts::<High>(alloc, &mut lines, "high", 0, &HIGH)?;
    add_counts::<ShortDeckHigh>(
        alloc,
        &mut lines,
        "short deck high, six to ace",
        SHORT_DECK,
        &SHORT_DECK_HIGH,
    )?;
    add_counts::<EightLow>(alloc, &mut lines, "eight or better", 0, &EIGHT_LOW)?;
    add_counts::<RazzLow>(alloc, &mut lines, "razz, six to ace", SHORT_DECK, &RAZZ_LOW)?;
    add_counts::<DeuceSeven>(
        alloc,
        &mut lines,
        "deuce to seven, six to ace",
        SHORT_DECK,
        &DEUCE_SEVEN,
    )?;
    add_counts::<Badugi>(alloc, &mut lines, "badugi", 0, &BADUGI)?;
    Ok(lines)
}

// Adds the lines of one order: the hands of each class, those without a score, and the number of
// different scores.
fn add_counts<O: HandOrder>(
    alloc: Global,
    lines: &mut Vec<String>,
    title: &str,
    first: u8,
    classes: &[(&'static str, &'static str)],
) -> Result<(), AllocError>
    requires { O.HELD ≤ 7 }
{
    let mut tally = Tally::new(alloc);
    for (name, least) in classes {
        add_class::<O>(&mut tally, name, least)?;
    }
    count_hands::<O>(first, CardRow::new(), &mut tally)?;
    lines.push(format!(in alloc; "{title}")?)?;
    for class in tally.classes() {
        let name = class.name;
        let hands = class.hands;
        lines.push(format!(in alloc; "  {name} {hands}")?)?;
    }
    let unscored = tally.unscored();
    let scores = tally.different_scores();
    lines.push(format!(in alloc; "  no score {unscored}")?)?;
    lines.push(format!(in alloc; "  different scores {scores}")?)?;
    Ok(())
}

// Adds a class, given by its lowest hand.
fn add_class<O: HandOrder>(
    tally: &mut Tally,
    name: &'static str,
    least: &str,
) -> Result<(), AllocError> {
    let Some(hand) = hand_of(least) else {
        return Ok(())
    };
    if hand.len != O::HELD {
        return Ok(());
    }
    match O::score(&hand) {
        Some(score) => tally.add_class(name, score),
        None => Ok(()),
    }
}
