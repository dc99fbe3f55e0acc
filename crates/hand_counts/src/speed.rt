//! For timing: scores hands that are spread over the deck, and adds up their points.
ghost use Rattle.std.specs.Prelude.{◌≤◌, length};
ghost use Rattle.card_set.specs.Different.{AllDifferent};
ghost use Rattle.card_set.specs.Row.{cards_of};
ghost use Rattle.hand_counts.specs.Dealt.{AreDealt};
ghost use Rattle.hand_order.specs.Choices.{CanChoose};

use badugi_rank::Badugi;
use card_set::{CardRow, CardSet, card_at};
use hand_order::{HandOrder, Score};
use high_rank::{High, ShortDeckHigh};
use low_rank::{DeuceSeven, EightLow, RazzLow};

/// How many hands were scored, and the sum of their points.
#[derive(Clone, Copy, Debug)]
pub struct Scored {
    pub hands: u64,
    pub points: u64,
}

/// Scores hands of `cards` cards in an order, `rounds` times over. `None` if the order has no such
/// name, or no hands of that many cards.
pub fn score_order(name: &str, cards: u8, rounds: u32) -> Option<Scored> {
    if name == "badugi" && cards == 4 {
        return Some(score_rounds::<Badugi>(0, cards, rounds));
    }
    if !(5..=7).contains(&cards) {
        return None;
    }
    match name {
        "high" => Some(score_rounds::<High>(0, cards, rounds)),
        "short" => Some(score_rounds::<ShortDeckHigh>(16, cards, rounds)),
        "eight" => Some(score_rounds::<EightLow>(0, cards, rounds)),
        "razz" => Some(score_rounds::<RazzLow>(0, cards, rounds)),
        "deuce" => Some(score_rounds::<DeuceSeven>(0, cards, rounds)),
        _ => None,
    }
}

// Scores the hands from a place of the deck on, `rounds` times.
fn score_rounds<O: HandOrder>(first: u8, cards: u8, rounds: u32) -> Scored
    requires can { CanChoose O.HELD cards }
    requires few { cards ≤ 7 }
{
    let mut scored = Scored {
        hands: 0,
        points: 0,
    };
    for _ in 0..rounds {
        score_hands::<O>(first, CardRow::new(), cards, &mut scored);
    }
    scored
}

// Scores the hands that begin with these cards and go on with every third card of the deck from a
// place on.
fn score_hands<O: HandOrder>(from: u8, hand: CardRow, cards: u8, scored: &mut Scored)
    requires can { CanChoose O.HELD cards }
    requires few { cards ≤ 7 }
    requires room { hand.len ≤ cards }
    requires dealt { AreDealt from (cards_of hand) }
{
    if hand.len == cards {
        let points = best_points(best_score::<O>(&hand));
        scored.hands = scored.hands.saturating_add(1);
        scored.points = scored.points.wrapping_add(points);
        return;
    }
    for place in from..52 {
        if place % 3 == 0 {
            let mut next = hand;
            next.push(card_at(place));
            score_hands::<O>(place + 1, next, cards, scored);
        }
    }
}

fn best_points(score: Option<Score>) -> u64 {
    match score {
        Some(score) => u64::from(score.points),
        None => 0,
    }
}

// The score of a hand, or of the best hand among more cards.
fn best_score<O: HandOrder>(cards: &CardRow) -> Option<Score>
    requires can { CanChoose O.HELD (length (cards_of cards.now)) }
    requires different { AllDifferent (cards_of cards.now) }
{
    if cards.len == O::HELD {
        O::score(cards)
    } else {
        O::best_set(&CardSet::of(cards))
    }
}
