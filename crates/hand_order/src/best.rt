//! Finds the best hand of a holding: the highest score among the choices that its pick allows.
ghost use Rattle.std.specs.Prelude.{◌≡◌, ℕ, ◌+◌, ◌≤◌, true, false, List, ◌++◌, drop, length, Option, IfSome, IfNone};
ghost use Rattle.std.specs.Option.{option_map};
ghost use Rattle.card_set.specs.declared.card.Card.{Card};
ghost use Rattle.card_set.specs.CardSet.{count_of, is_in, is_one_of, IsListing};
ghost use Rattle.card_set.specs.Row.{cards_of};
ghost use Rattle.card_set.specs.Different.{AllDifferent};
ghost use Rattle.hand_order.specs.Choices.{AreAlike, AreHeld, CanJoin, CanPick, IsAmong, allowed, choices};
ghost use Rattle.hand_order.specs.Best.{HasNoHand, IsPointsOfBest};
ghost use Rattle.hand_order.specs.Points.{better, greatest};

use crate::order::{HandOrder, Score};
use card_set::{CardRow, CardSet, Pick};
use std::marker::PhantomData;

/// The score of the best choice that the pick allows, or `None` if no choice is a hand of the
/// order. `AnyFive` takes five to seven cards, `TwoAndThree` at least two hole and three board
/// cards, and `AllHeld` as many hole cards as a hand of the order has.
pub fn best_of<O: HandOrder>(hole: &CardRow, board: &CardRow, pick: Pick) -> Option<Score>
    requires usable { CanPick O.HELD pick (cards_of hole.now) (cards_of board.now) }
    requires different { AllDifferent (cards_of hole.now ++ cards_of board.now) }
    ensures none { IfNone result
        (HasNoHand O.is_hand (allowed pick (cards_of hole.now) (cards_of board.now))) }
    ensures best { IfSome result (λ score. IsPointsOfBest O.is_hand O.is_weaker O.points
        (allowed pick (cards_of hole.now) (cards_of board.now)) score.points) }
{
    greatest_score::<O>(hole, board, pick)
}

// The highest score of the choices.
fn greatest_score<O: HandOrder>(hole: &CardRow, board: &CardRow, pick: Pick) -> Option<Score>
    requires usable { CanPick O.HELD pick (cards_of hole.now) (cards_of board.now) }
    requires different { AllDifferent (cards_of hole.now ++ cards_of board.now) }
    ensures { option_map (λ s. s.points) result
        ≡ greatest O.points (allowed pick (cards_of hole.now) (cards_of board.now)) }
{
    match pick {
        Pick::AnyFive => O::best_set(&CardSet::of(&joined(hole, board))),
        Pick::TwoAndThree => {
            let scorer = WithBoard::<O> {
                board: *board,
                order: PhantomData,
            };
            best_choice(&scorer, hole, 0, CardRow::new(), 2)
        }
        Pick::AllHeld => O::best_set(&CardSet::of(hole)),
    }
}

// The cards of the first row, followed by those of the second.
fn joined(first: &CardRow, second: &CardRow) -> CardRow
    requires { length (cards_of first.now) + length (cards_of second.now) ≤ 7 }
    ensures { cards_of result ≡ cards_of first.now ++ cards_of second.now }
{
    let mut row = *first;
    for card in second.as_slice() {
        row.push(*card);
    }
    row
}

/// Gives a choice of cards its points.
pub trait Scorer {
    /// Which choices it can score.
    ghost accepts: { Self → List Card → Type 0 };

    /// The points of a choice, if it has any.
    ghost points: { Self → List Card → Option ℕ };

    /// The score of the chosen cards.
    fn score(&self, chosen: &CardRow) -> Option<Score>
        requires { accepts self.now (cards_of chosen.now) }
        ensures { option_map (λ s. s.points) result ≡ points self.now (cards_of chosen.now) };
}

/// The best choice of `held` of a set's cards, each scored by itself. The scorer must not depend on
/// the order of the cards.
pub fn best_listed<J: Scorer>(scorer: &J, cards: &CardSet, held: u8) -> Option<Score>
    requires room { held ≤ 7 }
    requires few { count_of cards.now ≤ 7 }
    requires accepted { (hand : List Card) → AreHeld held hand → J.accepts scorer.now hand }
    requires alike { AreAlike (J.points scorer.now) held }
    ensures { (listing : List Card) → IsListing cards.now listing
        → option_map (λ s. s.points) result
        ≡ greatest (J.points scorer.now) (choices held listing) }
{
    best_choice(scorer, &cards.to_row(), 0, CardRow::new(), held)
}

/// The best choice of `chosen` and `need` of the cards from place `from` on.
pub fn best_choice<J: Scorer>(
    scorer: &J,
    cards: &CardRow,
    from: u8,
    chosen: CardRow,
    need: u8,
) -> Option<Score>
    requires room { chosen.len + need ≤ 7 }
    requires accepted { (more : List Card)
        → IsAmong more (choices need (drop from (cards_of cards.now)))
        → J.accepts scorer.now (cards_of chosen ++ more) }
    ensures { option_map (λ s. s.points) result
        ≡ greatest (λ more. J.points scorer.now (cards_of chosen ++ more))
        (choices need (drop from (cards_of cards.now))) }
{
    if need == 0 {
        return scorer.score(&chosen);
    }
    if from >= cards.len {
        return None;
    }
    let mut with = chosen;
    with.push(cards.cards[from as usize]);
    better_score(
        best_choice(scorer, cards, from + 1, with, need - 1),
        best_choice(scorer, cards, from + 1, chosen, need),
    )
}

/// The better of two scores; no score is lower than any.
pub fn better_score(first: Option<Score>, second: Option<Score>) -> Option<Score>
    ensures { option_map (λ s. s.points) result
        ≡ better (option_map (λ s. s.points) first) (option_map (λ s. s.points) second) }
{
    match (first, second) {
        (None, _) => second,
        (Some(_), None) => first,
        (Some(x), Some(y)) => Some(Score {
            points: x.points.max(y.points),
        }),
    }
}

// Scores hole cards by the best hand that they make with three cards of the board.
#[derive(Drop)]
struct WithBoard<O: HandOrder> {
    board: CardRow,
    order: PhantomData<O>,
}

impl<O: HandOrder> Scorer for WithBoard<O> {
    ghost accepts = { λ scorer cards. CanJoin O.HELD cards (cards_of scorer.board) };

    ghost points = { λ scorer cards.
        greatest (λ more. O.points (cards ++ more)) (choices 3 (cards_of scorer.board)) };

    fn score(&self, chosen: &CardRow) -> Option<Score> {
        best_with::<O>(CardSet::of(chosen), &self.board, 0, 3)
    }
}

// The best hand of a set and `need` of the cards from place `from` on.
fn best_with<O: HandOrder>(chosen: CardSet, cards: &CardRow, from: u8, need: u8) -> Option<Score>
    requires held { count_of chosen + need ≡ O.HELD }
    requires different { AllDifferent (drop from (cards_of cards.now)) }
    requires apart { (card : Card) → is_one_of card (drop from (cards_of cards.now)) ≡ true
        → is_in chosen card ≡ false }
    ensures { (listing : List Card) → IsListing chosen listing
        → option_map (λ s. s.points) result ≡ greatest (λ more. O.points (listing ++ more))
        (choices need (drop from (cards_of cards.now))) }
{
    if need == 0 {
        return O::best_set(&chosen);
    }
    if cards.len.saturating_sub(from) < need {
        return None;
    }
    let card = cards.cards[from as usize];
    let mut with = chosen;
    with.insert(card);
    better_score(
        best_with::<O>(with, cards, from + 1, need - 1),
        best_with::<O>(chosen, cards, from + 1, need),
    )
}
