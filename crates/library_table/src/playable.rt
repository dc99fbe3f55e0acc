//! Whether hands and pots can be split, and whether a board can be completed.
ghost use Rattle.std.specs.Prelude.{◌≡◌, ◌≢◌, ◌≤◌, ◌++◌, [], IsTrue};
ghost use Rattle.card_set.specs.declared.set.CardSet.{CardSet};
ghost use Rattle.card_set.specs.Different.{AllDifferent, Lacks};
ghost use Rattle.card_set.specs.Row.{cards_of};
ghost use Rattle.chip_ledger.specs.declared.seat_row.TheConstants.{MOST_AMOUNT};
ghost use Rattle.chip_ledger.specs.LiveRow.{flagged};
ghost use Rattle.hand_equity.specs.Equity.{CanComplete, plays_board};
ghost use Rattle.hand_equity.specs.Undealt.{standing_of};
ghost use Rattle.hand_order.specs.Choices.{CanPick};
ghost use Rattle.play_event.specs.Games.{game_of};
ghost use Rattle.showdown_split.specs.Playable.{ArePlayable, AreWinnable};

use card_set::{Card, CardRow};
use chip_ledger::{LiveRow, MOST_AMOUNT, Pot, Seat};
use hand_order::{HandOrder, Pick};
use play_event::HandRow;
use variant_table::Variant;

/// Whether each shown seat has cards that the game's pick can use, all different from one another
/// and from the board's.
pub fn are_playable<V: Variant>(hands: &HandRow, board: &CardRow, shown: &LiveRow) -> bool
    requires { hands.now.seats ≡ shown.now.seats }
    ensures { IsTrue result → ArePlayable V.Award.HELD V.PICK hands.now board.now shown.now }
{
    for index in 0..shown.seats {
        let seat = Seat { number: index + 1 };
        let hole = hands.get(seat).known_cards();
        if shown.get(seat)
            && !(can_pick::<V>(&hole, board)
                && differ_together(hole.as_slice(), board.as_slice()))
        {
            return false;
        }
    }
    true
}

fn can_pick<V: Variant>(hole: &CardRow, board: &CardRow) -> bool
    ensures { IsTrue result
        → CanPick V.Award.HELD V.PICK (cards_of hole.now) (cards_of board.now) }
{
    let both = hole.len + board.len;
    match V::PICK {
        Pick::AnyFive => V::Award::HELD == 5 && 5 <= both && both <= 7,
        Pick::TwoAndThree => V::Award::HELD == 5 && 2 <= hole.len && 3 <= board.len,
        Pick::AllHeld => hole.len == V::Award::HELD,
    }
}

/// Whether each live seat has this number of cards, all different from one another and from the
/// board's, and the board is not too long.
pub fn can_complete<V: Variant>(hands: &HandRow, live: &LiveRow, board: &CardRow, cards: u8) -> bool
    requires seats { hands.now.seats ≡ live.now.seats }
    requires game { IsTrue (plays_board V.CODE) }
    requires cards { cards ≡ (game_of V.CODE).hole }
    ensures { IsTrue result → (dead : CardSet)
        → CanComplete V.CODE (standing_of hands.now live.now board.now dead) }
{
    if board.len > 5 {
        return false;
    }
    for index in 0..live.seats {
        let seat = Seat { number: index + 1 };
        let hole = hands.get(seat).known_cards();
        if live.get(seat)
            && !(hole.len == cards && differ_together(hole.as_slice(), board.as_slice()))
        {
            return false;
        }
    }
    true
}

#[tactic(auto, using(crate::proofs::Splittable::lacks_both))]
fn differ_together(hole: &[Card], board: &[Card]) -> bool
    ensures { IsTrue result → AllDifferent (hole.now ++ board.now) }
{
    match hole {
        [] => differ(board),
        [first, rest @ ..] => {
            lacks(*first, rest) && lacks(*first, board) && differ_together(rest, board)
        }
    }
}

fn differ(cards: &[Card]) -> bool
    ensures { IsTrue result → AllDifferent cards.now }
{
    match cards {
        [] => true,
        [first, rest @ ..] => lacks(*first, rest) && differ(rest),
    }
}

fn lacks(card: Card, cards: &[Card]) -> bool
    ensures { IsTrue result → Lacks card cards.now }
{
    match cards {
        [] => true,
        [first, rest @ ..] => card != *first && lacks(card, rest),
    }
}

/// Whether each pot is of `seats` seats, some seat may win it, and it has no more chips than a row
/// holds.
#[tactic(auto, using(crate::proofs::Splittable::winnable_more))]
pub fn are_winnable(pots: &[Pot], seats: u8) -> bool
    ensures { IsTrue result → AreWinnable seats pots.now }
{
    match pots {
        [] => true,
        [pot, rest @ ..] => is_winnable(pot, seats) && are_winnable(rest, seats),
    }
}

fn is_winnable(pot: &Pot, seats: u8) -> bool
    ensures { IsTrue result → (pot.now.eligible.seats ≡ seats)
        × (flagged pot.now.eligible ≢ []) × (pot.now.chips ≤ MOST_AMOUNT) }
{
    pot.eligible.seats == seats && pot.eligible.any() && pot.chips <= MOST_AMOUNT
}
