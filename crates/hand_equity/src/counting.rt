//! Counts equity over all completions of a board, in the high order and, if half of a pot goes to
//! low hands, in the low order.
ghost use Rattle.std.specs.Prelude.{◌≡◌, ◌≤◌, ◌+◌, ◌-◌, ◌++◌, ℕ, IsTrue, List, length, sum, true, false};
ghost use Rattle.card_set.specs.declared.card.Card.{Card};
ghost use Rattle.card_set.specs.Row.{cards_of};
ghost use Rattle.hand_order.specs.Choices.{IsAmong, choices};
ghost use Rattle.hand_equity.specs.Boards.{boards_with};
ghost use Rattle.hand_equity.specs.Equity.{CanComplete, IsEquity, plays_board};
ghost use Rattle.hand_equity.specs.LiveHands.{CanPlay, IsLive, contest_of_hands, live_hands, order_of};
ghost use Rattle.hand_equity.specs.Undealt.{rest_cards, standing_of};
ghost use Rattle.hand_equity.specs.Tallies.{IsEmptyTally, IsTallyOf};

use crate::boards::{Contenders, count_boards};
use crate::row::{EquityRow, row_of};
use crate::table::rest_beside;
use crate::tally::BoardTally;
use crate::undealt::Undealt;
use card_set::{CardRow, CardSet};
use chip_ledger::LiveRow;
use hand_order::HandOrder;
use play_event::HandRow;
use variant_table::Variant;

/// How often each live seat wins or ties, over all boards of five cards that complete this one. The
/// missing cards come from the game's deck without the cards of live seats, the board and the dead
/// cards, and each set of cards counts once.
///
/// `hands` are the hole cards of the seats, of which the known ones count, and `live` says which
/// seats are live. The game is hold'em, short-deck hold'em or Omaha. `board` has at most five
/// cards. The time grows with the number of completions: for two seats of hold'em 990 on a flop,
/// and 1,712,304 without a board.
pub fn equity<V: Variant>(
    hands: &HandRow,
    live: &LiveRow,
    board: &CardRow,
    dead: &CardSet,
) -> EquityRow
    requires game { IsTrue (plays_board V.CODE) }
    requires complete { CanComplete V.CODE (standing_of hands.now live.now board.now dead.now) }

    // The rule.
    ensures equity { IsEquity V.CODE (standing_of hands.now live.now board.now dead.now) result }

    // What follows from it.
    ensures together { (seat : ℕ) → IsLive (live_hands hands.now live.now) seat
        → result.total ≡ sum result.wins + result.shared }
    ensures together_low { V.SPLIT ≡ true
        → result.total ≡ sum result.low_wins + result.low_shared + result.low_none }
{
    let contenders = Contenders {
        hands: *hands,
        live: *live,
        pick: V::PICK,
    };
    let rest = rest_beside::<V>(hands, live, board, dead);
    let high = tally_of::<V::Award>(&contenders, &rest, board);
    let low = low_tally::<V>(&contenders, &rest, board);
    row_of(&high, &low)
}

// The tally of the low order if the game pays low hands, and otherwise an empty one.
fn low_tally<V: Variant>(contenders: &Contenders, rest: &Undealt, board: &CardRow) -> BoardTally
    requires room { length (cards_of board.now) ≤ 5 }
    requires playable { (more : List Card)
        → IsAmong more (choices (5 - length (cards_of board.now)) (rest_cards rest.now))
        → CanPlay V.Second.HELD contenders.now.pick
        (live_hands contenders.now.hands contenders.now.live) (cards_of board.now ++ more) }
    ensures two { V.SPLIT ≡ true → IsTallyOf
        (contest_of_hands (order_of V.Second.HELD V.Second.is_hand V.Second.is_weaker)
        contenders.now.pick (live_hands contenders.now.hands contenders.now.live))
        (boards_with (cards_of board.now) (5 - length (cards_of board.now)) (rest_cards rest.now))
        result }
    ensures one { V.SPLIT ≡ false → IsEmptyTally result }
{
    if V::SPLIT {
        tally_of::<V::Second>(contenders, rest, board)
    } else {
        BoardTally::new()
    }
}

// The tally of an order over all completions of a board.
fn tally_of<O: HandOrder>(contenders: &Contenders, rest: &Undealt, board: &CardRow) -> BoardTally
    requires room { length (cards_of board.now) ≤ 5 }
    requires playable { (more : List Card)
        → IsAmong more (choices (5 - length (cards_of board.now)) (rest_cards rest.now))
        → CanPlay O.HELD contenders.now.pick
        (live_hands contenders.now.hands contenders.now.live) (cards_of board.now ++ more) }
    ensures { IsTallyOf
        (contest_of_hands (order_of O.HELD O.is_hand O.is_weaker) contenders.now.pick
        (live_hands contenders.now.hands contenders.now.live))
        (boards_with (cards_of board.now) (5 - length (cards_of board.now)) (rest_cards rest.now))
        result }
{
    count_boards::<O>(
        contenders,
        rest,
        0,
        5 - board.len,
        *board,
        BoardTally::new(),
    )
}
