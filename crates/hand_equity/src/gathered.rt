//! The board of a trace up to a street, and which seats are live when the street begins.
ghost use Rattle.std.specs.Prelude.{◌≡◌, ◌≤◌, ℕ, not, None, length, map, nat_lt};
ghost use Rattle.std.specs.List.{list_any};
ghost use Rattle.card_set.specs.Known.{known_among};
ghost use Rattle.card_set.specs.Row.{cards_of};
ghost use Rattle.chip_ledger.specs.LiveRow.{flag_of};
ghost use Rattle.play_event.specs.CanonScript.{dealt_slots};
ghost use Rattle.hand_canon.specs.RowTests.{is_fold_before};
ghost use Rattle.hand_canon.specs.TraceRows.{place_said};
ghost use Rattle.hand_equity.specs.Street.{board_slots};

use card_set::{CardRow, SlotRow};
use chip_ledger::{LiveRow, PlayerCount, Seat};
use hand_canon::{board_with_street, folds_before};
use play_event::{Move, Place};

/// Whether the board was dealt a card on a street.
pub fn deals_on(places: &[Place], street: u8) -> bool
    ensures { result ≡ nat_lt 0 (length (dealt_slots (map place_said places.now) None street)) }
{
    let mut rest = places;
    while let [place, behind @ ..] = rest {
        if place.street == street && place.owner.is_none() {
            return true;
        }
        rest = behind;
    }
    false
}

/// The known cards of the board, of all streets up to this one.
pub fn board_up_to(places: &[Place], street: u8) -> CardRow
    requires { length (board_slots (map place_said places.now) street) ≤ 7 }
    ensures { cards_of result ≡ known_among (board_slots (map place_said places.now) street) }
{
    let mut board = SlotRow::new();
    for index in 0..street {
        board = board_with_street(board, places, index + 1);
    }
    board.known_cards()
}

/// Which of the players did not fold before a street.
pub fn live_before(moves: &[Move], street: u8, players: PlayerCount) -> LiveRow
    ensures seats { result.seats ≡ players.number }
    ensures flags { (n : ℕ) → 1 ≤ n → n ≤ players.number
        → flag_of result n ≡ not (list_any (is_fold_before street n) moves.now) }
{
    let folded = folds_before(moves, street);
    let mut live = LiveRow::new(players.number);
    for index in 0..players.number {
        let seat = Seat { number: index + 1 };
        live.set(seat, !folded.get(seat));
    }
    live
}
