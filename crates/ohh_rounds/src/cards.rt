//! What each step changes for the seats: every step concerns at most one seat.
ghost use Rattle.std.specs.Prelude.{◌≡◌, ◌≤◌, ◌+◌, ◌∷◌, ◌++◌, [], Some, map, option_map, true};
ghost use Rattle.std.specs.Option.{option_or};
ghost use Rattle.card_set.specs.Row.{slots_of};
ghost use Rattle.ohh_rounds.specs.StoredSeats.{AreSeatsAfter};
ghost use Rattle.play_event.specs.Said.{kind_said};
ghost use Rattle.ohh_rounds.specs.Steps.{LeavesFew, plain_effect, plain_step};
ghost use Rattle.ohh_rounds.specs.Steps as round_steps;

use crate::seat_so_far::SeatSoFar;
use crate::step::{ActionEffect, RoundStep};
use card_set::SlotRow;
use chip_ledger::Seat;
use play_event::Kind;

/// The state of each seat after one more step.
pub fn seats_after(
    mut seats: [SeatSoFar; 10],
    step: RoundStep,
    steps: &[RoundStep],
) -> [SeatSoFar; 10]
    requires seen { AreSeatsAfter (map plain_step steps.now) seats }
    requires few { LeavesFew (map plain_step steps.now) (plain_effect step.effect) }
    ensures { AreSeatsAfter (map plain_step steps.now ++ plain_step step ∷ []) result }
{
    match step.effect {
        ActionEffect::Posted(_) => seats,
        ActionEffect::Passed => seats,
        ActionEffect::Dealt { seat, cards } => {
            let index = seat.number as usize - 1;
            seats[index] = with_deal(seats[index], cards, step.number);
            seats
        }
        ActionEffect::Happened(kind) => match find_folding_seat(kind) {
            Some(seat) => {
                let index = seat.number as usize - 1;
                seats[index] = with_fold(seats[index]);
                seats
            }
            None => seats,
        },
    }
}

// The seat after it was dealt more cards, in the step with this number.
fn with_deal(seen: SeatSoFar, cards: SlotRow, number: u32) -> SeatSoFar
    requires { seen.cards.len + cards.len ≤ 7 }
    ensures folded { result.folded ≡ seen.folded }
    ensures cards { slots_of result.cards ≡ slots_of seen.cards ++ slots_of cards }
    ensures first_deal { result.first_deal ≡ option_or seen.first_deal (Some number) }
{
    SeatSoFar {
        folded: seen.folded,
        cards: joined(seen.cards, cards),
        first_deal: first_of(seen.first_deal, number),
    }
}

// The cards, followed by more cards.
fn joined(cards: SlotRow, more: SlotRow) -> SlotRow
    requires { cards.len + more.len ≤ 7 }
    ensures { slots_of result ≡ slots_of cards ++ slots_of more }
{
    let mut all = cards;
    for slot in more.as_slice() {
        all.push(*slot);
    }
    all
}

// The number of the first deal; this number, if there was none before.
fn first_of(first: Option<u32>, number: u32) -> Option<u32>
    ensures { result ≡ option_or first (Some number) }
{
    match first {
        Some(first) => Some(first),
        None => Some(number),
    }
}

// The seat that folds, if the event is a fold.
fn find_folding_seat(kind: Kind) -> Option<Seat>
    ensures { option_map (λ seat. seat.number) result ≡ round_steps.folder (kind_said kind) }
{
    match kind {
        Kind::Fold { actor } => actor,
        _ => None,
    }
}

// The seat after it folded.
fn with_fold(seen: SeatSoFar) -> SeatSoFar
    ensures { result ≡ record {
      folded = true;
      cards = seen.cards;
      first_deal = seen.first_deal;
    } }
{
    SeatSoFar {
        folded: true,
        ..seen
    }
}
