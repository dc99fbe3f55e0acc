//! State while reading rounds: what later actions need to know.
ghost use Rattle.std.specs.Prelude.{◌≡◌, ◌≤◌, ◌+◌, length, map};
ghost use Rattle.play_event.specs.declared.hand_limits.TheConstants.{MOST_MOVES, MOST_OTHER_EVENTS};
ghost use Rattle.first_fault.specs.declared.limits.TheConstants.{MOST_FILE_MOVES};
ghost use Rattle.ohh_rounds.specs.StoredSeats.{AreSeatsAfter, IsSeatAfter};
ghost use Rattle.ohh_rounds.specs.Steps.{next_number, moves_in, others_in, plain_step};

use crate::cards::seats_after;
use crate::hand_context::HandContext;
use crate::seat_so_far::SeatSoFar;
use crate::step::{RoundStep, moves_of, next_after, others_of};
use card_set::{Memory, SlotRow, TryPush};
use chip_ledger::Seat;
use std::alloc::Global;

/// The steps so far, and what is known of each seat.
#[derive(Debug, Drop)]
pub struct RoundsSoFar<'a> {
    pub setting: HandContext<'a>,
    pub steps: Vec<RoundStep>,
    /// The number of the next action.
    pub next: u32,
    pub moves: usize,
    /// The number of events of the script so far that are not moves, not counting the hole deals.
    pub other_events: usize,
    /// What is known of each seat, the first seat at index 0.
    pub seats: [SeatSoFar; 10],
    pub ghost next_is: { next ≡ next_number (map plain_step steps.items) },
    pub ghost moves_are: { moves ≡ moves_in (map plain_step steps.items) },
    pub ghost others_are: { other_events ≡ others_in (map plain_step steps.items) },
    pub ghost seats_are: { AreSeatsAfter (map plain_step steps.items) seats },
    pub ghost few_moves: { moves ≤ MOST_MOVES },
    pub ghost few_file_moves: { setting.file_moves + moves ≤ MOST_FILE_MOVES },
    pub ghost few_others: { setting.table.stacks.seats + other_events ≤ MOST_OTHER_EVENTS },
}

impl<'a> RoundsSoFar<'a> {
    ghost use Rattle.std.specs.Prelude.{◌∷◌, ◌++◌, [], OnOk};
    ghost use Rattle.ohh_rounds.specs.Steps.{IsWithin, LeavesFew, dealt_to, is_folded, plain_effect};

    /// The state before the first step.
    pub fn none(alloc: Global, setting: &HandContext<'a>) -> Self
        ensures steps { result.steps.items ≡ [] }
        ensures setting { result.setting ≡ setting.now }
    {
        let nothing = SeatSoFar {
            folded: false,
            cards: SlotRow::new(),
            first_deal: None,
        };
        RoundsSoFar {
            setting: *setting,
            steps: Vec::new(alloc),
            next: 1,
            moves: 0,
            other_events: 0,
            seats: [nothing; 10],
        }
    }

    /// Whether the seat folded.
    pub fn has_folded(&self, seat: Seat) -> bool
        ensures { result ≡ is_folded seat.number (map plain_step self.now.steps.items) }
    {
        self.seat(seat).folded
    }

    /// How many hole cards were dealt to the seat.
    pub fn cards_dealt(&self, seat: Seat) -> usize
        ensures dealt { result
            ≡ length (dealt_to seat.number (map plain_step self.now.steps.items)) }
        ensures few { result ≤ 7 }
    {
        let seen = self.seat(seat);
        seen.cards.as_slice().len()
    }

    /// What is known of a seat.
    pub fn seat(&self, seat: Seat) -> SeatSoFar
        ensures { IsSeatAfter seat.number (map plain_step self.now.steps.items) result }
    {
        self.seats[seat.number as usize - 1]
    }

    /// Takes one more step, which exceeds no limit.
    pub fn push(&mut self, step: RoundStep) -> Result<(), Memory>
        requires within { IsWithin self.old.setting.table.stacks.seats self.old.setting.file_moves
            (map plain_step self.old.steps.items) (plain_effect step.effect) }
        requires few { LeavesFew (map plain_step self.old.steps.items) (plain_effect step.effect) }
        ensures steps { OnOk result (self.new.steps.items ≡ self.old.steps.items ++ step ∷ []) }
        ensures setting { self.new.setting ≡ self.old.setting }
    {
        let seats = seats_after(self.seats, step, self.steps.as_slice());
        self.steps.try_push(step)?;
        self.seats = seats;
        self.next = next_after(self.next, step);
        self.moves += moves_of(step.effect);
        self.other_events += others_of(step.effect);
        Ok(())
    }
}
