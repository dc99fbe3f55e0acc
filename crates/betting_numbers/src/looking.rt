//! What the running numbers say: who is live and can act, the current bet, and what is owed.
ghost use Rattle.std.specs.Prelude.{◌≡◌, ◌≤◌, ◌<◌};
ghost use Rattle.chip_ledger.specs.declared.seat_row.TheConstants.{MOST_AMOUNT};
ghost use Rattle.play_event.specs.Streets.{is_stud_game};
ghost use Rattle.betting_numbers.specs.Seen.{able_count_seen, can_act_seen, all_in_seen, is_bring_in_due_seen, left_seen, live_count_seen, has_opponent_seen, to_call_seen, current_bet_seen, has_to_move_seen};

use crate::betting_state::BettingState;
use chip_ledger::Seat;

impl BettingState {
    /// The current bet of the street, in chips.
    pub fn current_bet(&self) -> u64
        ensures value { result ≡ current_bet_seen self.now }
        ensures bounded { result ≤ MOST_AMOUNT }
    {
        self.current_bet
    }

    /// The seat's chips on the street once it is all-in.
    pub fn all_in(&self, seat: Seat) -> u64
        ensures value { result ≡ all_in_seen self.now seat.number }
        ensures bounded { result ≤ MOST_AMOUNT }
    {
        let bet = self.bets.get(seat);
        bet + self.left(seat)
    }

    /// The number of live seats.
    pub fn live_count(&self) -> u8
        ensures { result ≡ live_count_seen self.now }
    {
        self.live_count
    }

    /// The seat has a move to make.
    pub fn to_move(&self, seat: Seat) -> bool
        ensures { result ≡ has_to_move_seen self.now seat.number }
    {
        self.can_act(seat)
            && !self.acted_since_raise.get(seat)
            && (0 < self.to_call(seat) || 2 <= self.able_count())
    }

    /// What the seat owes to call, in chips.
    pub fn to_call(&self, seat: Seat) -> u64
        ensures { result ≡ to_call_seen self.now seat.number }
    {
        self.current_bet.saturating_sub(self.bets.get(seat))
    }

    /// Another seat can act.
    pub fn has_opponent(&self, seat: Seat) -> bool
        ensures { result ≡ has_opponent_seen self.now seat.number }
    {
        if self.setup.stacks.seats < seat.number {
            0 < self.able_count()
        } else if self.can_act(seat) {
            1 < self.able_count()
        } else {
            0 < self.able_count()
        }
    }

    /// The seat can act: it is live and has chips left.
    pub fn can_act(&self, seat: Seat) -> bool
        ensures { result ≡ can_act_seen self.now seat.number }
    {
        self.live.get(seat) && 0 < self.left(seat)
    }

    /// The chips that the seat has left.
    pub fn left(&self, seat: Seat) -> u64
        ensures { result ≡ left_seen self.now seat.number }
    {
        self.setup
            .stacks
            .get(seat)
            .saturating_sub(self.puts.get(seat))
    }

    /// Whether a bring-in is due; `stud` says whether the game is stud.
    pub fn is_bring_in_due(&self, stud: bool) -> bool
        requires { stud ≡ is_stud_game self.now.setup.code }
        ensures { result ≡ is_bring_in_due_seen self.now }
    {
        stud && self.street == 1 && 2 <= self.able_count() && !self.bet_or_bring_in_made
    }

    /// The number of seats that can act.
    pub fn able_count(&self) -> u8
        ensures { result ≡ able_count_seen self.now }
    {
        self.able_count
    }
}
