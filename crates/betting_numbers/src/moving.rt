//! How the running numbers change by a move.
ghost use Rattle.std.specs.Prelude.{◌<◌, ◌≡◌, ◌≤◌, ◌+◌, ◌-◌, ◌*◌, ◌&&◌, ◌||◌, ℕ, false, None, nat_le, nat_lt, not, min, max, if◌then◌else◌};
ghost use Rattle.chip_ledger.specs.LiveRow.{flag_of};
ghost use Rattle.chip_ledger.specs.declared.seat_row.TheConstants.{MOST_AMOUNT};
ghost use Rattle.play_event.specs.Past.{is_folding};
ghost use Rattle.play_event.specs.Played.{act_said};
ghost use Rattle.betting_numbers.specs.Moving.{IsMoved, IsNextStreet, most_raises};
ghost use Rattle.betting_numbers.specs.Turn.{with_due, with_turn};
ghost use Rattle.betting_numbers.specs.Seen.{all_in_seen};

use crate::betting_state::BettingState;
use chip_ledger::{LiveRow, Seat, SeatRow};
use play_event::{Act, Due};

impl BettingState {
    /// Makes a move of the seat to a target (chips of the street); `unit` is the bet size.
    pub fn apply_move(&mut self, seat: Seat, act: Act, target: u64, unit: u64)
        requires in_hand { seat.number ≤ self.old.setup.stacks.seats }
        requires reach { target ≤ all_in_seen self.old seat.number }
        ensures { IsMoved self.old self.new seat.number (act_said act) target unit }
    {
        let current_bet = self.current_bet;
        let bet = self.bets.get(seat);
        let put = self.puts.get(seat);
        let was_live = self.live.get(seat);
        let was_able = self.can_act(seat);
        let live = live_after(was_live, act);
        let added = target.saturating_sub(bet);
        let able = able_after(live, self.setup.stacks.get(seat), put + added);
        let live_count = count_after(self.live_count, was_live, live);
        let able_count = count_after(self.able_count, was_able, able);
        let raised = act.is_raise();
        let opens = raised || act.is_bring_in();
        let bet_or_bring_in_made = opens || self.bet_or_bring_in_made;
        self.bets.set(seat, bet + added);
        self.puts.set(seat, put + added);
        self.pot += added;
        self.current_bet = current_bet.max(bet + added);
        self.live.set(seat, live);
        self.live_count = live_count;
        self.able_count = able_count;
        self.moved.set(seat, true);
        keep(&mut self.acted_since_raise, target <= current_bet);
        self.acted_since_raise.set(seat, true);
        self.last = Some(seat);
        self.raises = raises_after(self.raises, raised);
        self.full_raise = full_raise_after(
            self.full_raise,
            raised,
            target.saturating_sub(current_bet),
        );
        self.full_bet = full_bet_after(self.full_bet, opens, unit, target);
        self.always_floor = always_floor_after(self.always_floor, raised, target, current_bet);
        self.bet_or_bring_in_made = bet_or_bring_in_made;
    }

    /// Begins the next street, on which this is due.
    pub fn next_street(&mut self, due: Due)
        requires { self.old.street < 255 }
        ensures numbers { IsNextStreet self.old self.new }
        ensures due { self.new.due ≡ due }
        ensures last { self.new.last ≡ None }
    {
        self.street += 1;
        self.due = due;
        self.bets = SeatRow::new(self.setup.stacks.seats);
        self.current_bet = 0;
        keep(&mut self.moved, false);
        keep(&mut self.acted_since_raise, false);
        self.last = None;
        self.raises = 0;
        self.full_raise = self.setup.min_bet;
        self.full_bet = 0;
        self.always_floor = 0;
        self.bet_or_bring_in_made = false;
    }

    /// Sets what is due.
    pub fn set_due(&mut self, due: Due)
        ensures { self.new ≡ with_due self.old due }
    {
        let next = self.next;
        self.set_turn(due, next);
    }

    /// Sets what is due and, if that is a move, the player to act.
    pub fn set_turn(&mut self, due: Due, next: Option<Seat>)
        ensures { self.new ≡ with_turn self.old due next }
    {
        self.due = due;
        self.next = next;
    }
}

// Keeps the flags, or clears them all.
fn keep(row: &mut LiveRow, kept: bool)
    ensures seats { row.new.seats ≡ row.old.seats }
    ensures flags { (n : ℕ) → flag_of row.new n ≡ (kept && flag_of row.old n) }
{
    if !kept {
        row.flags = [false; 10];
    }
}

// A live seat stays live unless it folds.
fn live_after(live: bool, act: Act) -> bool
    ensures { result ≡ (live && not (is_folding (act_said act))) }
{
    live && !act.is_fold()
}

// Whether a live seat can act after it has put `put` chips of its stack.
fn able_after(live: bool, stack: u64, put: u64) -> bool
    ensures { result ≡ (live && nat_lt 0 (stack - put)) }
{
    live && put < stack
}

// Decrements the count if the seat no longer belongs to it.
fn count_after(count: u8, was: bool, is: bool) -> u8
    ensures { result ≡ (if was && not is then count - 1 else count) }
{
    if was && !is {
        count.saturating_sub(1)
    } else {
        count
    }
}

// Increments the number of raises after a raise, up to the greatest u32.
fn raises_after(count: u32, raised: bool) -> u32
    ensures { result ≡ (if raised then min (count + 1) most_raises else count) }
{
    if raised {
        count.saturating_add(1)
    } else {
        count
    }
}

// The size of a full raise after a move that goes `rise` chips above the current bet.
fn full_raise_after(full_raise: u64, raised: bool, rise: u64) -> u64
    ensures { result
        ≡ (if raised && nat_le full_raise rise then max rise full_raise else full_raise) }
{
    if raised && full_raise <= rise {
        rise.max(full_raise)
    } else {
        full_raise
    }
}

// The last full bet after a move to a target.
fn full_bet_after(full_bet: u64, opens: bool, unit: u64, target: u64) -> u64
    ensures { result ≡ (if opens && nat_le (full_bet + unit) target then target else full_bet) }
{
    if opens && full_bet <= target && unit <= target - full_bet {
        target
    } else {
        full_bet
    }
}

// The greatest doubled raise after a move to a target.
fn always_floor_after(always_floor: u64, raised: bool, target: u64, current_bet: u64) -> u64
    requires { target ≤ MOST_AMOUNT }
    ensures { result ≡ (if raised then max (2 * target - current_bet) always_floor
        else always_floor) }
{
    if raised {
        (2 * target).saturating_sub(current_bet).max(always_floor)
    } else {
        always_floor
    }
}
