//! Who may raise, and to what, by the running numbers.
ghost use Rattle.std.specs.Prelude.{◌≡◌, ◌≤◌, ◌<◌, ◌-◌, ◌&&◌, ◌||◌, ◌==◌};
ghost use Rattle.chip_ledger.specs.declared.seat_row.TheConstants.{MOST_AMOUNT};
ghost use Rattle.play_event.specs.declared.limit.Limit.TheVariants as limits;
ghost use Rattle.play_event.specs.Streets.{unit};
ghost use Rattle.betting_numbers.specs.Seen.{all_in_seen, to_call_seen};
ghost use Rattle.betting_numbers.specs.Why.{bring_in_seen, bring_in_reason, call_seen, call_reason, is_within_cap_by, floor_by, fold_reason, is_another, may_raise_seen, ceiling_seen, full_raise_target_list, full_raise_targets_seen, greatest_seen, is_legal_seen, is_reopened_by, raise_to_reason, raise_reason, stated_reason, target_seen};
ghost use Rattle.chip_ledger.specs.Greatest.{greatest};
ghost use Rattle.chip_ledger.specs.SeatsSaid.{seat_said};
ghost use Rattle.play_event.specs.Targets.{is_legal_by, greatest_by};

use crate::betting_state::BettingState;
use chip_ledger::Seat;
use play_event::{Illegal, Limit, Reopen, Spelled};

impl BettingState {
    /// Why a fold is refused.
    pub fn illegal_fold(&self, named: Option<Seat>, player_to_act: Seat) -> Option<Illegal>
        ensures { result ≡ fold_reason self.now (seat_said named) player_to_act.number }
    {
        if another(named, player_to_act) {
            Some(Illegal::WrongSeat)
        } else if !self.rules.free_fold && self.to_call(player_to_act) == 0 {
            Some(Illegal::NothingToCall)
        } else {
            None
        }
    }

    /// Why a call is refused.
    pub fn illegal_call(
        &self,
        named: Option<Seat>,
        stated: Option<u64>,
        player_to_act: Seat,
    ) -> Option<Illegal>
        ensures { result ≡ call_reason self.now (seat_said named) stated player_to_act.number }
    {
        if another(named, player_to_act) {
            Some(Illegal::WrongSeat)
        } else {
            let due = self
                .call_target(player_to_act)
                .saturating_sub(self.bets.get(player_to_act));
            stated_differs(stated, due)
        }
    }

    /// The target of a call: the current bet, or all-in if that is less.
    pub fn call_target(&self, seat: Seat) -> u64
        ensures value { result ≡ call_seen self.now seat.number }
        ensures reach { result ≤ all_in_seen self.now seat.number }
    {
        self.current_bet().min(self.all_in(seat))
    }

    /// The target of a bring-in: the bring-in, or all-in if that is less.
    pub fn bring_in_target(&self, seat: Seat) -> u64
        ensures value { result ≡ bring_in_seen self.now seat.number }
        ensures reach { result ≤ all_in_seen self.now seat.number }
    {
        self.setup.bring_in.min(self.all_in(seat))
    }

    /// Why a bring-in is refused.
    pub fn illegal_bring_in(&self, named: Option<Seat>, player_to_act: Seat) -> Option<Illegal>
        ensures { result ≡ bring_in_reason (seat_said named) player_to_act.number }
    {
        if another(named, player_to_act) {
            Some(Illegal::WrongSeat)
        } else {
            None
        }
    }

    /// The least no-limit raise that is not all-in, given the current bet at the start of the
    /// street.
    pub fn floor(&self, start: u64) -> u64
        requires { start ≤ MOST_AMOUNT }
        ensures { result ≡ floor_by self.now.rules.reopen start self.now }
    {
        match self.rules.reopen {
            Reopen::Full => self.current_bet() + self.full_raise,
            Reopen::Always => (start + self.setup.min_bet).max(self.always_floor),
        }
    }

    /// The number of raises is within the cap.
    pub fn is_within_cap(&self) -> bool
        ensures { result ≡ is_within_cap_by self.now.rules.caps self.now.raises self.now.street }
    {
        match self.rules.caps {
            None => true,
            Some(caps) => 4 < self.street || self.raises < caps[self.street as usize - 1],
        }
    }
}

/// A seat that bets or raises, with the limit and the bet size by which its targets are judged.
#[derive(Clone, Copy)]
pub struct Raiser<'a> {
    pub numbers: &'a BettingState,
    pub seat: Seat,
    pub limit: Limit,
    /// The bet size of the street.
    pub size: u64,
    pub ghost in_hand: { seat.number ≤ numbers.now.setup.stacks.seats },
    pub ghost size_is: { size ≡ unit numbers.now.setup numbers.now.street },
}

impl Raiser<'_> {
    /// Why a raise is refused.
    pub fn against(&self, floor: u64, named: Option<Seat>, amount: Spelled) -> Option<Illegal>
        ensures { result
            ≡ raise_reason self.now.limit self.now.numbers.now floor (seat_said named) amount
            self.now.seat.number }
    {
        if another(named, self.seat) {
            Some(Illegal::WrongSeat)
        } else {
            self.illegal_target(floor, self.target(amount))
        }
    }

    /// The target of a raise.
    pub fn target(&self, amount: Spelled) -> u128
        ensures { result ≡ target_seen self.now.numbers.now self.now.seat.number amount }
    {
        let numbers = self.numbers;
        let bet = numbers.bets.get(self.seat);
        match amount {
            Spelled::To(amount) => u128::from(amount),
            Spelled::Added(amount) => u128::from(bet) + u128::from(amount),
            Spelled::HandTotal(amount) => {
                let before = numbers.puts.get(self.seat).saturating_sub(bet);
                u128::from(amount.saturating_sub(before))
            }
            Spelled::Unit => {
                let current_bet = numbers.current_bet();
                let target = if current_bet < self.size {
                    u128::from(self.size)
                } else {
                    u128::from(current_bet) + u128::from(self.size)
                };
                target.min(u128::from(numbers.all_in(self.seat)))
            }
        }
    }

    /// Why a raise to a target is refused.
    pub fn illegal_target(&self, floor: u64, target: u128) -> Option<Illegal>
        ensures { result
            ≡ raise_to_reason self.now.limit self.now.numbers.now floor self.now.seat.number
            target }
    {
        let (legal, greatest) = self.check_target(floor, target);
        if !self.may_raise() {
            Some(Illegal::RaiseClosed)
        } else if !legal && target < greatest {
            Some(Illegal::RaiseTooSmall)
        } else if greatest < target {
            Some(Illegal::RaiseTooBig)
        } else {
            None
        }
    }

    /// Whether a target is legal, and the greatest legal one, in chips of the street.
    pub fn check_target(&self, floor: u64, target: u128) -> (bool, u128)
        ensures legal { result.0
            ≡ is_legal_seen self.now.limit self.now.numbers.now floor self.now.seat.number
            target }
        ensures greatest { result.1
            ≡ greatest_seen self.now.limit self.now.numbers.now self.now.seat.number }
    {
        let numbers = self.numbers;
        let all_in = u128::from(numbers.all_in(self.seat));
        match self.limit {
            Limit::No => (
                (u128::from(floor) <= target && target <= all_in) || target == all_in,
                all_in,
            ),
            Limit::Pot => {
                let ceiling = u128::from(self.ceiling());
                let least = u128::from(numbers.current_bet() + numbers.full_raise);
                (
                    (least <= target && target <= all_in.min(ceiling))
                        || (target == all_in && target <= ceiling),
                    all_in.min(ceiling),
                )
            }
            Limit::Fixed => check_fixed_target(self.full_raise_targets(), all_in, target),
        }
    }

    /// The greatest raise in pot limit, in chips of the street: the current bet plus the pot after
    /// a call.
    pub fn ceiling(&self) -> u64
        ensures { result ≡ ceiling_seen self.now.numbers.now self.now.seat.number }
    {
        let numbers = self.numbers;
        let current_bet = numbers.current_bet();
        (current_bet + numbers.full_raise).max(
            current_bet + numbers.pot + numbers.to_call(self.seat),
        )
    }

    /// The first full raise in fixed limit, and the other one if there is one, in chips of the
    /// street.
    pub fn full_raise_targets(&self) -> (u128, Option<u128>)
        ensures { full_raise_targets_seen self.now.numbers.now ≡ full_raise_target_list result }
    {
        let current_bet = u128::from(self.numbers.current_bet());
        let size = u128::from(self.size);
        if current_bet < size {
            return (size, None);
        }
        let above = u128::from(self.numbers.full_bet) + size;
        if current_bet < above {
            (current_bet + size, Some(above))
        } else {
            (current_bet + size, None)
        }
    }

    /// The seat may raise.
    pub fn may_raise(&self) -> bool
        ensures { result ≡ may_raise_seen self.now.limit self.now.numbers.now self.now.seat.number }
    {
        let numbers = self.numbers;
        let open = match numbers.rules.reopen {
            Reopen::Always => true,
            Reopen::Full => !numbers.moved.get(self.seat) || self.owes_enough(),
        };
        numbers.has_opponent(self.seat)
            && numbers.current_bet() < numbers.all_in(self.seat)
            && numbers.is_within_cap()
            && open
    }

    /// What the seat owes is enough to reopen the betting to it.
    pub fn owes_enough(&self) -> bool
        ensures { result
            ≡ is_reopened_by self.now.limit self.now.numbers.now.full_raise self.now.size
            (to_call_seen self.now.numbers.now self.now.seat.number) }
    {
        let to_call = self.numbers.to_call(self.seat);
        match self.limit {
            Limit::No | Limit::Pot => self.numbers.full_raise <= to_call,
            Limit::Fixed => u128::from(self.size) <= 2 * u128::from(to_call),
        }
    }
}

// Whether a target is legal, and the greatest legal one, in fixed limit.
fn check_fixed_target(
    full_raise_targets: (u128, Option<u128>),
    all_in: u128,
    target: u128,
) -> (bool, u128)
    ensures legal { result.0 ≡ is_legal_by limits.Fixed 0 0 all_in 0
        (full_raise_target_list full_raise_targets) target }
    ensures greatest { result.1 ≡ greatest_by limits.Fixed all_in 0
        (full_raise_target_list full_raise_targets) }
{
    let (first, other) = full_raise_targets;
    match other {
        None => (
            (target == first && target <= all_in) || (target == all_in && target < first),
            all_in.min(first),
        ),
        Some(second) => (
            ((target == first || target == second) && target <= all_in)
                || (target == all_in && target < first.max(second)),
            all_in.min(first.max(second)),
        ),
    }
}

// The event names a seat whose turn it is not.
fn another(named: Option<Seat>, player_to_act: Seat) -> bool
    ensures { result ≡ is_another (seat_said named) player_to_act.number }
{
    match named {
        Some(seat) => seat.number != player_to_act.number,
        None => false,
    }
}

// A call states a different number of chips than it adds.
fn stated_differs(stated: Option<u64>, due: u64) -> Option<Illegal>
    ensures { result ≡ stated_reason stated due }
{
    match stated {
        Some(stated) => {
            if stated == due {
                None
            } else {
                Some(Illegal::AmountDiffers { stated, due })
            }
        }
        None => None,
    }
}
