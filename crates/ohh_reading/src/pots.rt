//! Reads what a hand states of its pots: their amounts, their rakes, and what each seat wins.
ghost use Rattle.std.specs.Prelude.{◌≡◌, ◌≤◌, ◌+◌, length, map, unwrap_or, IfOk};
ghost use Rattle.std.specs.Option.{ForSome};
ghost use Rattle.serde_json.specs.View.{view};
ghost use Rattle.chip_ledger.specs.SeatRow.{amount_of};
ghost use Rattle.chip_ledger.specs.declared.seat_row.TheConstants.{MOST_AMOUNT};
ghost use Rattle.first_fault.specs.Reading.{Gives, added_from, read_if};
ghost use Rattle.ohh_reading.specs.PotSums.{plain_listed_pot};
ghost use Rattle.ohh_reading.specs.Won.{plain_win};
ghost use Rattle.ohh_reading.specs.Pots.{IsPaid, amount_said, no_pots, plain_found, plain_paid, pot_added, pots_said, rake_said, summed, win_added, win_said, wins_said};
ghost use Rattle.ohh_members.specs.Values.{number_said};
ghost use Rattle.ohh_members.specs.Values as member_values;

use crate::listed_pot::ListedPot;
use crate::listed_pots::{ListedPots, Paid};
use crate::won::{Win, Won};
use chip_ledger::MOST_AMOUNT;
use first_fault::ReadError;
use ohh_members::fault::{MemberFault, MemberFaultKind, Path, PotMember, WinMember};
use ohh_members::player_ids::PlayerIds;
use ohh_members::values::{
    fault_at, field, read_list, read_number, read_object, read_player, required,
};
use serde_json::Value;
use std::alloc::Global;

/// What a hand with these players states of its pots.
#[tactic(auto, unfolding(crate::specs::Pots::pots_said, crate::specs::Pots::listed_paid))]
pub fn read_pots(
    alloc: Global,
    players: &PlayerIds,
    ohh: &Value,
) -> Result<Paid, ReadError<MemberFault>>
    ensures said { Gives plain_paid result (pots_said players.now.ids.now (view ohh.now)) }
    ensures fits { IfOk result (IsPaid (length players.now.ids.now)) }
{
    match field(ohh, Path::Pots) {
        Some(value) => {
            let values = read_list(value, Path::Pots)?;
            let found = add_pots(alloc, players, values)?;
            Ok(found.paid())
        }
        None => Ok(Paid::none()),
    }
}

// Adds the pots of a list, and what is won of them.
fn add_pots(
    alloc: Global,
    players: &PlayerIds,
    values: &[Value],
) -> Result<ListedPots, ReadError<MemberFault>>
    ensures said { Gives plain_found result
        (added_from (pot_added players.now.ids.now) no_pots 0 (map view values.now)) }
    ensures seats { IfOk result (λ found. found.won.sums.seats ≡ length players.now.ids.now) }
{
    let mut found = ListedPots::new(alloc, players.count());
    for (index, value) in values.iter().enumerate() {
        found = add_pot(players, found, index as u64, value)?;
    }
    Ok(found)
}

// Adds one pot, and what is won of it.
#[tactic(auto, unfolding(crate::specs::Pots::pot_added))]
fn add_pot(
    players: &PlayerIds,
    found: ListedPots,
    index: u64,
    value: &Value,
) -> Result<ListedPots, ReadError<MemberFault>>
    requires ids { length players.now.ids.now ≡ found.won.sums.seats }
    ensures said { Gives plain_found result
        (pot_added players.now.ids.now (plain_found found) index (view value.now)) }
    ensures seats { IfOk result (λ after. after.won.sums.seats ≡ found.won.sums.seats) }
{
    let itself = Path::Pot {
        index,
        member: PotMember::Itself,
    };
    let pot = read_object(value, itself)?;
    let amount = read_amount(&found, index, pot)?;
    let rake = read_rake(index, pot)?;
    let after = found.with_pot(ListedPot { amount, rake })?;
    let ListedPots { pots, total, won } = after;
    let won = read_wins(players, index, won, pot)?;
    Ok(ListedPots { pots, total, won })
}

// The amount of a pot, after pots with this total.
#[tactic(auto, unfolding(crate::specs::Pots::amount_said))]
fn read_amount(found: &ListedPots, index: u64, pot: &Value) -> Result<u64, ReadError<MemberFault>>
    ensures said { Gives (λ amount. amount) result
        (amount_said (map plain_listed_pot found.now.pots.items) index (view pot.now)) }
    ensures within { IfOk result (λ amount. found.now.total + amount ≤ MOST_AMOUNT) }
{
    let path = Path::Pot {
        index,
        member: PotMember::Amount,
    };
    let amount = read_number(required(pot, path)?, 0, MOST_AMOUNT, path)?;
    within_sum(found.total, path, amount)
}

// The rake of a pot; no rake is allowed after the eleventh pot.
#[tactic(auto, unfolding(crate::specs::Pots::rake_said))]
fn read_rake(index: u64, pot: &Value) -> Result<u64, ReadError<MemberFault>>
    ensures said { Gives (λ rake. rake) result (rake_said index (view pot.now)) }
    ensures most { IfOk result (λ rake. rake ≤ MOST_AMOUNT) }
{
    let path = Path::Pot {
        index,
        member: PotMember::Rake,
    };
    let rake = or_zero(number_or_none(pot, path)?);
    if index >= 11 && rake > 0 {
        return Err(fault_at(MemberFaultKind::RakePlace, path));
    }
    Ok(rake)
}

// The number, or 0 if there is none.
fn or_zero(number: Option<u64>) -> u64
    ensures said { result ≡ unwrap_or number 0 }
    ensures most { ForSome number (λ number. number ≤ MOST_AMOUNT) → result ≤ MOST_AMOUNT }
{
    match number {
        Some(number) => number,
        None => 0,
    }
}

// The number at a path, if it is there.
fn number_or_none(pot: &Value, path: Path) -> Result<Option<u64>, ReadError<MemberFault>>
    ensures said { Gives (λ number. number) result
        (read_if (number_said 0 MOST_AMOUNT path) (member_values.member_at path (view pot.now))) }
    ensures most { IfOk result (λ number. ForSome number (λ number. number ≤ MOST_AMOUNT)) }
{
    match field(pot, path) {
        Some(value) => {
            let number = read_number(value, 0, MOST_AMOUNT, path)?;
            Ok(Some(number))
        }
        None => Ok(None),
    }
}

// Adds what is won of a pot to what was won before.
#[tactic(auto, unfolding(crate::specs::Pots::wins_said))]
fn read_wins(
    players: &PlayerIds,
    index: u64,
    won: Won,
    pot: &Value,
) -> Result<Won, ReadError<MemberFault>>
    requires ids { length players.now.ids.now ≡ won.sums.seats }
    ensures said { Gives (λ after. map plain_win after.list.items) result
        (wins_said players.now.ids.now index (map plain_win won.list.items) (view pot.now)) }
    ensures seats { IfOk result (λ after. after.sums.seats ≡ won.sums.seats) }
{
    let path = Path::Pot {
        index,
        member: PotMember::PlayerWins,
    };
    let values = read_list(required(pot, path)?, path)?;
    let mut after = won;
    for (place, value) in values.iter().enumerate() {
        after = add_win(players, index, after, place as u64, value)?;
    }
    Ok(after)
}

// Adds one win.
#[tactic(auto, unfolding(crate::specs::Pots::win_added))]
fn add_win(
    players: &PlayerIds,
    pot: u64,
    won: Won,
    index: u64,
    value: &Value,
) -> Result<Won, ReadError<MemberFault>>
    requires ids { length players.now.ids.now ≡ won.sums.seats }
    ensures said { Gives (λ after. map plain_win after.list.items) result
        (win_added players.now.ids.now pot (map plain_win won.list.items) index (view value.now)) }
    ensures seats { IfOk result (λ after. after.sums.seats ≡ won.sums.seats) }
{
    let win = read_win(players, pot, &won, index, value)?;
    let after = won.with(win)?;
    Ok(after)
}

// What a player wins of the pot with this index, after these wins.
#[tactic(auto, unfolding(crate::specs::Pots::win_said))]
fn read_win(
    players: &PlayerIds,
    pot: u64,
    won: &Won,
    index: u64,
    value: &Value,
) -> Result<Win, ReadError<MemberFault>>
    requires ids { length players.now.ids.now ≡ won.now.sums.seats }
    ensures said { Gives plain_win result
        (win_said players.now.ids.now pot (map plain_win won.now.list.items) index
        (view value.now)) }
    ensures seated { IfOk result (λ win. win.seat.number ≤ won.now.sums.seats) }
    ensures within { IfOk result (λ win.
        amount_of won.now.sums win.seat.number + win.chips ≤ MOST_AMOUNT) }
{
    let itself = Path::Pot {
        index: pot,
        member: PotMember::Win {
            index,
            member: WinMember::Itself,
        },
    };
    let id = Path::Pot {
        index: pot,
        member: PotMember::Win {
            index,
            member: WinMember::PlayerId,
        },
    };
    let amount = Path::Pot {
        index: pot,
        member: PotMember::Win {
            index,
            member: WinMember::WinAmount,
        },
    };
    let win = read_object(value, itself)?;
    let seat = read_player(required(win, id)?, players, id)?;
    let chips = read_number(required(win, amount)?, 0, MOST_AMOUNT, amount)?;
    let chips = within_sum(won.sums.get(seat), amount, chips)?;
    Ok(Win { seat, chips })
}

// A number that, together with what it is added to, is within the limit of stated amounts.
#[tactic(auto, unfolding(crate::specs::Pots::summed))]
fn within_sum(before: u64, path: Path, number: u64) -> Result<u64, ReadError<MemberFault>>
    requires before { before ≤ MOST_AMOUNT }
    requires number { number ≤ MOST_AMOUNT }
    ensures said { Gives (λ number. number) result (summed before path number) }
    ensures within { IfOk result (λ number. before + number ≤ MOST_AMOUNT) }
{
    if before + number > MOST_AMOUNT {
        return Err(fault_at(MemberFaultKind::AmountLimit, path));
    }
    Ok(number)
}
