//! Seats the players of a hand, from the button on.
ghost use Rattle.std.specs.Prelude.{◌≡◌, ◌≤◌, ◌∷◌, List, fold, length, map, IfOk, option_map};
ghost use Rattle.serde_json.specs.View.{view};
ghost use Rattle.first_fault.specs.Reading.{Gives};
ghost use Rattle.ohh_members.specs.Players.{PlainPlayer, above, button_said, lowest, plain_player, seated, seated_said};
ghost use Rattle.ohh_members.specs.Players as player_list;

use crate::fault::{MemberFault, MemberFaultKind, Path};
use crate::player::Player;
use crate::players::list_players;
use crate::values::{fault_at, read_integer, required};
use card_set::{Memory, TryPush};
use first_fault::ReadError;
use serde_json::Value;
use std::alloc::Global;

/// The players in the order of their seats in the hand: the first sits after the button, and the
/// last is on it.
#[tactic(auto, unfolding(crate::specs::Players::seated_said))]
pub fn read_players<'a>(
    alloc: Global,
    ohh: &'a Value,
) -> Result<Vec<Player<'a>>, ReadError<MemberFault>>
    ensures said { Gives (λ found. map plain_player found.items) result
        (seated_said (view ohh.now)) }
    ensures some { IfOk result (λ found. 2 ≤ length found.items) }
    ensures few { IfOk result (λ found. length found.items ≤ 10) }
{
    let players = list_players(alloc, ohh)?;
    let button = read_button(&players, ohh)?;
    let found = sit(alloc, &players, button)?;
    Ok(found)
}

// The player on the button.
#[tactic(auto, unfolding(crate::specs::Players::button_said))]
fn read_button<'a>(
    players: &[Player<'a>],
    ohh: &Value,
) -> Result<Player<'a>, ReadError<MemberFault>>
    ensures { Gives plain_player result
        (button_said (map plain_player players.now) (view ohh.now)) }
{
    let seat = read_integer(required(ohh, Path::DealerSeat)?, Path::DealerSeat)?;
    match find_player(seat, players) {
        Some(player) => Ok(player),
        None => Err(fault_at(MemberFaultKind::BadPlayer, Path::DealerSeat)),
    }
}

// The player in a seat of the table.
fn find_player<'a>(seat: i128, players: &[Player<'a>]) -> Option<Player<'a>>
    ensures { option_map plain_player result
        ≡ player_list.player_at seat (map plain_player players.now) }
{
    for player in players {
        if i128::from(player.seat) == seat {
            return Some(*player);
        }
    }
    None
}

// The players in the order of their seats in the hand, the first after the button.
fn sit<'a>(
    alloc: Global,
    players: &[Player<'a>],
    button: Player<'a>,
) -> Result<Vec<Player<'a>>, Memory>
    ensures order { IfOk result (λ found. map plain_player found.items
        ≡ seated (map plain_player players.now) (plain_player button.entry)) }
    ensures count { IfOk result (λ found. length found.items ≡ length players.now) }
{
    let mut found = Vec::new(alloc);
    let mut last = button;
    for _seat in 0..players.len() {
        last = find_next_player(players, last);
        found.try_push(last)?;
    }
    Ok(found)
}

// The player in the next higher seat, going round.
fn find_next_player<'a>(players: &[Player<'a>], player: Player<'a>) -> Player<'a>
    ensures { plain_player result
        ≡ player_list.next_player (map plain_player players.now) (plain_player player.entry) }
{
    match lowest_above(players, player.seat) {
        Some(next) => next,
        None => match lowest_above(players, 0) {
            Some(first) => first,
            None => player,
        },
    }
}

// The player in the lowest seat that is higher than this one.
fn lowest_above<'a>(players: &[Player<'a>], seat: u8) -> Option<Player<'a>>
    ensures { option_map plain_player result
        ≡ lowest (above seat (map plain_player players.now)) }
{
    let mut found = None;
    for player in players {
        found = lower_above(found, *player, seat);
    }
    found
}

// The lower of `found` and this player, if the player's seat is higher than this one.
fn lower_above<'a>(found: Option<Player<'a>>, player: Player<'a>, seat: u8) -> Option<Player<'a>>
    ensures { (rest : List PlainPlayer)
        → fold player_list.lower (option_map plain_player result) (above seat rest)
        ≡ fold player_list.lower (option_map plain_player found.entry)
        (above seat (plain_player player.entry ∷ rest)) }
{
    if seat < player.seat {
        keep_lower(found, player)
    } else {
        found
    }
}

// Of two players, the one in the lower seat.
fn keep_lower<'a>(found: Option<Player<'a>>, player: Player<'a>) -> Option<Player<'a>>
    ensures { option_map plain_player result
        ≡ player_list.lower (option_map plain_player found.entry) (plain_player player.entry) }
{
    match found {
        None => Some(player),
        Some(other) => {
            if player.seat < other.seat {
                Some(player)
            } else {
                Some(other)
            }
        }
    }
}
