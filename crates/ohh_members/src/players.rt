//! Reads the players of a hand in the order in which they are listed.
ghost use Rattle.std.specs.Prelude.{◌≡◌, ◌≤◌, ◌+◌, [], length, map, IfOk, option_map};
ghost use Rattle.std.specs.Option.{ForSome};
ghost use Rattle.serde_json.specs.View.{view};
ghost use Rattle.chip_ledger.specs.declared.numbers.TheConstants.{MOST_CHIPS};
ghost use Rattle.first_fault.specs.declared.limits.TheConstants.{MOST_TEXT_BYTES};
ghost use Rattle.first_fault.specs.Reading.{Gives, added_from};
ghost use Rattle.ohh_members.specs.Players.{id_said, name_said, plain_player, player_added, player_said, players_said, seat_said, short_text_said, stack_said};
ghost use Rattle.ohh_members.specs.Players as player_list;

use crate::fault::{MemberFault, MemberFaultKind, Path, PlayerMember};
use crate::player::Player;
use crate::values::{
    fault_at, field, read_integer, read_list, read_number, read_object, read_text, required,
};
use card_set::TryPush;
use chip_ledger::MOST_CHIPS;
use first_fault::{MOST_TEXT_BYTES, Quantity, ReadError, has_count};
use serde_json::Value;
use std::alloc::Global;

/// Two to ten players, in the order in which they are listed.
#[tactic(auto, unfolding(crate::specs::Players::players_said))]
pub fn list_players<'a>(
    alloc: Global,
    ohh: &'a Value,
) -> Result<Vec<Player<'a>>, ReadError<MemberFault>>
    ensures said { Gives (λ found. map plain_player found.items) result
        (players_said (view ohh.now)) }
    ensures some { IfOk result (λ found. 2 ≤ length found.items) }
    ensures few { IfOk result (λ found. length found.items ≤ 10) }
{
    let values = read_list(required(ohh, Path::Players)?, Path::Players)?;
    if !has_count(values, 2, 10) {
        return Err(fault_at(MemberFaultKind::BadPlayer, Path::Players));
    }
    add_players(alloc, values)
}

// The players of a list.
fn add_players<'a>(
    alloc: Global,
    values: &'a [Value],
) -> Result<Vec<Player<'a>>, ReadError<MemberFault>>
    ensures said { Gives (λ found. map plain_player found.items) result
        (added_from player_added [] 0 (map view values.now)) }
    ensures count { IfOk result (λ found. length found.items ≡ length values.now) }
{
    let mut players = Vec::new(alloc);
    for (index, value) in values.iter().enumerate() {
        add_player(&mut players, index as u64, value)?;
    }
    Ok(players)
}

// The players with one more.
#[tactic(auto, unfolding(crate::specs::Players::player_added))]
fn add_player<'a>(
    players: &mut Vec<Player<'a>>,
    index: u64,
    value: &'a Value,
) -> Result<(), ReadError<MemberFault>>
    ensures said { Gives (λ x. map plain_player players.new.items) result
        (player_added (map plain_player players.old.items) index (view value.now)) }
    ensures count { IfOk result (λ x. length players.new.items ≡ length players.old.items + 1) }
{
    let player = read_player(players.as_slice(), index, value)?;
    players.try_push(player)?;
    Ok(())
}

// A player, checked against those before it.
#[tactic(auto, unfolding(crate::specs::Players::player_said))]
fn read_player<'a>(
    earlier: &[Player],
    index: u64,
    value: &'a Value,
) -> Result<Player<'a>, ReadError<MemberFault>>
    ensures { Gives plain_player result
        (player_said (map plain_player earlier.now) index (view value.now)) }
{
    let path = Path::Player {
        index,
        member: PlayerMember::Itself,
    };
    let player = read_object(value, path)?;
    let id = read_id(earlier, index, player)?;
    let seat = read_seat(earlier, index, player)?;
    let name = read_name(index, player)?;
    let stack = read_stack(index, player)?;
    Ok(Player {
        id,
        seat,
        name,
        stack,
    })
}

// The id of a player, different from those before it.
#[tactic(auto, unfolding(crate::specs::Players::id_said))]
fn read_id(earlier: &[Player], index: u64, player: &Value) -> Result<i128, ReadError<MemberFault>>
    ensures { Gives (λ id. id) result
        (id_said (map plain_player earlier.now) index (view player.now)) }
{
    let path = Path::Player {
        index,
        member: PlayerMember::Id,
    };
    let id = read_integer(required(player, path)?, path)?;
    if is_id_taken(id, earlier) {
        return Err(fault_at(MemberFaultKind::BadPlayer, path));
    }
    Ok(id)
}

// Whether some player has the id.
fn is_id_taken(id: i128, players: &[Player]) -> bool
    ensures { result ≡ player_list.has_id id (map plain_player players.now) }
{
    for player in players {
        if id == player.id {
            return true;
        }
    }
    false
}

// The seat of a player at the table, different from those before it.
#[tactic(auto, unfolding(crate::specs::Players::seat_said))]
fn read_seat(earlier: &[Player], index: u64, player: &Value) -> Result<u8, ReadError<MemberFault>>
    ensures said { Gives (λ seat. seat) result
        (seat_said (map plain_player earlier.now) index (view player.now)) }
    ensures first { IfOk result (λ seat. 1 ≤ seat) }
{
    let path = Path::Player {
        index,
        member: PlayerMember::Seat,
    };
    let seat = read_number(required(player, path)?, 1, 255, path)? as u8;
    if is_seat_taken(seat, earlier) {
        return Err(fault_at(MemberFaultKind::BadPlayer, path));
    }
    Ok(seat)
}

// Whether some player has the seat.
fn is_seat_taken(seat: u8, players: &[Player]) -> bool
    ensures { result ≡ player_list.has_seat seat (map plain_player players.now) }
{
    for player in players {
        if seat == player.seat {
            return true;
        }
    }
    false
}

// The name of a player, if it has one.
fn read_name(index: u64, player: &Value) -> Result<Option<&str>, ReadError<MemberFault>>
    ensures said { Gives (option_map (λ name. name.now)) result
        (name_said index (view player.now)) }
    ensures short { IfOk result (λ name. ForSome name (λ text.
        length text.now ≤ MOST_TEXT_BYTES)) }
{
    let path = Path::Player {
        index,
        member: PlayerMember::Name,
    };
    match field(player, path) {
        Some(value) => {
            let name = read_short_text(value, path)?;
            Ok(Some(name))
        }
        None => Ok(None),
    }
}

/// A text of at most 255 bytes.
#[tactic(auto, unfolding(crate::specs::Players::short_text_said))]
pub fn read_short_text(value: &Value, path: Path) -> Result<&str, ReadError<MemberFault>>
    ensures said { Gives (λ text. text.now) result (short_text_said path (view value.now)) }
    ensures short { IfOk result (λ text. length text.now ≤ MOST_TEXT_BYTES) }
{
    let text = read_text(value, path)?;
    if text.len() > MOST_TEXT_BYTES {
        let quantity = Quantity::TextBytes;
        return Err(fault_at(MemberFaultKind::TooMany { quantity }, path));
    }
    Ok(text)
}

// The starting stack of a player.
#[tactic(auto, unfolding(crate::specs::Players::stack_said))]
fn read_stack(index: u64, player: &Value) -> Result<u64, ReadError<MemberFault>>
    ensures said { Gives (λ stack. stack) result (stack_said index (view player.now)) }
    ensures within { IfOk result (λ stack. (1 ≤ stack) × (stack ≤ MOST_CHIPS)) }
{
    let path = Path::Player {
        index,
        member: PlayerMember::StartingStack,
    };
    read_number(required(player, path)?, 1, MOST_CHIPS, path)
}
