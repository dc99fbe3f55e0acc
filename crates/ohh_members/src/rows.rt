//! The ids and the stacks of the players of a hand, in the order of their seats.
ghost use Rattle.std.specs.Prelude.{◌≡◌, ◌<◌, ℕ, length, map, slice_index, IfOk};
ghost use Rattle.play_event.specs.ValidSetup.{IsSize};
ghost use Rattle.ohh_members.specs.Header.{stacks_of};
ghost use Rattle.ohh_members.specs.Header as header;
ghost use Rattle.chip_ledger.specs.SeatRow.{amounts_in};
ghost use Rattle.ohh_members.specs.Players.{plain_player};

use crate::player::Player;
use crate::seated::Seated;
use card_set::{Memory, TryPush};
use chip_ledger::SeatRow;
use std::alloc::Global;

/// The ids of players, the first seat's first.
pub fn collect_ids(alloc: Global, players: &[Player]) -> Result<Vec<i128>, Memory>
    ensures said { IfOk result (λ ids. ids.items ≡ header.ids_of (map plain_player players.now)) }
    ensures count { IfOk result (λ ids. length ids.items ≡ length players.now) }
{
    let mut ids = Vec::new(alloc);
    for player in players {
        ids.try_push(player.id)?;
    }
    Ok(ids)
}

/// The starting stacks of players.
pub fn stack_row(seated: &Seated) -> SeatRow
    ensures said { amounts_in result ≡ stacks_of (map plain_player seated.now.players.now) }
    ensures seats { result.seats ≡ length seated.now.players.now }
    ensures sizes { (k : ℕ)
        → k < length seated.now.players.now → IsSize (slice_index result.amounts k) }
{
    let players = seated.players;
    let mut amounts = [0; 10];
    for (index, player) in players.iter().enumerate() {
        amounts[index] = player.stack;
    }
    SeatRow {
        seats: players.len() as u8,
        amounts,
    }
}
