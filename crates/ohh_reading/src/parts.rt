//! Reads the parts of a hand other than its play, with what comes before its rounds.
ghost use Rattle.std.specs.Prelude.{◌≡◌, ◌<◌, ℕ, length, map, slice_index, IfOk};
ghost use Rattle.serde_json.specs.View.{view};
ghost use Rattle.hand_canon.specs.AllowedNotes.{AreAllowed};
ghost use Rattle.play_event.specs.ValidSetup.{IsSize};
ghost use Rattle.first_fault.specs.Reading.{Gives};
ghost use Rattle.ohh_reading.specs.Notes.{notes_said};
ghost use Rattle.ohh_reading.specs.Pots.{IsPaid, plain_paid, pots_said};
ghost use Rattle.ohh_members.specs.Header.{IsFront, stacks_of};
ghost use Rattle.ohh_members.specs.Header as header;
ghost use Rattle.chip_ledger.specs.SeatRow.{amounts_in};
ghost use Rattle.ohh_members.specs.Players.{plain_player};
ghost use Rattle.hand_canon.specs.SaidNotes.{plain_notes};

use crate::listed_pots::Paid;
use crate::notes::read_notes;
use crate::pots::read_pots;
use card_set::Memory;
use chip_ledger::SeatRow;
use first_fault::ReadError;
use hand_canon::Notes;
use ohh_members::fault::MemberFault;
use ohh_members::header::Header;
use ohh_members::player_ids::PlayerIds;
use ohh_members::rows::{collect_ids, stack_row};
use ohh_members::seated::Seated;
use serde_json::Value;
use std::alloc::Global;

/// The starting stacks of the players.
pub fn stacks_in(front: &Header) -> SeatRow
    requires { IsFront front.now }
    ensures said { amounts_in result ≡ stacks_of (map plain_player front.now.players.items) }
    ensures seats { result.seats ≡ length front.now.players.items }
    ensures sizes { (k : ℕ) → k < result.seats → IsSize (slice_index result.amounts k) }
{
    let seated = Seated {
        players: &front.players,
    };
    stack_row(&seated)
}

/// The ids of the players, the first seat's first.
pub fn ids_in(alloc: Global, front: &Header) -> Result<Vec<i128>, Memory>
    ensures said { IfOk result (λ ids. ids.items
        ≡ header.ids_of (map plain_player front.now.players.items)) }
    ensures count { IfOk result (λ ids. length ids.items ≡ length front.now.players.items) }
{
    collect_ids(alloc, &front.players)
}

/// What a hand with these players states of its pots.
pub fn read_paid(
    alloc: Global,
    front: &Header,
    players: &PlayerIds,
    ohh: &Value,
) -> Result<Paid, ReadError<MemberFault>>
    requires count { length players.now.ids.now ≡ length front.now.players.items }
    requires ids { players.now.ids.now
        ≡ header.ids_of (map plain_player front.now.players.items) }
    ensures said { Gives plain_paid result
        (pots_said (header.ids_of (map plain_player front.now.players.items)) (view ohh.now)) }
    ensures fits { IfOk result (IsPaid (length front.now.players.items)) }
{
    read_pots(alloc, players, ohh)
}

/// The notes of a hand with these players, at this place of its file, from 0.
pub fn notes_in(
    alloc: Global,
    front: &Header,
    ohh: &Value,
    place: u32,
) -> Result<Notes, ReadError<MemberFault>>
    requires { IsFront front.now }
    ensures said { Gives (plain_notes (length front.now.players.items)) result
        (notes_said place (map plain_player front.now.players.items) (view ohh.now)) }
    ensures allowed { IfOk result (AreAllowed (length front.now.players.items)) }
{
    let seated = Seated {
        players: &front.players,
    };
    read_notes(alloc, ohh, place, &seated)
}
