//! Reads the object of a hand as its record.
ghost use Rattle.std.specs.Prelude.{◌≡◌, ◌≤◌, ◌+◌, IfOk};
ghost use Rattle.serde_json.specs.View.{view};
ghost use Rattle.first_fault.specs.declared.limits.TheConstants.{MOST_FILE_MOVES};
ghost use Rattle.first_fault.specs.Reading.{Gives};
ghost use Rattle.ohh_reading.specs.Hand.{hand_said};
ghost use Rattle.hand_canon.specs.Histories.{IsHistory};
ghost use Rattle.hand_canon.specs.Moves.{moves_of};
ghost use Rattle.hand_canon.specs.PlainHands.{plain};

use crate::parts::{ids_in, notes_in, read_paid, stacks_in};
use crate::play::read_play;
use crate::record::record_of;
use first_fault::ReadError;
use hand_canon::Record;
use ohh_members::Dialect;
use ohh_members::fault::MemberFault;
use ohh_members::header::read_front;
use ohh_members::player_ids::PlayerIds;
use serde_json::Value;
use std::alloc::Global;

/// The hand of an object at this place of its file, from 0, after `file_moves` moves of the file;
/// and the moves of the file after it.
#[tactic(auto, unfolding(crate::specs::Hand::hand_said))]
pub fn read_hand(
    alloc: Global,
    dialect: Dialect,
    ohh: &Value,
    place: u32,
    file_moves: usize,
) -> Result<(Record, usize), ReadError<MemberFault>>
    requires { file_moves ≤ MOST_FILE_MOVES }
    ensures said { Gives (λ found. (plain found.0, found.1)) result
        (hand_said dialect file_moves place (view ohh.now)) }
    ensures sound { IfOk result (λ found. IsHistory found.0) }
    ensures moves { IfOk result (λ found. found.1 ≡ file_moves + moves_of found.0) }
    ensures few { IfOk result (λ found. found.1 ≤ MOST_FILE_MOVES) }
{
    let front = read_front(alloc, ohh)?;
    let stacks = stacks_in(&front);
    let ids = ids_in(alloc, &front)?;
    let players = &PlayerIds {
        ids: ids.as_slice(),
    };
    let play = read_play(alloc, dialect, &front, stacks, players, file_moves, ohh)?;
    let moves = play.file_moves;
    let paid = read_paid(alloc, &front, players, ohh)?;
    let notes = notes_in(alloc, &front, ohh, place)?;
    Ok((record_of(&front, stacks, play, paid, notes), moves))
}
