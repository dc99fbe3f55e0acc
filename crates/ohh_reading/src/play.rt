//! Reads the rounds of a hand, with what comes before them.
ghost use Rattle.std.specs.Prelude.{◌≡◌, ◌≤◌, ◌+◌, count_by, map, IfOk};
ghost use Rattle.serde_json.specs.View.{view};
ghost use Rattle.play_event.specs.PlayedScript.{IsWithinLimits, is_move_event};
ghost use Rattle.first_fault.specs.declared.limits.TheConstants.{MOST_FILE_MOVES};
ghost use Rattle.play_event.specs.Said.{said_of};
ghost use Rattle.first_fault.specs.Reading.{Gives};
ghost use Rattle.ohh_members.specs.Header.{IsFront, ids_of, plain_front, stacks_of};
ghost use Rattle.chip_ledger.specs.SeatRow.{amounts_in};
ghost use Rattle.ohh_members.specs.Players.{plain_player};
ghost use Rattle.ohh_rounds.specs.AntesAndBlinds.{AreAntesAndBlindsFor};
ghost use Rattle.ohh_rounds.specs.Play.{plain_play, rounds_said};
ghost use Rattle.ohh_reading.specs.Hand.{setting_of};

use chip_ledger::SeatRow;
use first_fault::ReadError;
use ohh_members::Dialect;
use ohh_members::fault::MemberFault;
use ohh_members::header::Header;
use ohh_members::player_ids::PlayerIds;
use ohh_rounds::{HandContext, NamedBlinds, RoundsPlay, read_rounds};
use serde_json::Value;
use std::alloc::Global;

/// The rounds of a hand, read with the stacks and the ids of its players.
pub fn read_play(
    alloc: Global,
    dialect: Dialect,
    front: &Header,
    stacks: SeatRow,
    players: &PlayerIds,
    file_moves: usize,
    ohh: &Value,
) -> Result<RoundsPlay, ReadError<MemberFault>>
    requires front { IsFront front.now }
    requires stacks { amounts_in stacks ≡ stacks_of (map plain_player front.now.players.items) }
    requires ids { players.now.ids.now ≡ ids_of (map plain_player front.now.players.items) }
    requires few { file_moves ≤ MOST_FILE_MOVES }
    ensures said { Gives plain_play result
        (rounds_said (setting_of dialect file_moves (plain_front front.now)) (view ohh.now)) }
    ensures stakes { IfOk result (λ play. AreAntesAndBlindsFor stacks play.stakes) }
    ensures within { IfOk result (λ play. IsWithinLimits (map said_of play.script)) }
    ensures moves { IfOk result (λ play. play.file_moves
        ≡ file_moves + count_by is_move_event (map said_of play.script)) }
    ensures few { IfOk result (λ play. play.file_moves ≤ MOST_FILE_MOVES) }
{
    let setting = HandContext {
        players: *players,
        table: NamedBlinds {
            stacks,
            small_blind: front.blinds.small,
            big_blind: front.blinds.big,
        },
        hole_cards: front.code.hole_cards(),
        dialect,
        file_moves,
    };
    read_rounds(alloc, &setting, ohh)
}
