//! Makes a record of what a line says of a hand and of the setup and rules of its game.
ghost use Rattle.std.specs.Prelude.{◌≡◌, ℕ, ◌-◌, ◌≤◌, None, map, take, slice_index_or, IfSome};
ghost use Rattle.play_event.specs.PlayedScript.{IsWithinLimits};
ghost use Rattle.hand_canon.specs.AllowedNotes.{IsName, IsNoteText};
ghost use Rattle.play_event.specs.Said.{numbered, said_of};
ghost use Rattle.acpc_reading.specs.RecordView.{IsOfGame, NotesNames, StatesValues, record_said};
ghost use Rattle.acpc_reading.specs.Views.{nets_in};

use crate::setup::{make_rules, setup_of};
use acpc_game::Game;
use first_fault::Text;
use hand_canon::{NetRow, Notes, Record, Stated};
use play_event::Script;

/// The record of a hand of the game.
pub fn record_of(
    game: &Game,
    script: Script,
    values: NetRow,
    names: [Option<Text>; 10],
    hand: Option<Text>,
) -> Record
    requires within { IsWithinLimits (map said_of script) }
    requires seats { values.seats ≡ game.now.stacks.seats }
    requires each { (seat : ℕ) → 1 ≤ seat → seat ≤ game.now.stacks.seats
        → IfSome (slice_index_or names (seat - 1) None) (IsName seat) }
    requires no_more { (index : ℕ) → game.now.stacks.seats ≤ index
        → slice_index_or names index None ≡ None }
    requires hand { IfSome hand IsNoteText }
    ensures said { record_said result ≡ record {
      events = map numbered script;
      values = nets_in values;
      names = take game.now.stacks.seats names;
      hand = hand;
    } }
    ensures script { result.script ≡ script }
    ensures game { IsOfGame game.now result }
{
    Record {
        setup: setup_of(game),
        rules: make_rules(game),
        script,
        stated: stating(values),
        notes: noting(names, hand),
    }
}

// States what each seat won or lost, and nothing else.
fn stating(values: NetRow) -> Stated
    ensures values { result.values ≡ Some values }
    ensures alone { StatesValues result }
{
    Stated {
        values: Some(values),
        ..Stated::nothing()
    }
}

// Notes the names of the players and the number of the hand, and nothing else.
fn noting(names: [Option<Text>; 10], hand: Option<Text>) -> Notes
    ensures names { result.names ≡ names }
    ensures hand { result.hand ≡ hand }
    ensures alone { NotesNames result }
{
    Notes {
        names,
        hand,
        ..Notes::none()
    }
}
