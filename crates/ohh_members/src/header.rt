//! Reads what comes before the rounds of a hand: its game, its players and its blinds.
ghost use Rattle.std.specs.Prelude.{IfOk};
ghost use Rattle.serde_json.specs.View.{view};
ghost use Rattle.first_fault.specs.Reading.{Gives};
ghost use Rattle.ohh_members.specs.Header.{IsFront, front_said, plain_front};

use crate::blinds::{Blinds, read_blinds};
use crate::fault::MemberFault;
use crate::game::read_game;
use crate::player::Player;
use crate::seating::read_players;
use first_fault::ReadError;
use play_event::Code;
use serde_json::Value;
use std::alloc::Global;

/// What comes before the rounds of a hand.
#[derive(Drop)]
pub struct Header<'a> {
    /// One of the supported games.
    pub code: Code,
    /// Two to ten players in the order of their seats in the hand: the first sits after the button.
    pub players: Vec<Player<'a>>,
    pub blinds: Blinds,
}

/// Reads what comes before the rounds of a hand.
#[tactic(auto, unfolding(crate::specs::Header::front_said))]
pub fn read_front<'a>(alloc: Global, ohh: &'a Value) -> Result<Header<'a>, ReadError<MemberFault>>
    ensures said { Gives plain_front result (front_said (view ohh.now)) }
    ensures fits { IfOk result IsFront }
{
    let code = read_game(ohh)?;
    let players = read_players(alloc, ohh)?;
    let blinds = read_blinds(ohh, code)?;
    Ok(Header {
        code,
        players,
        blinds,
    })
}
