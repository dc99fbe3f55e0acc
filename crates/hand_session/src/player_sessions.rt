//! What a session holds: a row for each name, the steps of all names, and the rakes.
ghost use Rattle.std.specs.Prelude.{◌≡◌, ◌<◌, length, slice_get, Some};

use crate::steps::Steps;
use first_fault::Text;
use std::marker::Model;

/// The totals of a name over all hands. Amounts are chips, of all its seats together.
#[derive(Debug, Drop)]
pub struct PlayerSession {
    /// The name as it is noted, or the default name of its seat, such as `p2`.
    pub name: Text,
    /// The chips that it started its first hand with.
    pub first: u64,
    /// By how much it came back with more chips than it had left with, in total.
    pub gaps: i64,
    /// What it won or lost in its hands.
    pub net: i64,
    /// The chips that it finished its last hand with.
    pub last: u64,
    /// The number of hands that it played.
    pub hands: u32,
    /// The number of these in which it put chips in on the first street by a call or a raise.
    pub entered: u32,
    /// The number of these in which it raised there.
    pub raised: u32,
    /// The number of these in which its cards were shown.
    pub shown: u32,
    /// The number of these in which it won chips from a pot.
    pub won: u32,
}

/// The rows of all names, in the order in which they are first seen over hands and seats.
#[derive(Debug, Drop)]
pub struct SessionRows {
    rows: Vec<PlayerSession>,
}

impl Model for SessionRows {
    ghost use Rattle.std.specs.Prelude.{List};
    ghost use Rattle.hand_session.specs.declared.player_sessions.PlayerSession.{PlayerSession};

    ghost Value = { List PlayerSession };

    ghost view = { λ r. r.rows.items };
}

impl SessionRows {
    /// These rows.
    pub(crate) fn from_vec(rows: Vec<PlayerSession>) -> Self
        ensures { result ≡ rows.items }
    {
        SessionRows { rows }
    }

    /// The row at this index, from 0. Ask first that the index is below `len`.
    pub fn get(&self, index: usize) -> &PlayerSession
        requires { index < length self.now }
        ensures { slice_get self.now index ≡ Some result.now }
    {
        &self.rows[index]
    }

    /// How many rows there are.
    pub fn len(&self) -> usize
        ensures { result ≡ length self.now }
    {
        self.rows.len()
    }

    /// The rows, in order.
    pub fn as_slice(&self) -> &[PlayerSession]
        ensures { result.now ≡ self.now }
    {
        self.rows.as_slice()
    }
}

/// The result of a session over many hands.
#[derive(Debug, Drop)]
pub struct Session {
    /// The joins and the gaps that are not 0.
    pub steps: Steps,
    /// A row for each name.
    pub rows: SessionRows,
    /// All rakes together, in chips.
    pub rake: u64,
}
