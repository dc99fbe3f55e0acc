//! The ids of the two to ten players of a hand.
ghost use Rattle.std.specs.Prelude.{◌≡◌, ◌≤◌, length};

use chip_ledger::PlayerCount;

/// The ids of the players of a hand, the first seat's first.
#[derive(Clone, Copy, Debug, PartialEq, Eq)]
pub struct PlayerIds<'a> {
    pub ids: &'a [i128],
    pub ghost some: { 2 ≤ length ids.now },
    pub ghost few: { length ids.now ≤ 10 },
}

impl PlayerIds<'_> {
    /// How many players there are.
    pub fn count(self) -> PlayerCount
        ensures { result.number ≡ length self.entry.ids.now }
    {
        PlayerCount {
            number: self.ids.len() as u8,
        }
    }
}
