//! The two to ten players of a hand.
ghost use Rattle.std.specs.Prelude.{◌≤◌, length};

use crate::player::Player;

/// The players in the order of their seats in the hand.
#[derive(Clone, Copy)]
pub struct Seated<'a> {
    pub players: &'a [Player<'a>],
    pub ghost some: { 2 ≤ length players.now },
    pub ghost few: { length players.now ≤ 10 },
}
