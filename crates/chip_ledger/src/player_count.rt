//! The number of players of a hand: 2 to 10.
ghost use Rattle.std.specs.Prelude.{◌≤◌};

/// How many players a hand has, which is how many seats take part in it.
#[derive(Clone, Copy, Debug, PartialEq, Eq, Hash)]
pub struct PlayerCount {
    pub number: u8,
    pub ghost least: { 2 ≤ number },
    pub ghost most: { number ≤ 10 },
}
