//! The values of a list that has one for each of the two to ten players of a hand.
ghost use Rattle.std.specs.Prelude.{◌≤◌, length};

use toml::Value;

/// A value for each player of a hand, the first seat's first.
#[derive(Clone, Copy)]
pub struct PlayerValues<'a> {
    pub values: &'a [Value],
    pub ghost some: { 2 ≤ length values.now },
    pub ghost few: { length values.now ≤ 10 },
}
