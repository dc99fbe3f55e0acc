//! The names of the streets of a hand.
ghost use Rattle.std.specs.Prelude.{◌≡◌};
ghost use Rattle.ohh_members.specs.Streets.{street_name};

/// A street. The showdown is written as a street of its own.
#[derive(Clone, Copy, Debug, PartialEq, Eq)]
pub enum StreetName {
    Preflop,
    Flop,
    Turn,
    River,
    Showdown,
}

/// The name of a street.
pub fn name_of(street: StreetName) -> &'static str
    ensures { result.now ≡ street_name street }
{
    match street {
        StreetName::Preflop => "Preflop",
        StreetName::Flop => "Flop",
        StreetName::Turn => "Turn",
        StreetName::River => "River",
        StreetName::Showdown => "Showdown",
    }
}
