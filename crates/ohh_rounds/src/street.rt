//! The order of the streets.
ghost use Rattle.std.specs.Prelude.{◌≡◌};
ghost use Rattle.ohh_rounds.specs.Streets.{if_named};
ghost use Rattle.ohh_rounds.specs.Streets as streets;

use ohh_members::street::{StreetName, name_of};

/// The street that a text names, if it may come after the last one.
#[tactic(auto, unfolding(crate::specs::Streets::street_after))]
pub fn parse_next_street(last: Option<StreetName>, text: &str) -> Option<StreetName>
    ensures { result ≡ streets.street_after last text.now }
{
    let Some(last) = last else {
        return named(StreetName::Preflop, text);
    };
    let next = match last {
        StreetName::Preflop => StreetName::Flop,
        StreetName::Flop => StreetName::Turn,
        StreetName::Turn => StreetName::River,
        StreetName::River => return named(StreetName::Showdown, text),
        StreetName::Showdown => return None,
    };
    match named(next, text) {
        Some(street) => Some(street),
        None => named(StreetName::Showdown, text),
    }
}

// The street, if the text is its name.
fn named(street: StreetName, text: &str) -> Option<StreetName>
    ensures { result ≡ if_named street text.now }
{
    if text == name_of(street) {
        Some(street)
    } else {
        None
    }
}

/// Whether the street deals cards to the board.
pub fn deals_board_cards(street: StreetName) -> bool
    ensures { result ≡ streets.has_board_cards street }
{
    match street {
        StreetName::Flop | StreetName::Turn | StreetName::River => true,
        StreetName::Preflop | StreetName::Showdown => false,
    }
}
