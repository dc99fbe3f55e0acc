//! A tally adds up the seats with one name.
ghost use Rattle.std.specs.Prelude.{◌≡◌};
ghost use Rattle.printed_hands.specs.Report.{seated_in};
ghost use Rattle.printed_hands.specs.Tallies.{IsWithin, MOST_SEATS};
ghost use Rattle.printed_hands.specs.Tallies as tallies;

use chip_ledger::Seat;
use first_fault::Text;
use hand_canon::Play;

/// What is added up for a name, in chips.
#[derive(Clone, Copy, Debug)]
pub struct Tally {
    /// What its seats started with together.
    pub started: u64,
    /// What they finished with together.
    pub finished: u64,
    /// The number of hands with a seat of this name.
    pub hands: u64,
    /// The number of the last such hand, from 1.
    pub last: u64,
}

/// A name with its tally.
#[derive(Debug, Drop)]
pub struct NamedTally {
    pub name: Text,
    pub tally: Tally,
}

/// The tally of a name that was not seen yet.
pub fn new_tally() -> Tally
    ensures { result ≡ tallies.no_tally }
{
    Tally {
        started: 0,
        finished: 0,
        hands: 0,
        last: 0,
    }
}

/// The tally with one more seat, in the hand with this number. If a name has several seats in a
/// hand, the hand counts once.
pub fn add_to_tally(tally: Tally, number: u64, play: &Play, seat: Seat) -> Tally
    requires { IsWithin MOST_SEATS tally }
    ensures { result ≡ tallies.with_seat number tally (seated_in play.now seat.number) }
{
    let index = seat.number as usize - 1;
    Tally {
        started: tally.started + play.trace.setup.stacks.amounts[index],
        finished: tally.finished + play.trace.finish.amounts[index],
        hands: if tally.last == number {
            tally.hands
        } else {
            tally.hands + 1
        },
        last: number,
    }
}
