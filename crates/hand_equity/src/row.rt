//! How often each live seat wins or ties.
ghost use Rattle.std.specs.Prelude.{◌≡◌, length};

use crate::tally::BoardTally;

/// How often the live seats win and tie, over all completions of a board. All numbers count
/// completions. The first seat's are at index 0, and a seat that is not live has 0.
#[derive(Clone, Copy, Debug, PartialEq, Eq)]
pub struct EquityRow {
    /// All completions.
    pub total: u32,
    /// Completions on which some seats tie.
    pub shared: u32,
    /// Completions on which a seat beats every other.
    pub wins: [u32; 10],
    /// Completions on which no seat beats this seat, and another is even with it.
    pub ties: [u32; 10],
    /// Completions on which no seat has a low hand; 0 in a game that pays no low hands.
    pub low_none: u32,
    /// Completions on which some low hands tie.
    pub low_shared: u32,
    /// Completions on which a seat has the only low hand, or one that beats every other.
    pub low_wins: [u32; 10],
    /// Completions on which no low hand beats this seat's, and another is even with it.
    pub low_ties: [u32; 10],
    pub ghost all_wins: { length wins ≡ 10 },
    pub ghost all_ties: { length ties ≡ 10 },
    pub ghost all_low_wins: { length low_wins ≡ 10 },
    pub ghost all_low_ties: { length low_ties ≡ 10 },
}

/// The row made from the tallies of the high and the low order.
pub fn row_of(high: &BoardTally, low: &BoardTally) -> EquityRow
    ensures total { result.total ≡ high.now.boards }
    ensures shared { result.shared ≡ high.now.shared }
    ensures wins { result.wins ≡ high.now.wins }
    ensures ties { result.ties ≡ high.now.ties }
    ensures low_none { result.low_none ≡ low.now.nobody }
    ensures low_shared { result.low_shared ≡ low.now.shared }
    ensures low_wins { result.low_wins ≡ low.now.wins }
    ensures low_ties { result.low_ties ≡ low.now.ties }
{
    let wins = high.wins;
    let ties = high.ties;
    let low_wins = low.wins;
    let low_ties = low.ties;
    EquityRow {
        total: high.boards,
        shared: high.shared,
        wins,
        ties,
        low_none: low.nobody,
        low_shared: low.shared,
        low_wins,
        low_ties,
    }
}
