//! A row of scores: one for each seat that has a hand.
ghost use Rattle.std.specs.Prelude.{◌≡◌, ◌≢◌, ◌≤◌, ℕ, None, length};
ghost use Rattle.std.specs.Option.{option_map};

use chip_ledger::Seat;
use hand_order::Score;

/// The score of each seat in one order, if it has a hand of the order.
#[derive(Clone, Copy, Debug)]
pub struct Scores {
    scores: [Option<Score>; 10],
    ghost full: { length scores ≡ 10 },
}

impl Scores {
    ghost use Rattle.showdown_split.specs.Scores.{points_of};

    /// A row without scores.
    pub fn new() -> Self
        ensures { (n : ℕ) → points_of result n ≡ None }
    {
        Scores { scores: [None; 10] }
    }

    /// The score of the seat.
    pub fn get(&self, seat: Seat) -> Option<Score>
        ensures { option_map (λ s. s.points) result ≡ points_of self.now seat.number }
    {
        self.scores[seat.number as usize - 1]
    }

    /// Gives the seat this score.
    pub fn set(&mut self, seat: Seat, score: Option<Score>)
        ensures score { points_of self.new seat.number ≡ option_map (λ s. s.points) score }
        ensures others { (n : ℕ)
            → 1 ≤ n → n ≢ seat.number → points_of self.new n ≡ points_of self.old n }
    {
        self.scores[seat.number as usize - 1] = score;
    }
}

impl Default for Scores {
    ghost use Rattle.showdown_split.specs.Scores.{points_of};

    ghost is_default = { λ row. (n : ℕ) → points_of row n ≡ None };

    fn default() -> Self {
        Scores::new()
    }
}
