//! The highest strength among the seats, and how many seats have it.
ghost use Rattle.std.specs.Prelude.{◌≡◌, ◌≤◌, ◌<◌, ℕ, slice_index};
ghost use Rattle.hand_equity.specs.Worths.{seats_with};

/// The highest strength among the seats, and how many seats have it.
#[derive(Clone, Copy, Debug)]
pub struct Leader {
    pub worth: u64,
    pub seats: u8,
}

/// The lead among these strengths.
pub fn lead_of(worths: &[u64; 10]) -> Leader
    ensures greatest { (k : ℕ) → slice_index worths.now k ≤ result.worth }
    ensures seats { result.seats ≡ seats_with result.worth worths.now }
    ensures some { 0 < result.worth → 0 < result.seats }
{
    let mut worth = 0;
    let mut seats = 0;
    for other in worths {
        if *other > worth {
            worth = *other;
            seats = 1;
        } else if *other == worth {
            seats += 1;
        }
    }
    Leader { worth, seats }
}
