//! The numbers of one play, and of all made hands.
ghost use Rattle.std.specs.Prelude.{◌≤◌, ◌*◌, ◌^◌};

/// Whether a format can express a hand, as 1 or 0, and in how many bytes.
#[derive(Clone, Copy, Debug, PartialEq, Eq)]
pub struct SpelledSize {
    pub hands: u128,
    pub bytes: u128,
    pub ghost one: { hands ≤ 1 },
    pub ghost few: { bytes ≤ 2 ^ 64 },
}

/// The numbers of a play: its moves, the chips of its pots, and its size in each format.
#[derive(Clone, Copy, Debug, PartialEq, Eq)]
pub struct PlayCounts {
    pub moves: u128,
    pub pots: u128,
    pub phh: u128,
    pub ohh: SpelledSize,
    pub acpc: SpelledSize,
    pub ghost few_moves: { moves ≤ 2 ^ 64 },
    pub ghost few_pots: { pots ≤ 11 * 2 ^ 64 },
    pub ghost one: { phh ≤ 1 },
}

/// How many hands, moves and chips in pots there are, and how many hands each format can express,
/// and in how many bytes.
#[derive(Clone, Copy, Debug, PartialEq, Eq)]
pub struct Summary {
    pub hands: u128,
    pub moves: u128,
    pub pots: u128,
    pub phh: u128,
    pub ohh: u128,
    pub ohh_bytes: u128,
    pub acpc: u128,
    pub acpc_bytes: u128,
}
