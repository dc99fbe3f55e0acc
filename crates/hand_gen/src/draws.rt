//! Draws pseudo-random numbers, each from the one before.
ghost use Rattle.std.specs.Prelude.{◌≡◌, ◌<◌};
ghost use Rattle.hand_gen.specs.Draws as draws;

// The factor and the addend that lead from one number to the next.
const FACTOR: u128 = 6_364_136_223_846_793_005;

const STEP: u128 = 1_442_695_040_888_963_407;

/// The number after this one.
#[tactic(auto, unfolding(crate::specs::Draws::next_number))]
pub fn advance_number(number: u64) -> u64
    ensures { result ≡ draws.next_number number }
{
    ((u128::from(number) * FACTOR + STEP) % (1 << 64)) as u64
}

/// The choice that a number makes among `count`, from 0 upward.
pub fn drawn(count: u64, number: u64) -> u64
    requires { 0 < count }
    ensures value { result ≡ draws.choice_among count number }
    ensures within { result < count }
{
    (number >> 33) % count
}
