//! Caps on raises are numbers of 32 bits.
ghost use Rattle.std.specs.Prelude.{◌≤◌, ℕ, slice_index};
ghost use Rattle.betting_numbers.specs.Caps.{cap_at};

use play_event::Rules;

/// Each cap is a u32, proved by cases.
pub fn caps_fit(rules: &Rules)
    ensures { (k : ℕ) → cap_at rules.now.caps k ≤ 4294967295 }
{
    match &rules.caps {
        None => {}
        Some(caps) => each_fits(caps),
    }
}

// Each cap is a u32.
fn each_fits(caps: &[u32; 4])
    ensures { (k : ℕ) → slice_index caps.now k ≤ 4294967295 }
{
    let mut most: u32 = 0;
    for cap in caps {
        most = most.max(*cap);
    }
}
