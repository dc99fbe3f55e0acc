//! Reads the blinds of a hand.
ghost use Rattle.std.specs.Prelude.{◌≡◌, ◌≤◌, ◌*◌, true, IfOk};
ghost use Rattle.serde_json.specs.View.{view};
ghost use Rattle.chip_ledger.specs.declared.numbers.TheConstants.{MOST_CHIPS};
ghost use Rattle.first_fault.specs.Reading.{Gives, read_if};
ghost use Rattle.ohh_members.specs.declared.fault.Path.TheVariants as paths;
ghost use Rattle.ohh_members.specs.Blinds.{blind_said, blinds_said, is_fixed_game};
ghost use Rattle.ohh_members.specs.Values.{number_said};
ghost use Rattle.ohh_members.specs.Values as values;

use crate::fault::{MemberFault, MemberFaultKind, Path};
use crate::values::{fault_at, field, read_number, required};
use chip_ledger::MOST_CHIPS;
use first_fault::ReadError;
use play_event::Code;
use serde_json::Value;

/// The blinds, in chips: each at least 1, the small one at most the big one.
#[derive(Clone, Copy, Debug, PartialEq, Eq)]
pub struct Blinds {
    pub small: u64,
    pub big: u64,
}

/// The blinds of a hand. The ante is only checked for its form: the posts are what counts.
#[tactic(auto, unfolding(crate::specs::Blinds::blinds_said, crate::specs::Blinds::fitting))]
pub fn read_blinds(ohh: &Value, code: Code) -> Result<Blinds, ReadError<MemberFault>>
    ensures said { Gives (λ blinds. blinds) result (blinds_said code (view ohh.now)) }
    ensures least { IfOk result (λ blinds. 1 ≤ blinds.small) }
    ensures order { IfOk result (λ blinds. blinds.small ≤ blinds.big) }
    ensures most { IfOk result (λ blinds. blinds.big ≤ MOST_CHIPS) }
    ensures fixed { IfOk result (λ blinds. is_fixed_game code ≡ true
        → 2 * blinds.big ≤ MOST_CHIPS) }
{
    let _ante = read_ante(ohh)?;
    let small = read_blind(ohh, Path::SmallBlindAmount)?;
    let big = read_blind(ohh, Path::BigBlindAmount)?;
    if small > big {
        return Err(fault_at(MemberFaultKind::BadPost, Path::SmallBlindAmount));
    }
    if code.is_fixed() && 2 * big > MOST_CHIPS {
        return Err(fault_at(MemberFaultKind::AmountLimit, Path::BigBlindAmount));
    }
    Ok(Blinds { small, big })
}

// The ante, if it is there.
fn read_ante(ohh: &Value) -> Result<Option<u64>, ReadError<MemberFault>>
    ensures { Gives (λ ante. ante) result
        (read_if (number_said 0 MOST_CHIPS paths.AnteAmount)
        (values.member_at paths.AnteAmount (view ohh.now))) }
{
    match field(ohh, Path::AnteAmount) {
        Some(value) => Ok(Some(read_number(value, 0, MOST_CHIPS, Path::AnteAmount)?)),
        None => Ok(None),
    }
}

// A blind, of at least 1.
fn read_blind(ohh: &Value, path: Path) -> Result<u64, ReadError<MemberFault>>
    ensures said { Gives (λ blind. blind) result (blind_said path (view ohh.now)) }
    ensures within { IfOk result (λ blind. (1 ≤ blind) × (blind ≤ MOST_CHIPS)) }
{
    read_number(required(ohh, path)?, 1, MOST_CHIPS, path)
}
