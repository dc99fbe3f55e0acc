//! The bet sizes of a hand are those that its game uses.
ghost use Rattle.std.specs.Prelude.{◌≡◌, not, IfOk};
ghost use Rattle.toml.specs.View.{table_view};
ghost use Rattle.play_event.specs.Streets.{is_stud_game, limit_of};
ghost use Rattle.play_event.specs.ValidSetup.{IsSizeWhere, is_fixed_limit};
ghost use Rattle.first_fault.specs.Reading.{Gives};
ghost use Rattle.phh_reading.specs.SetupFields.{size_said, sizes_said};

use crate::field_fault::{FieldFault, FieldKey, FieldLocation};
use crate::values::{read_amount, required};
use chip_ledger::MOST_CHIPS;
use first_fault::ReadError;
use hand_canon::Sizes;
use play_event::Code;
use toml::Table;

/// The bet sizes of the game.
#[tactic(auto, unfolding(crate::specs::SetupFields::sizes_said))]
pub fn read_sizes(table: &Table, code: Code) -> Result<Sizes, ReadError<FieldFault>>
    ensures said { Gives (λ sizes. sizes) result (sizes_said code (table_view table.now)) }
    ensures bring_in { IfOk result (λ sizes. IsSizeWhere (is_stud_game code) sizes.bring_in) }
    ensures small_bet { IfOk result (λ sizes.
        IsSizeWhere (is_fixed_limit (limit_of code)) sizes.small_bet) }
    ensures big_bet { IfOk result (λ sizes.
        IsSizeWhere (is_fixed_limit (limit_of code)) sizes.big_bet) }
    ensures min_bet { IfOk result (λ sizes.
        IsSizeWhere (not (is_fixed_limit (limit_of code))) sizes.min_bet) }
{
    let fixed = code.is_fixed();
    let bring_in = read_size(table, code.is_stud(), FieldKey::BringIn)?;
    let small_bet = read_size(table, fixed, FieldKey::SmallBet)?;
    let big_bet = read_size(table, fixed, FieldKey::BigBet)?;
    let min_bet = read_size(table, !fixed, FieldKey::MinBet)?;
    Ok(Sizes {
        bring_in,
        small_bet,
        big_bet,
        min_bet,
    })
}

// A bet size, if the game uses it, else 0.
#[tactic(auto, unfolding(crate::specs::SetupFields::size_said))]
fn read_size(table: &Table, used: bool, key: FieldKey) -> Result<u64, ReadError<FieldFault>>
    ensures said { Gives (λ size. size) result (size_said used key (table_view table.now)) }
    ensures within { IfOk result (IsSizeWhere used) }
{
    if !used {
        return Ok(0);
    }
    read_amount(
        required(table, key)?,
        1,
        MOST_CHIPS,
        FieldLocation::at_key(key),
    )
}
