//! Reads the setup of a hand from its fields, and checks that it is valid.
ghost use Rattle.std.specs.Prelude.{◌≡◌, ℕ, ◌≤◌, true, nat_lt, slice_index, IfOk};
ghost use Rattle.std.specs.List.{list_any};
ghost use Rattle.toml.specs.View.{table_view, view};
ghost use Rattle.chip_ledger.specs.Seat.{seats_of};
ghost use Rattle.chip_ledger.specs.SeatRow.{amount_of, amounts_in};
ghost use Rattle.chip_ledger.specs.declared.numbers.TheConstants.{MOST_CHIPS};
ghost use Rattle.play_event.specs.Streets.{is_stud_game};
ghost use Rattle.play_event.specs.ValidSetup.{IsValid};
ghost use Rattle.first_fault.specs.Reading.{Gives};
ghost use Rattle.hand_canon.specs.PlainHands.{plain_setup};
ghost use Rattle.phh_reading.specs.SetupFields.{blinds_said, game_named, setup_said, trimming_said, variant_said};
ghost use Rattle.phh_reading.specs.SetupFields as setup_fields;

use crate::field_fault::{FieldFault, FieldFaultKind, FieldKey, FieldLocation};
use crate::rows::{read_antes, read_row, read_stacks, swap_heads_up};
use crate::sizes::read_sizes;
use crate::values::{field, field_fault_at, read_flag, read_text, required};
use chip_ledger::{MOST_CHIPS, PlayerCount, RakeRow, SeatRow};
use first_fault::ReadError;
use hand_canon::Sizes;
use play_event::{Code, Setup};
use toml::{Table, Value};

/// The setup in a hand's fields, from its variant to its least bet; it has no rakes yet.
#[tactic(auto, unfolding(crate::specs::SetupFields::setup_said))]
pub fn read_setup(table: &Table) -> Result<Setup, ReadError<FieldFault>>
    ensures said { Gives plain_setup result (setup_said (table_view table.now)) }
    ensures valid { IfOk result IsValid }
{
    let code = read_variant(required(table, FieldKey::Variant)?)?;
    let stacks = read_stacks(
        required(table, FieldKey::StartingStacks)?,
        PlayerCount {
            number: code.most_seats(),
        },
    )?;
    let antes = read_antes(required(table, FieldKey::Antes)?, &stacks)?;
    let trimmed = read_trimming(table)?;
    let blinds = read_blinds(table, code, stacks.players())?;
    let sizes = read_sizes(table, code)?;
    let Sizes {
        bring_in,
        small_bet,
        big_bet,
        min_bet,
    } = sizes;
    Ok(Setup {
        code,
        stacks,
        antes,
        dead_antes: has_dead_antes(trimmed, &antes),
        blinds,
        bring_in,
        small_bet,
        big_bet,
        min_bet,
        rakes: RakeRow::none(),
    })
}

// The variant.
#[tactic(auto, unfolding(crate::specs::SetupFields::variant_said))]
fn read_variant(value: &Value) -> Result<Code, ReadError<FieldFault>>
    ensures { Gives (λ code. code) result (variant_said (view value.now)) }
{
    let place = FieldLocation::at_key(FieldKey::Variant);
    match game(read_text(value, place)?) {
        Some(code) => Ok(code),
        None => Err(field_fault_at(FieldFaultKind::UnknownVariant, place)),
    }
}

// The game whose code the text is.
fn game(text: &str) -> Option<Code>
    ensures { result ≡ game_named text.now }
{
    Code::read(text)
}

// Whether the fields say that antes are trimmed.
#[tactic(auto, unfolding(crate::specs::SetupFields::trimming_said))]
fn read_trimming(table: &Table) -> Result<bool, ReadError<FieldFault>>
    ensures { Gives (λ trimmed. trimmed) result (trimming_said (table_view table.now)) }
{
    match field(table, FieldKey::AnteTrimmingStatus) {
        Some(value) => read_flag(value, FieldLocation::at_key(FieldKey::AnteTrimmingStatus)),
        None => Ok(false),
    }
}

// The blinds of the players; stud has none.
#[tactic(auto, unfolding(crate::specs::SetupFields::blinds_said))]
fn read_blinds(
    table: &Table,
    code: Code,
    players: PlayerCount,
) -> Result<SeatRow, ReadError<FieldFault>>
    ensures said { Gives amounts_in result
        (blinds_said code players.number (table_view table.now)) }
    ensures seats { IfOk result (λ row. row.seats ≡ players.number) }
    ensures most { IfOk result (λ row. (k : ℕ) → slice_index row.amounts k ≤ MOST_CHIPS) }
    ensures heads_up { IfOk result (λ row. players.number ≡ 2
        → slice_index row.amounts 1 ≤ slice_index row.amounts 0) }
    ensures stud { IfOk result (λ row. is_stud_game code ≡ true
        → (k : ℕ) → slice_index row.amounts k ≡ 0) }
{
    if code.is_stud() {
        return Ok(SeatRow {
            seats: players.number,
            amounts: [0; 10],
        });
    }
    let value = required(table, FieldKey::BlindsOrStraddles)?;
    let blinds = read_row(value, players, MOST_CHIPS, FieldKey::BlindsOrStraddles)?;
    Ok(swap_heads_up(blinds))
}

// Whether antes are dead.
#[tactic(auto, using(card_set::proofs::NumbersOfRange::any_taken))]
fn has_dead_antes(trimmed: bool, antes: &SeatRow) -> bool
    ensures said { result ≡ setup_fields.are_dead trimmed (amounts_in antes.now) }
    ensures some { result ≡ true → list_any (λ seat. nat_lt 0 (amount_of antes.now seat))
        (seats_of antes.now.seats) ≡ true }
{
    !trimmed && has_some(antes)
}

// Whether some seat posts an ante.
fn has_some(antes: &SeatRow) -> bool
    ensures { result ≡ list_any (λ ante. nat_lt 0 ante) (amounts_in antes.now) }
{
    let (antes, _fillers) = antes.amounts.split_at(antes.seats as usize);
    for ante in antes {
        if *ante > 0 {
            return true;
        }
    }
    false
}
