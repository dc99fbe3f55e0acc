//! Puts a value into a table under its key.
ghost use Rattle.std.specs.Prelude.{ℕ, ◌≡◌, ◌≤◌, ◌<◌, ◌^◌, pos, length, take, slice_index, string_bytes, OnOk};
ghost use Rattle.toml.specs.Data.{integer, string};
ghost use Rattle.toml.specs.View.{table_view, view};
ghost use Rattle.chip_ledger.specs.declared.seat_row.TheConstants.{MOST_AMOUNT};
ghost use Rattle.phh_format.specs.Members as members;
ghost use Rattle.phh_format.specs.HandFields.{numbers};
ghost use Rattle.chip_ledger.specs.SeatRow.{amounts_in};

use card_set::{Memory, TryInsert, TryPush, string_from};
use chip_ledger::SeatRow;
use std::alloc::Global;
use toml::{Table, Value};

/// Puts a text under a key.
pub fn put_text(alloc: Global, table: &mut Table, key: &str, text: &str) -> Result<(), Memory>
    ensures { OnOk result (table_view table.new
        ≡ members.with_member key.now (string text.now) (table_view table.old)) }
{
    let text = string_from(alloc, text)?;
    put(alloc, table, key, Value::String(text))
}

/// A text as a value.
pub fn text(text: String) -> Value
    ensures { view result ≡ string (string_bytes text) }
{
    Value::String(text)
}

/// Puts the amounts of a row under a key.
pub fn put_row(alloc: Global, table: &mut Table, key: &str, row: &SeatRow) -> Result<(), Memory>
    ensures { OnOk result (table_view table.new
        ≡ members.with_member key.now (numbers (amounts_in row.now)) (table_view table.old)) }
{
    put_amounts(
        alloc,
        table,
        key,
        row.amounts.as_slice(),
        row.seats as usize,
    )
}

/// Puts a list of the first `count` amounts under a key.
pub fn put_amounts(
    alloc: Global,
    table: &mut Table,
    key: &str,
    amounts: &[u64],
    count: usize,
) -> Result<(), Memory>
    requires within { count ≤ length amounts.now }
    requires bounded { (k : ℕ) → slice_index amounts.now k ≤ MOST_AMOUNT }
    ensures { OnOk result (table_view table.new
        ≡ members.with_member key.now (numbers (take count amounts.now)) (table_view table.old)) }
{
    let mut values = Vec::new(alloc);
    for index in 0..count {
        values.try_push(number(amounts[index]))?;
    }
    put(alloc, table, key, Value::Array(values))
}

/// A whole number as a value.
pub fn number(amount: u64) -> Value
    requires { amount < 2 ^ 63 }
    ensures { view result ≡ integer (pos amount) }
{
    Value::Integer(amount as i64)
}

/// Puts a value under a key.
pub fn put(alloc: Global, table: &mut Table, key: &str, value: Value) -> Result<(), Memory>
    ensures { OnOk result (table_view table.new
        ≡ members.with_member key.now (view value) (table_view table.old)) }
{
    let name = string_from(alloc, key)?;
    table.try_insert(name, value)?;
    Ok(())
}
