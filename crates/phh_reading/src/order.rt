//! Orders the tables of a document whose keys are numbers by these numbers, and equal numbers by
//! the text of the key.
ghost use Rattle.std.specs.Prelude.{◌≡◌, ◌==◌, [], ◌∷◌, ◌++◌, map, IfOk, IsTrue, OnOk};
ghost use Rattle.std.specs.List.{prefix_len};
ghost use Rattle.toml.specs.View.{table_view, view};
ghost use Rattle.first_fault.specs.Digits as digits;
ghost use Rattle.phh_reading.specs.Order.{in_order, tables_among};
ghost use Rattle.phh_reading.specs.Order as order;
ghost use Rattle.phh_reading.specs.Stripped.{number_digits};

use card_set::{Memory, TryInsert, TryPush};
use first_fault::is_all_digits;
use std::alloc::Global;
use std::collections::BTreeMap;
use toml::{Table, Value};

// Values by the length of their key's number, the digits of the number, and the key: of two numbers
// the longer is the greater.
type NumberedTables<'a> = BTreeMap<(usize, &'a [u8], &'a [u8]), &'a Value>;

/// Whether each key is a number and each value a table.
pub fn has_numbered_tables(table: &Table) -> bool
    ensures { result ≡ order.is_multi_hand (table_view table.now) }
{
    for (key, value) in table.iter() {
        if !(is_number(key.as_str()) && holds_table(value)) {
            return false;
        }
    }
    true
}

// Whether the text is a number.
fn is_number(key: &str) -> bool
    ensures { result ≡ digits.are_digits key.now }
{
    is_all_digits(key.as_bytes())
}

// Whether the value is a table.
fn holds_table(value: &Value) -> bool
    ensures { result ≡ order.is_table (view value.now) }
{
    match value {
        Value::Table(_) => true,
        _ => false,
    }
}

/// The tables in the order of the numbers of their keys. Check first that they are hands.
pub fn tables_in_order<'a>(alloc: Global, table: &'a Table) -> Result<Vec<&'a Table>, Memory>
    requires { IsTrue (order.is_multi_hand (table_view table.now)) }
    ensures { IfOk result (λ tables. map (λ hand. table_view hand.now) tables.items
        ≡ in_order (table_view table.now)) }
{
    let hands = values_in_order(alloc, table)?;
    let mut tables = Vec::new(alloc);
    for (key, value) in hands.iter() {
        let _number = key.0;
        push_table(&mut tables, *value)?;
    }
    Ok(tables)
}

// The values in the order of the numbers of their keys.
#[tactic(auto, using(crate::proofs::Placing::tables_placed))]
fn values_in_order<'a>(alloc: Global, table: &'a Table) -> Result<NumberedTables<'a>, Memory>
    requires { IsTrue (order.is_multi_hand (table_view table.now)) }
    ensures { IfOk result (λ hands. tables_among (map (λ e. view e.1.now) hands.entries)
        ≡ in_order (table_view table.now)) }
{
    let mut hands = NumberedTables::new(alloc);
    for (key, value) in table.iter() {
        let text = key.as_str().as_bytes();
        let digits = without_zeros(text);
        hands.try_insert((digits.len(), digits, text), value)?;
    }
    Ok(hands)
}

// The digits without leading zeros.
fn without_zeros(key: &[u8]) -> &[u8]
    ensures { result.now ≡ number_digits key.now }
{
    let len = zeros(key);
    let (_zeros, digits) = key.split_at(len);
    digits
}

// The number of leading zeros.
fn zeros(key: &[u8]) -> usize
    ensures { result ≡ prefix_len (λ digit. digit == 48) key.now }
{
    for (index, digit) in key.iter().enumerate() {
        if *digit != b'0' {
            return index;
        }
    }
    key.len()
}

// Appends the value, if it is a table.
fn push_table<'a>(tables: &mut Vec<&'a Table>, value: &'a Value) -> Result<(), Memory>
    ensures { OnOk result (map (λ hand. table_view hand.now) tables.new.items
        ≡ map (λ hand. table_view hand.now) tables.old.items
        ++ tables_among (view value.now ∷ [])) }
{
    match value {
        Value::Table(hand) => {
            tables.try_push(hand)?;
            Ok(())
        }
        _ => Ok(()),
    }
}
