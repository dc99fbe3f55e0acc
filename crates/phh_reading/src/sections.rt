//! Whether a table has values that headers or dotted keys can make.
ghost use Rattle.std.specs.Prelude.{◌≡◌};
ghost use Rattle.toml.specs.View.{array_view, table_view, view};
ghost use Rattle.phh_reading.specs.Tables as tables;

use toml::value::Array;
use toml::{Table, Value};

/// Whether some value is a table, or an array that has one.
pub fn contains_section(table: &Table) -> bool
    ensures { result ≡ tables.has_section (table_view table.now) }
{
    for (key, value) in table.iter() {
        let _key = key;
        if is_or_contains_table(value) {
            return true;
        }
    }
    false
}

// Whether the value is a table, or an array that has one.
fn is_or_contains_table(value: &Value) -> bool
    ensures { result ≡ tables.is_section (view value.now) }
{
    match value {
        Value::Array(items) => contains_table(items),
        _ => holds_table(value),
    }
}

// Whether some item is a table.
fn contains_table(items: &Array) -> bool
    ensures { result ≡ tables.has_table (array_view items.now) }
{
    for item in items.iter() {
        if holds_table(item) {
            return true;
        }
    }
    false
}

// Whether the value is a table.
fn holds_table(value: &Value) -> bool
    ensures { result ≡ tables.is_table (view value.now) }
{
    match value {
        Value::Table(_) => true,
        _ => false,
    }
}
