//! Puts the setup of a hand into its table.
ghost use Rattle.std.specs.Prelude.{◌≡◌, codes, OnOk};
ghost use Rattle.toml.specs.View.{table_view};
ghost use Rattle.play_event.specs.ValidSetup.{IsValid, IsSizeWhere};
ghost use Rattle.phh_format.specs.Members.{with_fields, with_member_if};
ghost use Rattle.phh_format.specs.HandFields.{blinds_field, setup_fields, size_field};

use crate::members::{number, put, put_amounts, put_row, put_text};
use card_set::Memory;
use play_event::Setup;
use std::alloc::Global;
use toml::{Table, Value};

/// Puts the setup of a hand into its table. The fields are inserted from the last to the first.
pub fn put_setup(alloc: Global, table: &mut Table, setup: &Setup) -> Result<(), Memory>
    requires { IsValid setup.now }
    ensures { OnOk result (table_view table.new
        ≡ with_fields (setup_fields setup.now) (table_view table.old)) }
{
    let fixed = setup.code.is_fixed();
    put_row(alloc, table, "starting_stacks", &setup.stacks)?;
    put_size(alloc, table, "min_bet", !fixed, setup.min_bet)?;
    put_size(alloc, table, "big_bet", fixed, setup.big_bet)?;
    put_size(alloc, table, "small_bet", fixed, setup.small_bet)?;
    put_size(
        alloc,
        table,
        "bring_in",
        setup.code.is_stud(),
        setup.bring_in,
    )?;
    put_blinds(alloc, table, setup)?;
    put_row(alloc, table, "antes", &setup.antes)?;
    let trimmed = Value::Boolean(!setup.dead_antes);
    put(alloc, table, "ante_trimming_status", trimmed)?;
    put_text(alloc, table, "variant", setup.code.text())
}

// Puts a bet size under a key, if the game uses it.
fn put_size(
    alloc: Global,
    table: &mut Table,
    key: &str,
    used: bool,
    size: u64,
) -> Result<(), Memory>
    requires { IsSizeWhere used size }
    ensures { OnOk result (table_view table.new
        ≡ with_member_if key.now (size_field used size) (table_view table.old)) }
{
    if used {
        put(alloc, table, key, number(size))
    } else {
        Ok(())
    }
}

// Puts the blinds under their key, in a game that has blinds; with two seats the smaller comes
// first.
fn put_blinds(alloc: Global, table: &mut Table, setup: &Setup) -> Result<(), Memory>
    ensures { OnOk result (table_view table.new
        ≡ with_member_if (codes "blinds_or_straddles") (blinds_field setup.now)
        (table_view table.old)) }
{
    if setup.code.is_stud() {
        return Ok(());
    }
    let key = "blinds_or_straddles";
    if setup.blinds.seats == 2 {
        let first = setup.blinds.amounts[0];
        let second = setup.blinds.amounts[1];
        let both = [first.min(second), first.max(second)];
        put_amounts(alloc, table, key, both.as_slice(), 2)
    } else {
        put_row(alloc, table, key, &setup.blinds)
    }
}
