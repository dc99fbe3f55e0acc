//! Puts what was played in a hand, and its result, into its table.
ghost use Rattle.std.specs.Prelude.{◌≡◌, codes, map, nat_lt, true, OnOk};
ghost use Rattle.std.specs.List.{list_all, list_any};
ghost use Rattle.toml.specs.View.{table_view};
ghost use Rattle.play_event.specs.Said.{said_of};
ghost use Rattle.play_event.specs.ValidSetup.{IsValid};
ghost use Rattle.play_event.specs.Tidy.{IsTidy};
ghost use Rattle.hand_canon.specs.TraceRows.{core_said};
ghost use Rattle.phh_actions.specs.Written.{has_words};
ghost use Rattle.phh_actions.specs.Written as written;
ghost use Rattle.phh_format.specs.Members.{with_fields, with_member_if};
ghost use Rattle.phh_format.specs.Members as members;
ghost use Rattle.phh_format.specs.HandFields.{rakes_field, texts, trace_fields};

use crate::members::{put, put_amounts, put_row};
use card_set::{Memory, TryPush};
use hand_canon::{Trace, canon};
use phh_actions::write_event;
use play_event::Script;
use std::alloc::Global;
use toml::{Table, Value};

/// Puts what was played in a hand into its table: its canonical script, the finishing stacks and
/// the rakes.
#[tactic(auto, using(crate::proofs::CanonWords::canonical_words))]
pub fn put_trace(alloc: Global, table: &mut Table, trace: &Trace) -> Result<(), Memory>
    requires tidy { IsTidy (core_said trace.now) }
    requires valid { IsValid trace.now.setup }
    ensures { OnOk result (table_view table.new
        ≡ with_fields (trace_fields trace.now) (table_view table.old)) }
{
    put_rakes(alloc, table, trace)?;
    put_row(alloc, table, "finishing_stacks", &trace.finish)?;
    let script = canon(alloc, trace)?;
    put_actions(alloc, table, &script)
}

// Puts the rakes of the pots under their key, if one of them is above 0.
fn put_rakes(alloc: Global, table: &mut Table, trace: &Trace) -> Result<(), Memory>
    requires { IsValid trace.now.setup }
    ensures { OnOk result (table_view table.new ≡ with_member_if (codes "_rakes")
        (rakes_field trace.now.pots.count trace.now.setup.rakes) (table_view table.old)) }
{
    let rakes = trace.setup.rakes.rakes.as_slice();
    let count = trace.pots.count as usize;
    if takes_some(&rakes[..count]) {
        put_amounts(alloc, table, "_rakes", rakes, count)
    } else {
        Ok(())
    }
}

// Whether one of the rakes is above 0.
fn takes_some(rakes: &[u64]) -> bool
    ensures { result ≡ list_any (nat_lt 0) rakes.now }
{
    for rake in rakes {
        if 0 < *rake {
            return true;
        }
    }
    false
}

// Puts the texts of a script under their key.
fn put_actions(alloc: Global, table: &mut Table, script: &Script) -> Result<(), Memory>
    requires { list_all has_words (map said_of script.now) ≡ true }
    ensures { OnOk result (table_view table.new ≡ members.with_member (codes "actions")
        (texts (map written.event_text (map said_of script.now))) (table_view table.old)) }
{
    let mut values = Vec::new(alloc);
    let mut cursor = script.cursor();
    while let Some(event) = cursor.next() {
        let text = write_event(alloc, event.kind)?;
        values.try_push(Value::String(text))?;
    }
    put(alloc, table, "actions", Value::Array(values))
}
