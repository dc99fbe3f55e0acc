//! Puts the members of a JSON object, one after the other. Each call makes the value that it puts,
//! so that its callers own nothing but the members if memory runs out.
ghost use Rattle.std.specs.Prelude.{◌≡◌, IfOk, OnOk};
ghost use Rattle.serde_json.specs.Data.{string};
ghost use Rattle.serde_json.specs.Data as json;
ghost use Rattle.serde_json.specs.View.{view, members_view};
ghost use Rattle.ohh_writing.specs.Tree.{whole};

use card_set::{Memory, string_from};
use serde_json::{Map, Value, put};
use std::alloc::Global;

/// Puts a whole number under a name.
pub fn put_number(
    alloc: Global,
    members: &mut Map<String, Value>,
    name: &str,
    number: u64,
) -> Result<(), Memory>
    ensures { OnOk result (members_view members.new.entries
        ≡ json.put name.now (whole number) (members_view members.old.entries)) }
{
    put_value(alloc, members, name, Value::from(number))?;
    Ok(())
}

/// Puts a copy of a text under a name.
pub fn put_text(
    alloc: Global,
    members: &mut Map<String, Value>,
    name: &str,
    text: &str,
) -> Result<(), Memory>
    ensures { OnOk result (members_view members.new.entries
        ≡ json.put name.now (string text.now) (members_view members.old.entries)) }
{
    put_value(alloc, members, name, text_value(alloc, text)?)?;
    Ok(())
}

/// Puts a value under a name.
pub fn put_value(
    alloc: Global,
    members: &mut Map<String, Value>,
    name: &str,
    value: Value,
) -> Result<(), Memory>
    ensures { OnOk result (members_view members.new.entries
        ≡ json.put name.now (view value) (members_view members.old.entries)) }
{
    put(members, alloc, name, value).map_err(|_| refused_to_tree())
}

/// A text as a value.
pub fn text_value(alloc: Global, text: &str) -> Result<Value, Memory>
    ensures { IfOk result (λ value. view value ≡ string text.now) }
{
    Ok(Value::String(string_from(alloc, text)?))
}

/// `serde_json` answered that memory was refused for a tree, or for its text.
#[tactic(auto, using(card_set::specs::Refusal::an_allocator_said_so))]
pub fn refused_to_tree() -> Memory {
    Memory {}
}
