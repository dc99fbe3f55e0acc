//! Writes the names of a line: those of the players, and the number of the hand.
ghost use Rattle.std.specs.Prelude.{◌≡◌, ◌-◌, ◌++◌, None, IfSome, IsUtf8, OnOk, slice_index_or};
ghost use Rattle.acpc_format.specs.Names.{hand_text, name_or_default, names_text};
ghost use Rattle.acpc_format.specs.Names as names;
ghost use Rattle.acpc_format.specs.Texts.{AreTexts};
ghost use Rattle.chip_ledger.specs.SeatsSaid.{default_name};

use crate::cards::push_bar;
use card_set::{Memory, TryExtend, text_from};
use chip_ledger::{PlayerCount, Seat};
use first_fault::{Text, is_all_digits};
use hand_canon::Notes;
use std::alloc::Global;

/// The names of the players, separated by bars.
#[tactic(auto, unfolding(crate::specs::Names::names_text))]
pub fn push_names(
    alloc: Global,
    out: &mut Vec<u8>,
    notes: &Notes,
    players: PlayerCount,
) -> Result<(), Memory>
    ensures written { OnOk result (out.new.items
        ≡ out.old.items ++ names_text notes.now players.number) }
    ensures texts { OnOk result (AreTexts players.number notes.now) }
{
    for index in 0..players.number {
        let seat = Seat { number: index + 1 };
        push_bar(out, seat)?;
        push_name(alloc, out, seat, name_of(notes, seat))?;
    }
    Ok(())
}

// The name of a seat's player, or the default name if there is none or a line cannot write it.
fn push_name(
    alloc: Global,
    out: &mut Vec<u8>,
    seat: Seat,
    name: &Option<Text>,
) -> Result<(), Memory>
    ensures written { OnOk result (out.new.items
        ≡ out.old.items ++ name_or_default seat.number name.now) }
    ensures text { IfSome name.now IsUtf8 }
{
    let Some(name) = name else {
        return push_default(alloc, out, seat);
    };
    let name = name.as_str().as_bytes();
    if can_write_name(name) {
        return Ok(out.try_extend_from_slice(name)?);
    }
    push_default(alloc, out, seat)
}

// The default name of a seat's player.
fn push_default(alloc: Global, out: &mut Vec<u8>, seat: Seat) -> Result<(), Memory>
    ensures { OnOk result (out.new.items ≡ out.old.items ++ default_name seat.number) }
{
    let digits = text_from(alloc, seat.number)?;
    out.try_extend_from_slice(b"p")?;
    Ok(out.try_extend_from_slice(digits.as_bytes())?)
}

/// Whether a line can write a name: it has no colon, no bar and no end of a line.
#[tactic(auto, unfolding(crate::specs::Names::is_spelled_name))]
pub fn can_write_name(name: &[u8]) -> bool
    ensures { result ≡ names.is_spelled_name name.now }
{
    for sign in name {
        if !is_allowed_in_name(*sign) {
            return false;
        }
    }
    true
}

// Whether a sign is allowed in a name.
fn is_allowed_in_name(sign: u8) -> bool
    ensures { result ≡ names.may_stand sign }
{
    sign != b':' && sign != b'|' && sign != b'\r' && sign != b'\n'
}

// The name of a seat's player, if it is known.
fn name_of(notes: &Notes, seat: Seat) -> &Option<Text>
    ensures { result.now ≡ slice_index_or notes.now.names (seat.number - 1) None }
{
    &notes.names[seat.number as usize - 1]
}

/// The number of the hand at this index of its file, from 0: that index if there is no number or a
/// line cannot write it.
#[tactic(auto, unfolding(crate::specs::Names::hand_text))]
pub fn push_hand(
    alloc: Global,
    out: &mut Vec<u8>,
    index: usize,
    name: &Option<Text>,
) -> Result<(), Memory>
    ensures { OnOk result (out.new.items ≡ out.old.items ++ hand_text index name.now) }
{
    let Some(name) = name else {
        return push_index(alloc, out, index);
    };
    let name = name.as_str().as_bytes();
    if can_write_hand_number(name) {
        return Ok(out.try_extend_from_slice(name)?);
    }
    push_index(alloc, out, index)
}

// The digits of an index.
#[tactic(auto, unfolding(crate::specs::Names::hand_text))]
fn push_index(alloc: Global, out: &mut Vec<u8>, index: usize) -> Result<(), Memory>
    ensures { OnOk result (out.new.items ≡ out.old.items ++ hand_text index None) }
{
    let digits = text_from(alloc, index)?;
    Ok(out.try_extend_from_slice(digits.as_bytes())?)
}

/// Whether a line can write a hand number: a decimal number without leading zeros, of at most 18
/// digits.
#[tactic(auto, unfolding(crate::specs::Names::is_spelled_hand))]
pub fn can_write_hand_number(text: &[u8]) -> bool
    ensures { result ≡ names.is_spelled_hand text.now }
{
    if !is_all_digits(text) || text.first() == Some(&b'0') && text.len() != 1 {
        return false;
    }
    text.len() <= 18
}
