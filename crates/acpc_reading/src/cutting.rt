//! Cuts a line of a hand at its colons into six fields.
ghost use Rattle.std.specs.Prelude.{◌<◌, ◌^◌, length, IfOk};
ghost use Rattle.first_fault.specs.Reading.{Gives};
ghost use Rattle.acpc_game.specs.Parts.{parts_of};
ghost use Rattle.acpc_reading.specs.Logs.{six_fields};
ghost use Rattle.acpc_reading.specs.FieldsView.{HasRoom, fields_in};

use crate::fields::Fields;
use crate::letters::fault_at;
use acpc_game::{LineFault, LineFaultKind, cut_at};
use first_fault::ReadError;

/// The six fields of a line.
#[tactic(auto, unfolding(crate::specs::Logs::six_fields))]
pub fn cut_fields(line: &[u8]) -> Result<Fields<'_>, ReadError<LineFault>>
    requires { length line.now < 2 ^ 63 }
    ensures room { IfOk result (λ fields. HasRoom (fields_in fields)) }
    ensures fields { Gives fields_in result (six_fields (length line.now) (parts_of 58 line.now)) }
{
    let end = line.len() as u64 + 1;
    let (state, Some(rest)) = cut_at(line, b':') else {
        return Err(fault_at(LineFaultKind::LineShape, end));
    };
    let (hand, Some(rest)) = cut_at(rest, b':') else {
        return Err(fault_at(LineFaultKind::LineShape, end));
    };
    let (betting, Some(rest)) = cut_at(rest, b':') else {
        return Err(fault_at(LineFaultKind::LineShape, end));
    };
    let (cards, Some(rest)) = cut_at(rest, b':') else {
        return Err(fault_at(LineFaultKind::LineShape, end));
    };
    let (values, Some(rest)) = cut_at(rest, b':') else {
        return Err(fault_at(LineFaultKind::LineShape, end));
    };
    let (names, more) = cut_at(rest, b':');
    match more {
        None => Ok(Fields {
            state,
            hand,
            betting,
            cards,
            values,
            names,
        }),
        Some(more) => Err(fault_at(LineFaultKind::LineShape, (line.len() - more.len()) as u64)),
    }
}
