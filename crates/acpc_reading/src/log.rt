//! Reads a log line by line as the hands that it says, or names its first fault.
ghost use Rattle.std.specs.Prelude.{◌≡◌, ℕ, ◌≤◌, ◌<◌, ◌^◌, map, sum_by, Ok, IfOk, IfErr, OnOk, length};
ghost use Rattle.std.specs.List.{AllByRecursion};
ghost use Rattle.first_fault.specs.declared.limits.TheConstants.{MOST_FILE_MOVES, MOST_HANDS};
ghost use Rattle.first_fault.specs.Reading.{Fails, Gives};
ghost use Rattle.acpc_game.specs.Faults.{Answers};
ghost use Rattle.acpc_reading.specs.Logs.{hands_after_line, line_said, reading, with_hand};
ghost use Rattle.acpc_reading.specs.Logs as logs;
ghost use Rattle.acpc_reading.specs.RecordView.{AreOfGame, IsOfGame, record_said};
ghost use Rattle.hand_canon.specs.Moves.{moves_of};

use crate::betting::ReadBetting;
use crate::cutting::cut_fields;
use crate::letters::{fault_at, read_betting};
use crate::names::{read_hand, read_names};
use crate::record::record_of;
use crate::script::read_script;
use crate::values::read_values;
use acpc_game::{AcpcFault, Game, LineFault, LineFaultKind, has_prefix, next_line, to_file_fault};
use first_fault::{MOST_HANDS, Quantity, ReadError};
use hand_canon::Records;
use std::alloc::Global;

// Few lines of hands are shorter than this, in bytes.
const USUAL_LINE: usize = 32;

/// The records that a log says under its game, one for each line of a hand, in order; or the first
/// fault, with its line and byte. Each record is sound, and has the setup and the rules of the
/// game.
pub fn read(alloc: Global, game: &Game, bytes: &[u8]) -> Result<Records, AcpcFault>
    ensures reads { Answers (map record_said) result (reading game.now bytes.now) }
    ensures sound { IfOk result (AllByRecursion (IsOfGame game.now)) }
    ensures few { IfOk result (λ records. length records ≤ MOST_HANDS) }
    ensures moves { IfOk result (λ records. sum_by moves_of records ≤ MOST_FILE_MOVES) }
{
    Ok(read_lines(alloc, game, bytes)?)
}

// The hands of a log.
#[tactic(auto, unfolding(crate::specs::Logs::reading))]
fn read_lines(alloc: Global, game: &Game, bytes: &[u8]) -> Result<Records, ReadError<AcpcFault>>
    ensures said { Gives (map record_said) result (reading game.now bytes.now) }
    ensures kept { IfOk result (λ records. (moves : ℕ) × AreOfGame game.now records moves) }
{
    let mut records = Records::new(alloc);
    records.reserve((bytes.len() / USUAL_LINE).min(MOST_HANDS));
    let mut betting = ReadBetting::new(alloc)?;
    let mut count = 0;
    let mut rest = bytes;
    while let Some((line, behind)) = next_line(rest) {
        count += 1;
        take_line(alloc, game, &mut records, &mut betting, count, line)?;
        rest = behind;
    }
    Ok(records)
}

// One more line.
#[tactic(auto, unfolding(crate::specs::Logs::hands_after_line))]
fn take_line(
    alloc: Global,
    game: &Game,
    records: &mut Records,
    betting: &mut ReadBetting,
    line: u64,
    text: &[u8],
) -> Result<(), ReadError<AcpcFault>>
    requires room { length text.now < 2 ^ 63 }
    requires kept { AreOfGame game.now records.old betting.old.file_moves }
    ensures ok { OnOk result (hands_after_line game.now
        (map record_said records.old, betting.old.file_moves) line text.now
        ≡ Ok (map record_said records.new, betting.new.file_moves)) }
    ensures err { IfErr result (λ stop. Fails stop (hands_after_line game.now
        (map record_said records.old, betting.old.file_moves) line text.now)) }
    ensures kept { OnOk result (AreOfGame game.now records.new betting.new.file_moves) }
{
    if is_ignored(text) {
        return Ok(());
    }
    if records.len() >= MOST_HANDS {
        let fault = LineFault {
            what: LineFaultKind::TooMany(Quantity::Hands),
            byte: 1,
        };
        return Err(ReadError::Fault(to_file_fault(line, fault)));
    }
    match read_line(alloc, game, records, betting, text) {
        Ok(()) => Ok(()),
        Err(ReadError::Memory(memory)) => Err(ReadError::Memory(memory)),
        Err(ReadError::Fault(fault)) => Err(ReadError::Fault(to_file_fault(line, fault))),
    }
}

/// Whether a line is ignored.
pub fn is_ignored(line: &[u8]) -> bool
    ensures { result ≡ logs.is_passed_over line.now }
{
    line.is_empty() || line[0] == b'#' || has_prefix(line, b"SCORE:")
}

// Appends the hand of one line. The record is made in its place: it has a thousand bytes.
#[tactic(auto, unfolding(crate::specs::Logs::line_said, crate::specs::Logs::hand_of))]
fn read_line(
    alloc: Global,
    game: &Game,
    records: &mut Records,
    betting: &mut ReadBetting,
    line: &[u8],
) -> Result<(), ReadError<LineFault>>
    requires room { length line.now < 2 ^ 63 }
    requires few { length records.old < MOST_HANDS }
    requires kept { AreOfGame game.now records.old betting.old.file_moves }
    ensures ok { OnOk result (with_hand (map record_said records.old)
        (line_said game.now (length records.old) betting.old.file_moves line.now)
        ≡ Ok (map record_said records.new, betting.new.file_moves)) }
    ensures err { IfErr result (λ stop. Fails stop
        (line_said game.now (length records.old) betting.old.file_moves line.now)) }
    ensures kept { OnOk result (AreOfGame game.now records.new betting.new.file_moves) }
{
    if !has_prefix(line, b"STATE:") {
        return Err(fault_at(LineFaultKind::LineShape, 1));
    }
    let fields = cut_fields(line)?;
    let players = game.stacks.players();
    let hand_at = 1 + fields.state.len() as u64 + 1;
    let betting_at = hand_at + fields.hand.len() as u64 + 1;
    let cards_at = betting_at + fields.betting.len() as u64 + 1;
    let values_at = cards_at + fields.cards.len() as u64 + 1;
    let names_at = values_at + fields.values.len() as u64 + 1;
    let hand = read_hand(alloc, records.len(), hand_at, fields.hand)?;
    read_betting(game.no_limit, betting, betting_at, fields.betting)?;
    let steps = betting.steps.as_slice();
    let script = read_script(alloc, game, steps, cards_at, fields.cards)?;
    let values = read_values(players, values_at, fields.values)?;
    let names = read_names(alloc, players, names_at, fields.names)?;
    records.push(record_of(game, script, values, names, hand))?;
    Ok(())
}
