//! Reads the betting of a line letter by letter, or names the first byte that does not fit.
ghost use Rattle.std.specs.Prelude.{◌≡◌, ◌<◌, ◌+◌, ◌^◌, true, length, Ok, OnOk, IfErr};
ghost use Rattle.std.specs.List.{list_all};
ghost use Rattle.std.specs.Char.{is_digit};
ghost use Rattle.first_fault.specs.Reading.{Fails};
ghost use Rattle.acpc_reading.specs.Betting.{bare_said, betting_said, letter_said, raise_said, stroke_said, with_move};
ghost use Rattle.acpc_reading.specs.Views.{bets_in};

use crate::betting::ReadBetting;
use crate::step::BettingStep;
use acpc_game::{LineFault, LineFaultKind, cut_digits, cut_first};
use card_set::TryPush;
use chip_ledger::MOST_CHIPS;
use first_fault::{MOST_FILE_MOVES, Quantity, ReadError, read_digits};
use play_event::MOST_MOVES;

/// The betting field of the next hand, which begins at this byte.
#[tactic(auto, unfolding(crate::specs::Betting::betting_said))]
pub fn read_betting(
    no_limit: bool,
    betting: &mut ReadBetting,
    at: u64,
    text: &[u8],
) -> Result<(), ReadError<LineFault>>
    requires { at + length text.now < 2 ^ 64 }
    ensures ok { OnOk result (betting_said no_limit betting.old.file_moves at text.now
        ≡ Ok (bets_in betting.new)) }
    ensures err { IfErr result (λ stop.
        Fails stop (betting_said no_limit betting.old.file_moves at text.now)) }
{
    let (front, _behind) = cut_digits(text);
    if !front.is_empty() {
        return Err(fault_at(LineFaultKind::BadBetting, at));
    }
    betting.clear();
    let mut place = at;
    let mut rest = text;
    while let Some((letter, behind)) = cut_first(rest) {
        let (digits, after) = cut_digits(behind);
        let next = Letter {
            at: place,
            letter,
            digits,
        };
        take_letter(no_limit, betting, &next)?;
        place += 1 + digits.len() as u64;
        rest = after;
    }
    Ok(())
}

// A letter of the betting and the digits after it, from this byte on.
#[derive(Clone, Copy)]
struct Letter<'a> {
    at: u64,
    letter: u8,
    digits: &'a [u8],
    ghost near: { at + 1 + length digits.now < 2 ^ 64 },
    ghost all_digits: { list_all (λ b. is_digit b 10) digits.now ≡ true },
}

// A letter and its digits.
#[tactic(auto, unfolding(crate::specs::Betting::letter_said))]
fn take_letter(
    no_limit: bool,
    betting: &mut ReadBetting,
    next: &Letter<'_>,
) -> Result<(), ReadError<LineFault>>
    ensures ok { OnOk result (letter_said no_limit (bets_in betting.old) next.now.at
        (next.now.letter, next.now.digits.now) ≡ Ok (bets_in betting.new)) }
    ensures err { IfErr result (λ stop. Fails stop (letter_said no_limit (bets_in betting.old)
        next.now.at (next.now.letter, next.now.digits.now))) }
{
    if next.letter == b'f' {
        return take_bare(betting, next, BettingStep::Fold);
    }
    if next.letter == b'c' {
        return take_bare(betting, next, BettingStep::Call);
    }
    if next.letter == b'r' {
        if no_limit {
            return take_raise(betting, next);
        }
        return take_bare(betting, next, BettingStep::Raise);
    }
    if next.letter == b'/' {
        return take_stroke(betting, next);
    }
    Err(fault_at(LineFaultKind::BadBetting, next.at))
}

// A letter that no digits follow.
#[tactic(auto, unfolding(crate::specs::Betting::bare_said))]
fn take_bare(
    betting: &mut ReadBetting,
    next: &Letter<'_>,
    step: BettingStep,
) -> Result<(), ReadError<LineFault>>
    ensures ok { OnOk result (bare_said (bets_in betting.old) next.now.at next.now.digits.now step
        ≡ Ok (bets_in betting.new)) }
    ensures err { IfErr result (λ stop.
        Fails stop (bare_said (bets_in betting.old) next.now.at next.now.digits.now step)) }
{
    if !next.digits.is_empty() {
        return Err(fault_at(LineFaultKind::BadBetting, next.at + 1));
    }
    take_move(betting, next.at, step)
}

// A raise to the total that its digits say.
#[tactic(auto, unfolding(crate::specs::Betting::raise_said, first_fault::specs::Digits::are_digits))]
fn take_raise(betting: &mut ReadBetting, next: &Letter<'_>) -> Result<(), ReadError<LineFault>>
    ensures ok { OnOk result (raise_said (bets_in betting.old) next.now.at next.now.digits.now
        ≡ Ok (bets_in betting.new)) }
    ensures err { IfErr result (λ stop.
        Fails stop (raise_said (bets_in betting.old) next.now.at next.now.digits.now)) }
{
    if next.digits.is_empty() {
        return Err(fault_at(LineFaultKind::BadBetting, next.at + 1));
    }
    match read_digits(next.digits, MOST_CHIPS) {
        Some(total) => take_move(betting, next.at, BettingStep::RaiseTo(total)),
        None => Err(fault_at(LineFaultKind::AmountLimit, next.at + 1)),
    }
}

// One more move, if the hand and the file may have it.
#[tactic(auto, unfolding(crate::specs::Betting::with_move))]
fn take_move(
    betting: &mut ReadBetting,
    at: u64,
    step: BettingStep,
) -> Result<(), ReadError<LineFault>>
    ensures ok { OnOk result (with_move (bets_in betting.old) at step ≡ Ok (bets_in betting.new)) }
    ensures err { IfErr result (λ stop. Fails stop (with_move (bets_in betting.old) at step)) }
{
    if betting.moves >= MOST_MOVES {
        return Err(fault_at(LineFaultKind::TooMany(Quantity::Moves), at));
    }
    if betting.file_moves >= MOST_FILE_MOVES {
        return Err(fault_at(LineFaultKind::TooMany(Quantity::FileMoves), at));
    }
    betting.steps.try_push(step)?;
    betting.moves += 1;
    betting.file_moves += 1;
    Ok(())
}

// A stroke (`/`), which begins the next of at most four rounds.
#[tactic(auto, unfolding(crate::specs::Betting::stroke_said))]
fn take_stroke(betting: &mut ReadBetting, next: &Letter<'_>) -> Result<(), ReadError<LineFault>>
    ensures ok { OnOk result (stroke_said (bets_in betting.old) next.now.at next.now.digits.now
        ≡ Ok (bets_in betting.new)) }
    ensures err { IfErr result (λ stop.
        Fails stop (stroke_said (bets_in betting.old) next.now.at next.now.digits.now)) }
{
    if betting.round >= 4 {
        return Err(fault_at(LineFaultKind::BadBetting, next.at));
    }
    if !next.digits.is_empty() {
        return Err(fault_at(LineFaultKind::BadBetting, next.at + 1));
    }
    betting.steps.try_push(BettingStep::NextRound)?;
    betting.round += 1;
    Ok(())
}

/// A fault at a byte.
pub fn fault_at(what: LineFaultKind, byte: u64) -> ReadError<LineFault>
    ensures { result ≡ ReadError.Fault (record { what = what; byte = byte }) }
{
    ReadError::Fault(LineFault { what, byte })
}
