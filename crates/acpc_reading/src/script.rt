//! Writes the script of a hand from its cards and its betting.
ghost use Rattle.std.specs.Prelude.{◌≡◌, ℕ, ◌≤◌, ◌<◌, ◌+◌, ◌-◌, ◌^◌, None, length, map, Ok, OnOk, IfOk, IfErr, IfSome};
ghost use Rattle.play_event.specs.Said.{kind_said, numbered};
ghost use Rattle.first_fault.specs.Reading.{Fails, Gives};
ghost use Rattle.acpc_game.specs.Parts.{parts_of};
ghost use Rattle.acpc_reading.specs.Cards.{Written, dealt, hole_after, holes_after, next_round, script_said, step_after, steps_said, with_letter};
ghost use Rattle.acpc_reading.specs.Left.{parts_left};
ghost use Rattle.acpc_reading.specs.Scripts.{written_by};

use crate::cards::{read_hole, read_known};
use crate::letters::fault_at;
use crate::parts::next_part;
use crate::pending::Pending;
use crate::step::BettingStep;
use acpc_game::{Game, LineFault, LineFaultKind, count_parts, cut_at};
use chip_ledger::{PlayerCount, Seat};
use first_fault::{ReadError, saturating_u32};
use play_event::{Event, Kind, Script, Spelled};
use std::alloc::Global;

/// The script of a hand of a game, from the cards field at this byte and the betting.
#[tactic(auto, unfolding(crate::specs::Cards::script_said))]
pub fn read_script(
    alloc: Global,
    game: &Game,
    steps: &[BettingStep],
    at: u64,
    field: &[u8],
) -> Result<Script, ReadError<LineFault>>
    ensures { Gives (λ script. map numbered script) result
        (script_said game.now.stacks.seats steps.now at (parts_of 47 field.now)) }
{
    let players = game.stacks.players();
    let (holes, boards) = cut_at(field, b'/');
    if count_parts(holes, b'|') != players.number as usize {
        return Err(fault_at(LineFaultKind::SeatCount, at));
    }
    let mut script = Script::with_room(alloc, players.number as usize + steps.len())?;
    take_holes(&mut script, players, at, holes)?;
    take_steps(&mut script, at, boards, steps)?;
    Ok(script)
}

// The deals of the hole cards of all seats.
fn take_holes(
    script: &mut Script,
    players: PlayerCount,
    at: u64,
    holes: &[u8],
) -> Result<(), ReadError<LineFault>>
    requires { length (parts_of 124 holes.now) ≡ players.number }
    ensures ok { OnOk result (holes_after at (map numbered script.old) 1 (parts_of 124 holes.now)
        ≡ Ok (map numbered script.new)) }
    ensures err { IfErr result (λ stop.
        Fails stop (holes_after at (map numbered script.old) 1 (parts_of 124 holes.now))) }
{
    let mut seat = 1;
    let mut rest = Some(holes);
    while let Some((part, more)) = next_part(rest, b'|') {
        take_hole(script, Seat { number: seat }, at, part)?;
        seat += 1;
        rest = more;
    }
    Ok(())
}

// The deal of a seat's hole cards.
#[tactic(auto, unfolding(crate::specs::Cards::hole_after))]
fn take_hole(
    script: &mut Script,
    seat: Seat,
    at: u64,
    part: &[u8],
) -> Result<(), ReadError<LineFault>>
    ensures ok { OnOk result (hole_after at (map numbered script.old) seat.number part.now
        ≡ Ok (map numbered script.new)) }
    ensures err { IfErr result (λ stop.
        Fails stop (hole_after at (map numbered script.old) seat.number part.now)) }
{
    match read_hole(part) {
        Some(cards) => {
            script.push(Event {
                at: 0,
                kind: Kind::Hole { seat, cards },
            })?;
            Ok(())
        }
        None => Err(fault_at(LineFaultKind::BadCards, at)),
    }
}

// The events of all steps, if no board cards are left over.
#[tactic(auto, unfolding(crate::specs::Cards::steps_said))]
fn take_steps(
    script: &mut Script,
    at: u64,
    boards: Option<&[u8]>,
    steps: &[BettingStep],
) -> Result<(), ReadError<LineFault>>
    ensures ok { OnOk result
        (steps_said at (dealt (map numbered script.old) (parts_left 47 boards.entry)) steps.now
        ≡ Ok (map numbered script.new)) }
    ensures err { IfErr result (λ stop. Fails stop
        (steps_said at (dealt (map numbered script.old) (parts_left 47 boards.entry)) steps.now)) }
{
    let mut pending = Pending {
        number: 1,
        size: 3,
        boards,
    };
    for step in steps {
        let next = take_step(script, at, pending, *step)?;
        pending = next;
    }
    match pending.boards {
        None => Ok(()),
        Some(_) => Err(fault_at(LineFaultKind::BadCards, at)),
    }
}

// One more letter with its number, or a board deal.
#[tactic(auto, unfolding(crate::specs::Cards::step_after))]
fn take_step<'a>(
    script: &mut Script,
    at: u64,
    pending: Pending<'a>,
    step: BettingStep,
) -> Result<Pending<'a>, ReadError<LineFault>>
    requires few { pending.number < 2 ^ 64 - 1 }
    requires small { pending.size ≤ 7 }
    ensures ok { IfOk result (λ next. step_after at (written_by script.old pending.entry) step
        ≡ Ok (written_by script.new next)) }
    ensures number { IfOk result (λ next. next.number ≤ pending.entry.number + 1) }
    ensures size { IfOk result (λ next. next.size ≤ 7) }
    ensures err { IfErr result (λ stop.
        Fails stop (step_after at (written_by script.old pending.entry) step)) }
{
    let Some(kind) = letter_of(step) else {
        return take_board(script, at, pending);
    };
    script.push(Event {
        at: saturating_u32(pending.number),
        kind,
    })?;
    Ok(Pending {
        number: pending.number + 1,
        size: pending.size,
        boards: pending.boards,
    })
}

// The move of a letter, which does not name its seat; `None` for a stroke.
#[tactic(auto, unfolding(crate::specs::Cards::step_after))]
fn letter_of(step: BettingStep) -> Option<Kind>
    ensures letter { IfSome result (λ kind. (at : ℕ) (so_far : Written)
        → step_after at so_far step ≡ Ok (with_letter so_far (kind_said kind))) }
    ensures none { result ≡ None → step ≡ BettingStep.NextRound }
{
    match step {
        BettingStep::Fold => Some(Kind::Fold { actor: None }),
        BettingStep::Call => Some(Kind::Call {
            actor: None,
            stated: None,
        }),
        BettingStep::Raise => Some(Kind::Raise {
            actor: None,
            amount: Spelled::Unit,
        }),
        BettingStep::RaiseTo(total) => Some(Kind::Raise {
            actor: None,
            amount: Spelled::HandTotal(total),
        }),
        BettingStep::NextRound => None,
    }
}

// The board deal before the next round.
#[tactic(auto, unfolding(crate::specs::Cards::next_round))]
fn take_board<'a>(
    script: &mut Script,
    at: u64,
    pending: Pending<'a>,
) -> Result<Pending<'a>, ReadError<LineFault>>
    requires { pending.size ≤ 7 }
    ensures ok { IfOk result (λ next.
        next_round at (written_by script.old pending.entry) (parts_left 47 pending.entry.boards)
        ≡ Ok (written_by script.new next)) }
    ensures number { IfOk result (λ next. next.number ≡ pending.entry.number) }
    ensures size { IfOk result (λ next. next.size ≡ 1) }
    ensures err { IfErr result (λ stop. Fails stop (next_round at
        (written_by script.old pending.entry) (parts_left 47 pending.entry.boards))) }
{
    let Some(left) = pending.boards else {
        return Err(fault_at(LineFaultKind::BadCards, at));
    };
    let (board, rest) = cut_at(left, b'/');
    match read_known(pending.size, board) {
        Some(slots) => {
            let cards = slots.known_cards();
            script.push(Event {
                at: 0,
                kind: Kind::Board { cards },
            })?;
            Ok(Pending {
                number: pending.number,
                size: 1,
                boards: rest,
            })
        }
        None => Err(fault_at(LineFaultKind::BadCards, at)),
    }
}
