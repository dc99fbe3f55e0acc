//! Writes the canonical script of a trace street by street: discards, deals, moves, and at the end
//! the showdown.
ghost use Rattle.std.specs.Prelude.{◌≡◌, ◌≤◌, ◌++◌, length, map, IfOk, OnOk};
ghost use Rattle.std.specs.List.{flat_map, range_with_len};
ghost use Rattle.play_event.specs.Played.{move_said};
ghost use Rattle.play_event.specs.Said.{kind_said, said_of};
ghost use Rattle.card_set.specs.Row.{slots_of};
ghost use Rattle.play_event.specs.CanonScript.{board_said, canonical_script, deal_said, deals_said, discards_said, move_named, plain_move, plain_moves, showdown_said};
ghost use Rattle.hand_canon.specs.RowTests.{discards_from, said_on, showings_from};
ghost use Rattle.play_event.specs.Tidy.{HasTidyCards, IsTidy};
ghost use Rattle.hand_canon.specs.TraceRows.{core_said};
ghost use Rattle.hand_canon.specs.SaidSoFar.{words_of};

use crate::folds::{count_unfolded, folds, folds_before};
use crate::gathered::{dealt_to_board, dealt_to_seats, discarded_by_seats, held_by_seats};
use crate::numbered::Numbered;
use crate::streets::{count_streets, draws};
use crate::trace::Trace;
use card_set::{Memory, SlotRow};
use chip_ledger::{LiveRow, Seat};
use play_event::{Act, HandRow, Kind, Move, Script, Spelled};
use std::alloc::Global;

/// The canonical script of a trace: the one script that every notation writes for it. Cards appear
/// in it as they are known at the end of the hand, each move names its seat, and `at` is the number
/// of the event.
pub fn canon(alloc: Global, trace: &Trace) -> Result<Script, Memory>
    requires { IsTidy (core_said trace.now) }
    ensures said { IfOk result (λ script.
        map said_of script ≡ canonical_script trace.now.setup (core_said trace.now)) }
    ensures numbered { IfOk result (λ script.
        map (λ event. event.at) script ≡ range_with_len 1 (length script)) }
{
    let mut written = Numbered::new(alloc);
    for index in 0..count_streets(trace.setup.code) {
        let street = index + 1;
        write_discards(&mut written, trace, street)?;
        write_deals(&mut written, trace, street)?;
        write_moves(&mut written, trace.moves.as_slice(), street)?;
    }
    write_showdown(&mut written, trace)?;
    Ok(written.script)
}

// Writes the discards of a street: one for each seat that is live when the street begins, if the
// street draws and at least two seats are live.
fn write_discards(written: &mut Numbered, trace: &Trace, street: u8) -> Result<(), Memory>
    requires street { 1 ≤ street }
    requires tidy { HasTidyCards (core_said trace.now) }
    ensures { OnOk result (words_of written.new ≡ words_of written.old
        ++ discards_said trace.now.setup (core_said trace.now).places
        (plain_moves (core_said trace.now).moves) street) }
{
    if !draws(trace.setup.code, street) {
        return Ok(());
    }
    let seats = trace.setup.stacks.seats;
    let folded = folds_before(trace.moves.as_slice(), street);
    if count_unfolded(&folded, seats) < 2 {
        return Ok(());
    }
    let discards = discarded_by_seats(trace.places.as_slice(), street);
    for index in 0..seats {
        write_discard(written, &folded, &discards, Seat { number: index + 1 })?;
    }
    Ok(())
}

// Writes the discard of a seat, unless it has folded.
fn write_discard(
    written: &mut Numbered,
    folded: &LiveRow,
    discards: &HandRow,
    seat: Seat,
) -> Result<(), Memory>
    ensures { OnOk result (words_of written.new
        ≡ words_of written.old ++ discards_from folded.now discards.now seat.number) }
{
    if folded.get(seat) {
        return Ok(());
    }
    let cards = discards.get(seat);
    written.push(Kind::Discard { seat, cards })
}

// Writes the deals of a street: one event for each seat, and one for the board.
fn write_deals(written: &mut Numbered, trace: &Trace, street: u8) -> Result<(), Memory>
    requires { HasTidyCards (core_said trace.now) }
    ensures { OnOk result (words_of written.new ≡ words_of written.old
        ++ deals_said trace.now.setup (core_said trace.now).places street) }
{
    let hands = dealt_to_seats(trace.places.as_slice(), street);
    for index in 0..trace.setup.stacks.seats {
        let seat = Seat { number: index + 1 };
        write_deal(written, seat, hands.get(seat))?;
    }
    let board = dealt_to_board(trace.places.as_slice(), street);
    write_board(written, &board)
}

// Writes the deal of these cards to a seat, unless there are none.
fn write_deal(written: &mut Numbered, seat: Seat, cards: SlotRow) -> Result<(), Memory>
    ensures { OnOk result (words_of written.new
        ≡ words_of written.old ++ deal_said seat.number (slots_of cards)) }
{
    if cards.as_slice().is_empty() {
        return Ok(());
    }
    written.push(Kind::Hole { seat, cards })
}

// Writes the deal of these cards to the board, unless there are none.
fn write_board(written: &mut Numbered, cards: &SlotRow) -> Result<(), Memory>
    ensures { OnOk result (words_of written.new
        ≡ words_of written.old ++ board_said (slots_of cards.now)) }
{
    if cards.as_slice().is_empty() {
        return Ok(());
    }
    let cards = cards.known_cards();
    written.push(Kind::Board { cards })
}

// Writes the moves of a street.
fn write_moves(written: &mut Numbered, moves: &[Move], street: u8) -> Result<(), Memory>
    ensures { OnOk result (words_of written.new
        ≡ words_of written.old ++ flat_map (said_on street) moves.now) }
{
    let mut rest = moves;
    while let [played, behind @ ..] = rest {
        write_move(written, *played, street)?;
        rest = behind;
    }
    Ok(())
}

// Writes a move, if it belongs to the street.
fn write_move(written: &mut Numbered, played: Move, street: u8) -> Result<(), Memory>
    ensures { OnOk result (words_of written.new ≡ words_of written.old ++ said_on street played) }
{
    if played.street != street {
        return Ok(());
    }
    written.push(named_move(played))
}

/// A move as canonical scripts write it: with its seat and its target.
pub fn named_move(played: Move) -> Kind
    ensures { kind_said result ≡ move_named (plain_move (move_said played)) }
{
    let actor = Some(played.seat);
    match played.act {
        Act::Fold => Kind::Fold { actor },
        Act::Call => Kind::Call {
            actor,
            stated: None,
        },
        Act::Raise => Kind::Raise {
            actor,
            amount: Spelled::To(played.to),
        },
        Act::BringIn => Kind::BringIn { actor },
    }
}

// Writes the showdown, if at least two seats are live at the end.
fn write_showdown(written: &mut Numbered, trace: &Trace) -> Result<(), Memory>
    requires { HasTidyCards (core_said trace.now) }
    ensures { OnOk result (words_of written.new ≡ words_of written.old
        ++ showdown_said trace.now.setup (core_said trace.now).places
        (plain_moves (core_said trace.now).moves) (core_said trace.now).shown) }
{
    let seats = trace.setup.stacks.seats;
    let folded = folds(trace.moves.as_slice());
    if count_unfolded(&folded, seats) < 2 {
        return Ok(());
    }
    let held = held_by_seats(trace.places.as_slice());
    for index in 0..seats {
        let seat = Seat { number: index + 1 };
        write_showing(written, &folded, &trace.shown, &held, seat)?;
    }
    Ok(())
}

// Writes that a seat shows all its cards, or mucks, unless it has folded.
fn write_showing(
    written: &mut Numbered,
    folded: &LiveRow,
    shown: &LiveRow,
    held: &HandRow,
    seat: Seat,
) -> Result<(), Memory>
    ensures { OnOk result (words_of written.new
        ≡ words_of written.old ++ showings_from folded.now shown.now held.now seat.number) }
{
    if folded.get(seat) {
        return Ok(());
    }
    if shown.get(seat) {
        let cards = held.get(seat).known_cards();
        written.push(Kind::Show { seat, cards })
    } else {
        written.push(Kind::Muck { seat })
    }
}
