//! Tests equity, how often each live seat wins and ties over all completions of a board: `equity
//! CODE HANDS BOARD DEAD`, in which seats without cards are not live.
ghost use Rattle.std.specs.Prelude.{◌≡◌, ◌≤◌, IsTrue};
ghost use Rattle.play_event.specs.Games.{game_of};
ghost use Rattle.hand_equity.specs.Equity.{plays_board};

use crate::playable::can_complete;
use crate::{rows, words};
use card_set::{CardRow, CardSet};
use chip_ledger::LiveRow;
use hand_equity::{EquityRow, equity};
use play_event::{Code, HandRow};
use std::alloc::{AllocError, Global};
use variant_table::{FO8, FT, NS, NT, PO, Variant};

// The cards on the table.
#[derive(Drop)]
struct Table {
    hands: HandRow,
    live: LiveRow,
    board: CardRow,
    dead: CardSet,
}

/// The answer to a row of a game, hands, a board and dead cards.
pub fn answer_to(alloc: Global, row: &str) -> Result<Option<String>, AllocError> {
    let (name, rest) = words::first_and_rest(row);
    let (Some(code), Some(table)) = (Code::read(name), table_of(rest)) else {
        return Ok(None);
    };
    match code {
        Code::FT => counted::<FT>(alloc, &table, 2),
        Code::NT => counted::<NT>(alloc, &table, 2),
        Code::NS => counted::<NS>(alloc, &table, 2),
        Code::PO => counted::<PO>(alloc, &table, 4),
        Code::FO8 => counted::<FO8>(alloc, &table, 4),
        _ => Ok(None),
    }
}

// The table that a row gives.
fn table_of(row: &str) -> Option<Table> {
    let (cards, rest) = words::first_and_rest(row);
    let (board, dead) = words::first_and_rest(rest);
    let (hands, live) = rows::hands(cards)?;
    let board = rows::board(board)?;
    let dead = rows::set(dead)?;
    Some(Table {
        hands,
        live,
        board,
        dead,
    })
}

// The equity in a game with this number of hole cards.
fn counted<V: Variant>(alloc: Global, table: &Table, hole: u8) -> Result<Option<String>, AllocError>
    requires game { IsTrue (plays_board V.CODE) }
    requires cards { hole ≡ (game_of V.CODE).hole }
{
    let (hands, live, board) = (&table.hands, &table.live, &table.board);
    if hands.seats != live.seats || !can_complete::<V>(hands, live, board, hole) {
        return Ok(None);
    }
    let row = equity::<V>(hands, live, board, &table.dead);
    Ok(Some(text_of(alloc, &row, live.seats as usize)?))
}

// The counts of `seats` seats, and then those of low hands.
fn text_of(alloc: Global, row: &EquityRow, seats: usize) -> Result<String, AllocError>
    requires { seats ≤ 10 }
{
    let mut text = String::new(alloc);
    let total = row.total;
    write!(text, "{total} wins ")?;
    push_counts(
        &mut text,
        &row.wins[..seats],
        row.shared,
        &row.ties[..seats],
    )?;
    let none = row.low_none;
    write!(text, "; low none {none} wins ")?;
    push_counts(
        &mut text,
        &row.low_wins[..seats],
        row.low_shared,
        &row.low_ties[..seats],
    )?;
    Ok(text)
}

// How many boards each seat wins, on how many some seats tie, and on how many each seat ties.
fn push_counts(
    text: &mut String,
    wins: &[u32],
    shared: u32,
    ties: &[u32],
) -> Result<(), AllocError> {
    push_numbers(text, wins)?;
    write!(text, " shared {shared} ties ")?;
    push_numbers(text, ties)
}

fn push_numbers(text: &mut String, numbers: &[u32]) -> Result<(), AllocError> {
    let mut between = "";
    for number in numbers {
        write!(text, "{between}{number}")?;
        between = ",";
    }
    Ok(())
}
