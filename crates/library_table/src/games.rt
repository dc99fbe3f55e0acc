//! Prints the tables of the eleven games: `games table CODE`, `games streets CODE`, `games dealt
//! CODE`.
use crate::words;
use card_set::{Card, Rank, Suit};
use play_event::Code;
use std::alloc::{AllocError, Global};
use variant_table::{
    F2L3D, F7S, F7S8, FB, FO8, FR, FT, N2L1D, NS, NT, PO, Street, Variant, table_of,
};

/// The answer to a row about a game.
pub fn answer_to(alloc: Global, row: &str) -> Result<Option<String>, AllocError> {
    let (question, name) = words::first_and_rest(row);
    let Some(code) = Code::read(name) else {
        return Ok(None);
    };
    match question.as_bytes() {
        b"table" => Ok(Some(table_text(alloc, code)?)),
        b"streets" => Ok(Some(streets_text(alloc, code)?)),
        b"dealt" => Ok(Some(dealt_text(alloc, code)?)),
        _ => Ok(None),
    }
}

// The values of the table that hold on each street.
fn table_text(alloc: Global, code: Code) -> Result<String, AllocError> {
    let table = table_of(code);
    let (limit, opener, pick) = (table.limit, table.opener, table.pick);
    let (deck, seats) = (table.deck, table.seats);
    let halves = if table.split { "halved" } else { "whole" };
    format!(in alloc; "{limit:?} {opener:?} {pick:?} {halves}, deck {deck}, seats {seats}")
}

// What each street deals, and the size of its bets.
fn streets_text(alloc: Global, code: Code) -> Result<String, AllocError> {
    let table = table_of(code);
    let mut text = String::new(alloc);
    for (index, street) in table.rows.iter().enumerate() {
        if index < usize::from(table.streets) {
            if index > 0 {
                text.push_str(", ")?;
            }
            push_street(&mut text, street)?;
        }
    }
    Ok(text)
}

fn push_street(text: &mut String, street: &Street) -> Result<(), AllocError> {
    let size = street.size;
    let parts = [
        (street.down, "down "),
        (street.up, "up "),
        (street.board, "board "),
        (u8::from(street.draws), "draw "),
    ];
    for (count, word) in parts {
        if count > 0 {
            write!(text, "{count} {word}")?;
        }
    }
    write!(text, "{size:?}")
}

// What a seat and the board hold after the last street, and whether the deck has a five.
fn dealt_text(alloc: Global, code: Code) -> Result<String, AllocError> {
    let dealt = match code {
        Code::FT => deal_all::<FT>(),
        Code::NT => deal_all::<NT>(),
        Code::NS => deal_all::<NS>(),
        Code::PO => deal_all::<PO>(),
        Code::FO8 => deal_all::<FO8>(),
        Code::F7S => deal_all::<F7S>(),
        Code::F7S8 => deal_all::<F7S8>(),
        Code::FR => deal_all::<FR>(),
        Code::N2L1D => deal_all::<N2L1D>(),
        Code::F2L3D => deal_all::<F2L3D>(),
        Code::FB => deal_all::<FB>(),
    };
    let (hole, board) = (dealt.hole, dealt.board);
    let fives = if dealt.fives {
        "with fives"
    } else {
        "no fives"
    };
    format!(in alloc; "hole {hole}, board {board}, {fives}")
}

// What one generic function learns about a game from its type alone.
#[derive(Clone, Copy)]
struct Dealt {
    hole: u8,
    board: u8,
    fives: bool,
}

fn deal_all<V: Variant>() -> Dealt {
    let mut hole: u8 = 0;
    let mut board: u8 = 0;
    for number in 1..=V::STREETS {
        let street = V::street(number);
        hole = hole.saturating_add(street.down).saturating_add(street.up);
        board = board.saturating_add(street.board);
    }
    let five = Card {
        rank: Rank::Five,
        suit: Suit::H,
    };
    Dealt {
        hole,
        board,
        fives: V::in_deck(five),
    }
}
