//! Tests shares: what each seat gets of pots whose chips, rakes and seats are given, with the hands
//! that are shown.
use crate::playable::{are_playable, are_winnable};
use crate::{pots, rows, words};
use card_set::CardRow;
use chip_ledger::{LiveRow, Pot, PotRow, RakeRow, SeatRow, ShareRow};
use play_event::{Code, HandRow};
use showdown_split::{first_rake_above, split};
use std::alloc::{AllocError, Global};
use variant_table::{F2L3D, F7S, F7S8, FB, FO8, FR, FT, N2L1D, NS, NT, PO, Variant};

// The end of a hand.
#[derive(Drop)]
struct End {
    hands: HandRow,
    board: CardRow,
    shown: LiveRow,
    pots: PotRow,
    rakes: RakeRow,
}

/// The answer to a row of a game, hands, a board and pots.
pub fn answer_to(alloc: Global, row: &str) -> Result<Option<String>, AllocError> {
    let (name, rest) = words::first_and_rest(row);
    let (Some(code), Some(end)) = (Code::read(name), end_of(rest)) else {
        return Ok(None);
    };
    match code {
        Code::FT => paid::<FT>(alloc, &end),
        Code::NT => paid::<NT>(alloc, &end),
        Code::NS => paid::<NS>(alloc, &end),
        Code::PO => paid::<PO>(alloc, &end),
        Code::FO8 => paid::<FO8>(alloc, &end),
        Code::F7S => paid::<F7S>(alloc, &end),
        Code::F7S8 => paid::<F7S8>(alloc, &end),
        Code::FR => paid::<FR>(alloc, &end),
        Code::N2L1D => paid::<N2L1D>(alloc, &end),
        Code::F2L3D => paid::<F2L3D>(alloc, &end),
        Code::FB => paid::<FB>(alloc, &end),
    }
}

// The end that a row gives.
fn end_of(row: &str) -> Option<End> {
    let (cards, rest) = words::first_and_rest(row);
    let (table, rest) = words::first_and_rest(rest);
    let (taken, rest) = words::first_and_rest(rest);
    let (hands, shown) = rows::hands(cards)?;
    let board = rows::board(table)?;
    let rakes = rows::rakes(taken)?;
    let mut pots = PotRow::new(SeatRow::new(2));
    for word in rest.split(' ') {
        if pots.count >= 11 {
            return None;
        }
        pots.push(pot_of(shown.seats, word)?);
    }
    Some(End {
        hands,
        board,
        shown,
        pots,
        rakes,
    })
}

// A pot, as `21:1,2`.
fn pot_of(seats: u8, word: &str) -> Option<Pot> {
    let (amount, numbers) = word.split_once(':')?;
    let chips = amount.parse::<u64>().ok()?;
    let eligible = rows::flags(seats, numbers)?;
    Some(Pot { chips, eligible })
}

// What each seat gets of each pot, in a game.
fn paid<V: Variant>(alloc: Global, end: &End) -> Result<Option<String>, AllocError> {
    let pots = &end.pots;
    if end.hands.seats != end.shown.seats
        || !are_playable::<V>(&end.hands, &end.board, &end.shown)
        || !are_winnable(&pots.pots[..pots.count as usize], end.shown.seats)
    {
        return Ok(None);
    }
    if let Some(pot) = first_rake_above(pots, &end.rakes) {
        return Ok(Some(format!(in alloc; "rake above pot {pot}")?));
    }
    match split::<V>(pots, &end.rakes, &end.hands, &end.board, &end.shown) {
        Ok(shares) => Ok(Some(shares_text(alloc, &shares)?)),
        Err(fault) => {
            let pot = fault.pot;
            Ok(Some(format!(in alloc; "no shown hand for pot {pot}")?))
        }
    }
}

fn shares_text(alloc: Global, shares: &ShareRow) -> Result<String, AllocError> {
    let mut text = String::new(alloc);
    let mut between = "";
    for row in &shares.shares[..shares.count as usize] {
        text.push_str(between)?;
        pots::push_amounts(&mut text, row)?;
        between = "; ";
    }
    Ok(text)
}
