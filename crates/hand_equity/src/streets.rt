//! The equity of a played hand on a street, for the seats that are live when the street begins.
ghost use Rattle.std.specs.Prelude.{◌≡◌, ◌+◌, IfErr, IfOk, IsTrue, sum, true};
ghost use Rattle.hand_equity.specs.Equity.{plays_board};
ghost use Rattle.play_event.specs.Games.{game_of};
ghost use Rattle.hand_equity.specs.Street.{HasNoEquity, IsEquityOn, IsReady};

use crate::counting::equity;
use crate::gathered::{board_up_to, deals_on, live_before};
use crate::refusal::NoEquity;
use crate::row::EquityRow;
use crate::table::cards_folded;
use crate::unknown::unknown_seat;
use hand_canon::{SoundPlay, Trace, held_by_seats};
use play_event::Code;
use variant_table::{FO8, FT, NS, NT, PO, Variant};

/// How often each seat that is live when a street begins would have won, over all boards that
/// complete the board of that street. The streets are 2, 3 and 4: flop, turn and river. Known cards
/// of seats that folded before are not dealt again; unknown ones may be.
///
/// # Errors
///
/// No board card was dealt on this street, or a live seat has a card that stayed unknown.
#[tactic(auto, using(crate::proofs::Ready::ready))]
pub fn equity_of(play: &SoundPlay<'_>, street: u8) -> Result<EquityRow, NoEquity>
    // The rule.
    ensures equity { IfOk result (IsEquityOn play.now.trace street) }
    ensures refused { IfErr result (HasNoEquity play.now.trace street) }

    // What follows from it: each board is won or tied; and for low hands it is won or tied, or
    // there is none.
    ensures together { IfOk result (λ row. row.total ≡ sum row.wins + row.shared) }
    ensures together_low { IfOk result (λ row. (game_of play.now.trace.setup.code).split ≡ true
        → row.total ≡ sum row.low_wins + row.low_shared + row.low_none) }
{
    let trace = &play.play().trace;
    match trace.setup.code {
        Code::FT => equity_in::<FT>(trace, street),
        Code::NT => equity_in::<NT>(trace, street),
        Code::NS => equity_in::<NS>(trace, street),
        Code::PO => equity_in::<PO>(trace, street),
        Code::FO8 => equity_in::<FO8>(trace, street),
        Code::F7S | Code::F7S8 | Code::FR | Code::N2L1D | Code::F2L3D | Code::FB => {
            Err(NoEquity::NoStreet)
        }
    }
}

// The same in a game with a board.
fn equity_in<V: Variant>(trace: &Trace, street: u8) -> Result<EquityRow, NoEquity>
    requires game { trace.now.setup.code ≡ V.CODE }
    requires with_board { IsTrue (plays_board V.CODE) }
    requires ready { IsReady trace.now street }
    ensures equity { IfOk result (IsEquityOn trace.now street) }
    ensures refused { IfErr result (HasNoEquity trace.now street) }
    ensures together { IfOk result (λ row. row.total ≡ sum row.wins + row.shared) }
    ensures together_low { IfOk result (λ row. (game_of trace.now.setup.code).split ≡ true
        → row.total ≡ sum row.low_wins + row.low_shared + row.low_none) }
{
    if street < 2 || 4 < street || !deals_on(trace.places.as_slice(), street) {
        return Err(NoEquity::NoStreet);
    }
    let live = live_before(trace.moves.as_slice(), street, trace.setup.stacks.players());
    let hands = held_by_seats(trace.places.as_slice());
    if let Some(seat) = unknown_seat(&hands, &live) {
        return Err(NoEquity::UnknownCards(seat));
    }
    let board = board_up_to(trace.places.as_slice(), street);
    let dead = cards_folded(&hands, &live);
    Ok(equity::<V>(&hands, &live, &board, &dead))
}
