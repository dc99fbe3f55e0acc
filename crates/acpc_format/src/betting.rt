//! Writes the betting of a line: a letter for each move.
ghost use Rattle.std.specs.Prelude.{◌≡◌, ◌++◌, map, OnOk};
ghost use Rattle.play_event.specs.Past.{Raised};
ghost use Rattle.play_event.specs.Played.{act_said, move_said};
ghost use Rattle.play_event.specs.CanonScript.{plain_move, plain_moves};
ghost use Rattle.hand_canon.specs.TraceRows.{place_said};
ghost use Rattle.acpc_format.specs.Betting.{betting_text, letter, letter_on, letters_on, round_text};
ghost use Rattle.acpc_format.specs.Puts.{HaveFewChips};

use crate::cards::is_board_dealt;
use crate::puts::{add, posted_chips};
use card_set::{Memory, TryExtend, text_from};
use play_event::{Act, Move, Place, Setup};
use std::alloc::Global;

/// The betting of a hand with these moves and cards. In a no-limit game raises have their totals.
#[tactic(auto, unfolding(crate::specs::Betting::betting_text))]
pub fn push_betting(
    alloc: Global,
    out: &mut Vec<u8>,
    no_limit: bool,
    setup: &Setup,
    moves: &[Move],
    places: &[Place],
) -> Result<(), Memory>
    requires { HaveFewChips setup.now moves.now }
    ensures { OnOk result (out.new.items ≡ out.old.items
        ++ betting_text no_limit setup.now (map place_said places.now)
        (plain_moves (map move_said moves.now))) }
{
    let spelled = SpelledMoves {
        no_limit,
        setup,
        moves,
    };
    spelled.push_letters(alloc, out, 1)?;
    spelled.push_round(alloc, out, places, 2)?;
    spelled.push_round(alloc, out, places, 3)?;
    spelled.push_round(alloc, out, places, 4)
}

// A hand's setup and moves, and whether they are written for a no-limit game.
#[derive(Clone, Copy)]
struct SpelledMoves<'a> {
    no_limit: bool,
    setup: &'a Setup,
    moves: &'a [Move],
    ghost few: { HaveFewChips setup.now moves.now },
}

impl SpelledMoves<'_> {
    // The betting of a further round, if it was dealt.
    #[tactic(auto, unfolding(crate::specs::Betting::round_text))]
    fn push_round(
        &self,
        alloc: Global,
        out: &mut Vec<u8>,
        places: &[Place],
        street: u8,
    ) -> Result<(), Memory>
        ensures { OnOk result (out.new.items ≡ out.old.items
            ++ round_text self.now.no_limit self.now.setup.now (map place_said places.now)
            (plain_moves (map move_said self.now.moves.now)) street) }
    {
        if !is_board_dealt(places, street) {
            return Ok(());
        }
        out.try_extend_from_slice(b"/")?;
        self.push_letters(alloc, out, street)
    }

    // The letters of a street.
    fn push_letters(&self, alloc: Global, out: &mut Vec<u8>, street: u8) -> Result<(), Memory>
        ensures { OnOk result (out.new.items ≡ out.old.items
            ++ letters_on self.now.no_limit self.now.setup.now street
            (plain_moves (map move_said self.now.moves.now))) }
    {
        let mut put = posted_chips(self.setup);
        for played in self.moves {
            add(&mut put, *played);
            let total = put[played.seat.number as usize - 1];
            push_letter_on(alloc, out, self.no_limit, street, *played, total)?;
        }
        Ok(())
    }
}

// The letter of a move, if the move is on this street.
fn push_letter_on(
    alloc: Global,
    out: &mut Vec<u8>,
    no_limit: bool,
    street: u8,
    played: Move,
    total: u64,
) -> Result<(), Memory>
    ensures { OnOk result (out.new.items
        ≡ out.old.items ++ letter_on no_limit street (plain_move (move_said played)) total) }
{
    if played.street != street {
        return Ok(());
    }
    push_letter(alloc, out, no_limit, played.act, total)
}

// The letter of a move; `total` is what its seat has then put in the whole hand.
fn push_letter(
    alloc: Global,
    out: &mut Vec<u8>,
    no_limit: bool,
    act: Act,
    total: u64,
) -> Result<(), Memory>
    ensures { OnOk result (out.new.items
        ≡ out.old.items ++ letter no_limit (act_said act) total) }
{
    match act {
        Act::Fold => Ok(out.try_extend_from_slice(b"f")?),
        Act::Call => Ok(out.try_extend_from_slice(b"c")?),
        Act::Raise => push_raise(alloc, out, no_limit, total),
        Act::BringIn => Ok(()),
    }
}

// `r`, followed in a no-limit game by the chips that the seat has put in the whole hand.
fn push_raise(alloc: Global, out: &mut Vec<u8>, no_limit: bool, total: u64) -> Result<(), Memory>
    ensures { OnOk result (out.new.items
        ≡ out.old.items ++ letter no_limit Raised total) }
{
    out.try_extend_from_slice(b"r")?;
    if !no_limit {
        return Ok(());
    }
    let digits = text_from(alloc, total)?;
    Ok(out.try_extend_from_slice(digits.as_bytes())?)
}
