//! Writes a game as a game file; a game has one spelling.
ghost use Rattle.std.specs.Prelude.{◌≡◌, ◌++◌, IfOk, OnOk};
ghost use Rattle.acpc_game.specs.GameText.{caps_text, chips_text, counts_text, first_text, game_text, key_line, kind_text, seat_lines, sizes_text, turns_text};
ghost use Rattle.acpc_game.specs.GameView.{game_in};
ghost use Rattle.chip_ledger.specs.AmountTexts.{spaced};

use crate::game::Game;
use crate::supported::opener_of;
use card_set::{Memory, TryExtend, text_from};
use std::alloc::Global;

/// The game file of a game.
#[tactic(auto, unfolding(crate::specs::GameText::game_text))]
pub fn write_game(alloc: Global, game: &Game) -> Result<Vec<u8>, Memory>
    ensures { IfOk result (λ text. text.items ≡ game_text (game_in game.now)) }
{
    let mut out = Vec::new(alloc);
    out.try_extend_from_slice(b"GAMEDEF\n")?;
    push_chips(alloc, &mut out, game)?;
    push_sizes(alloc, &mut out, game)?;
    push_turns(alloc, &mut out, game)?;
    out.try_extend_from_slice(
        b"numSuits = 4\nnumRanks = 13\nnumHoleCards = 2\nnumBoardCards = 0 3 1 1\n",
    )?;
    out.try_extend_from_slice(b"END GAMEDEF\n")?;
    Ok(out)
}

// The lines from the limit to the blinds.
#[tactic(auto, unfolding(crate::specs::GameText::chips_text))]
fn push_chips(alloc: Global, out: &mut Vec<u8>, game: &Game) -> Result<(), Memory>
    ensures { OnOk result (out.new.items ≡ out.old.items ++ chips_text (game_in game.now)) }
{
    let stacks = game.stacks.as_slice();
    push_kind(out, game.no_limit)?;
    push_counts(alloc, out, stacks.len() as u64)?;
    push_seat_lines(alloc, out, stacks, game.blinds.as_slice())
}

// The line that says whether the game has a limit.
#[tactic(auto, unfolding(crate::specs::GameText::kind_text))]
fn push_kind(out: &mut Vec<u8>, no_limit: bool) -> Result<(), Memory>
    ensures { OnOk result (out.new.items ≡ out.old.items ++ kind_text no_limit) }
{
    if no_limit {
        out.try_extend_from_slice(b"nolimit\n")?;
        return Ok(());
    }
    out.try_extend_from_slice(b"limit\n")?;
    Ok(())
}

// The lines with the numbers of players and of rounds.
#[tactic(auto, unfolding(crate::specs::GameText::counts_text))]
fn push_counts(alloc: Global, out: &mut Vec<u8>, players: u64) -> Result<(), Memory>
    ensures { OnOk result (out.new.items ≡ out.old.items ++ counts_text players) }
{
    push_line(alloc, out, "numPlayers", &[players])?;
    push_line(alloc, out, "numRounds", &[4])
}

// The lines with the stacks and the blinds.
#[tactic(auto, unfolding(crate::specs::GameText::seat_lines))]
fn push_seat_lines(
    alloc: Global,
    out: &mut Vec<u8>,
    stacks: &[u64],
    blinds: &[u64],
) -> Result<(), Memory>
    ensures { OnOk result (out.new.items ≡ out.old.items ++ seat_lines stacks.now blinds.now) }
{
    push_line(alloc, out, "stack", stacks)?;
    push_line(alloc, out, "blind", blinds)
}

// The line with the raise sizes of a limit game.
#[tactic(auto, unfolding(crate::specs::GameText::sizes_text))]
fn push_sizes(alloc: Global, out: &mut Vec<u8>, game: &Game) -> Result<(), Memory>
    ensures { OnOk result (out.new.items ≡ out.old.items ++ sizes_text (game_in game.now)) }
{
    if game.no_limit {
        return Ok(());
    }
    let sizes = [
        game.small_raise,
        game.small_raise,
        game.big_raise,
        game.big_raise,
    ];
    push_line(alloc, out, "raiseSize", &sizes)
}

// The lines with the first seats of the rounds and the caps.
#[tactic(auto, unfolding(crate::specs::GameText::turns_text))]
fn push_turns(alloc: Global, out: &mut Vec<u8>, game: &Game) -> Result<(), Memory>
    ensures { OnOk result (out.new.items ≡ out.old.items ++ turns_text (game_in game.now)) }
{
    push_first(alloc, out, game.blinds.as_slice())?;
    push_caps(alloc, out, game.caps)
}

// The line with the seat that acts first in each round.
#[tactic(auto, unfolding(crate::specs::GameText::first_text))]
fn push_first(alloc: Global, out: &mut Vec<u8>, blinds: &[u64]) -> Result<(), Memory>
    ensures { OnOk result (out.new.items ≡ out.old.items ++ first_text blinds.now) }
{
    push_line(alloc, out, "firstPlayer", &[opener_of(blinds), 1, 1, 1])
}

// The line with the most raises of each round, if they are capped.
#[tactic(auto, unfolding(crate::specs::GameText::caps_text))]
fn push_caps(alloc: Global, out: &mut Vec<u8>, caps: Option<[u32; 4]>) -> Result<(), Memory>
    ensures { OnOk result (out.new.items ≡ out.old.items ++ caps_text caps) }
{
    match caps {
        None => Ok(()),
        Some(caps) => {
            let caps = wide_caps(caps);
            push_line(alloc, out, "maxRaises", &caps)
        }
    }
}

// The caps as 64-bit numbers.
#[tactic(auto, using(card_set::proofs::Entries::four_entries))]
fn wide_caps(caps: [u32; 4]) -> [u64; 4]
    ensures { result ≡ caps }
{
    [
        u64::from(caps[0]),
        u64::from(caps[1]),
        u64::from(caps[2]),
        u64::from(caps[3]),
    ]
}

// A key, `=`, and numbers.
#[tactic(auto, unfolding(crate::specs::GameText::key_line))]
fn push_line(alloc: Global, out: &mut Vec<u8>, word: &str, numbers: &[u64]) -> Result<(), Memory>
    ensures { OnOk result (out.new.items ≡ out.old.items ++ key_line word.now numbers.now) }
{
    out.try_extend_from_slice(word.as_bytes())?;
    out.try_extend_from_slice(b" =")?;
    push_numbers(alloc, out, numbers)?;
    out.try_extend_from_slice(b"\n")?;
    Ok(())
}

// Numbers, each after a space.
fn push_numbers(alloc: Global, out: &mut Vec<u8>, numbers: &[u64]) -> Result<(), Memory>
    ensures { OnOk result (out.new.items ≡ out.old.items ++ spaced numbers.now) }
{
    for number in numbers {
        let digits = text_from(alloc, number)?;
        out.try_extend_from_slice(b" ")?;
        out.try_extend_from_slice(digits.as_bytes())?;
    }
    Ok(())
}
