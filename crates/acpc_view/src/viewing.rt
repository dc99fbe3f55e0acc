//! Writes the lines that a seat saw of a hand: one before each move, and one after the last.
ghost use Rattle.std.specs.Prelude.{◌≡◌, ◌≤◌, ◌++◌, length, IfOk, OnOk};
ghost use Rattle.acpc_format.specs.Puts.{HaveFewChips};
ghost use Rattle.acpc_view.specs.View.{head_text, seen_text, view_line, views_text};

use crate::seeing::find_seen_places;
use acpc_format::{push_betting, push_cards, push_hand};
use acpc_game::Game;
use card_set::{Memory, TryExtend, text_from};
use chip_ledger::Seat;
use first_fault::Text;
use hand_canon::{SoundPlay, Trace};
use std::alloc::Global;

/// The lines that a seat saw of the play at a place of its file (from 0) under the game of that
/// file.
///
/// A seat that the hand does not have sees only hole cards that are shown.
///
/// # Errors
///
/// Out of memory.
pub fn views(
    alloc: Global,
    game: &Game,
    play: &SoundPlay<'_>,
    place: u32,
    viewer: Seat,
) -> Result<Vec<u8>, Memory>
    ensures { IfOk result (λ bytes. bytes.items
        ≡ views_text game.now.no_limit viewer.number place play.now) }
{
    lines(alloc, game.no_limit, play, place as usize, viewer)
}

// The lines in order.
#[tactic(auto, unfolding(crate::specs::View::views_text))]
fn lines(
    alloc: Global,
    no_limit: bool,
    play: &SoundPlay<'_>,
    place: usize,
    viewer: Seat,
) -> Result<Vec<u8>, Memory>
    ensures { IfOk result (λ bytes. bytes.items
        ≡ views_text no_limit viewer.number place play.now) }
{
    let mut out = Vec::new(alloc);
    let moves = play.play().trace.moves.len();
    for count in 0..moves {
        push_view(alloc, &mut out, no_limit, play, place, viewer, count)?;
    }
    push_view(alloc, &mut out, no_limit, play, place, viewer, moves)?;
    Ok(out)
}

// The line after the first `count` moves.
#[tactic(auto, unfolding(crate::specs::View::view_line))]
fn push_view(
    alloc: Global,
    out: &mut Vec<u8>,
    no_limit: bool,
    play: &SoundPlay<'_>,
    place: usize,
    viewer: Seat,
    count: usize,
) -> Result<(), Memory>
    requires { count ≤ length play.now.trace.moves }
    ensures { OnOk result (out.new.items ≡ out.old.items
        ++ view_line no_limit viewer.number place play.now count) }
{
    let seen = play.play();
    push_head(alloc, out, viewer, place, &seen.hand.notes.hand)?;
    out.try_extend_from_slice(b":")?;
    push_seen(alloc, out, no_limit, &seen.trace, viewer, count)?;
    Ok(out.try_extend_from_slice(b"\n")?)
}

// `MATCHSTATE`, the number of the seat from 0, and that of the hand.
#[tactic(auto, unfolding(crate::specs::View::head_text))]
fn push_head(
    alloc: Global,
    out: &mut Vec<u8>,
    viewer: Seat,
    place: usize,
    hand: &Option<Text>,
) -> Result<(), Memory>
    ensures { OnOk result (out.new.items
        ≡ out.old.items ++ head_text viewer.number place hand.now) }
{
    let digits = text_from(alloc, viewer.number - 1)?;
    out.try_extend_from_slice(b"MATCHSTATE:")?;
    out.try_extend_from_slice(digits.as_bytes())?;
    out.try_extend_from_slice(b":")?;
    push_hand(alloc, out, place, hand)
}

// The betting and the cards that the seat saw after the first `count` moves.
#[tactic(auto, unfolding(crate::specs::View::seen_text))]
fn push_seen(
    alloc: Global,
    out: &mut Vec<u8>,
    no_limit: bool,
    trace: &Trace,
    viewer: Seat,
    count: usize,
) -> Result<(), Memory>
    requires few { HaveFewChips trace.now.setup trace.now.moves }
    requires there { count ≤ length trace.now.moves }
    ensures { OnOk result (out.new.items
        ≡ out.old.items ++ seen_text no_limit trace.now viewer.number count) }
{
    let seen = find_seen_places(alloc, trace, viewer, count)?;
    let made = &trace.moves.as_slice()[..count];
    push_betting(alloc, out, no_limit, &trace.setup, made, seen.as_slice())?;
    out.try_extend_from_slice(b":")?;
    push_cards(out, seen.as_slice(), trace.setup.stacks.players())
}
