//! Adds up hands and their pots by game.
ghost use Rattle.std.specs.Prelude.{◌≡◌, ◌≤◌, ◌-◌, ◌++◌, [], flat_map, map, Some, IfOk, OnOk, string_bytes};
ghost use Rattle.std.specs.List.{AllByRecursion};
ghost use Rattle.first_fault.specs.declared.limits.TheConstants.{MOST_HANDS};
ghost use Rattle.printed_hands.specs.Games.{AreFewSums, MOST_POTS, all_wanted, is_counted, line_for, sums_line, sums_of};
ghost use Rattle.printed_hands.specs.Games as games;
ghost use Rattle.printed_hands.specs.Report.{hand_of};

use crate::lines::push_hands_line;
use card_set::{Memory, TryPush, list_with_room};
use hand_canon::{Play, pot_total};
use play_event::Code;
use std::alloc::Global;

/// The hands of a game, or all hands: their number, and the chips of their pots together.
#[derive(Clone, Copy, Debug)]
pub struct Sums {
    pub wanted: Option<Code>,
    pub hands: u64,
    // The chips of one pot can be any u64.
    pub pots: u128,
}

/// The sums before the first hand: one per game in the order of the table of games, and one for
/// all.
pub fn no_sums(alloc: Global) -> Result<Vec<Sums>, Memory>
    ensures { IfOk result (λ sums. sums.items ≡ map (sums_of []) all_wanted) }
{
    let wanted = [
        Some(Code::FT),
        Some(Code::NT),
        Some(Code::NS),
        Some(Code::PO),
        Some(Code::FO8),
        Some(Code::F7S),
        Some(Code::F7S8),
        Some(Code::FR),
        Some(Code::N2L1D),
        Some(Code::F2L3D),
        Some(Code::FB),
        None,
    ];
    let mut sums = list_with_room(alloc, wanted.len())?;
    for one in &wanted {
        sums.try_push(none_of(*one))?;
    }
    Ok(sums)
}

// The sums before the first hand.
fn none_of(wanted: Option<Code>) -> Sums
    ensures { result ≡ sums_of [] wanted }
{
    Sums {
        wanted,
        hands: 0,
        pots: 0,
    }
}

/// Adds a hand to each of these sums that it counts for.
pub fn add_to_sums(sums: &mut Vec<Sums>, play: &Play)
    requires few { AllByRecursion (AreFewSums (MOST_HANDS - 1)) sums.old.items }
    ensures added { sums.new.items ≡ map (games.with_hand (hand_of play.now)) sums.old.items }
    ensures bounded { (hand_of play.now).pots ≤ MOST_POTS }
{
    let pots = pot_total(&play.trace);
    for index in 0..sums.len() {
        sums[index] = add_hand(sums[index], play, pots);
    }
}

// The sums with one more hand, which has these pots, if it counts.
fn add_hand(sums: Sums, play: &Play, pots: u128) -> Sums
    requires few { AreFewSums (MOST_HANDS - 1) sums }
    requires pots { pots ≡ (hand_of play.now).pots }
    requires bounded { pots ≤ MOST_POTS }
    ensures { result ≡ games.with_hand (hand_of play.now) sums }
{
    if counts(play, sums.wanted) {
        Sums {
            wanted: sums.wanted,
            hands: sums.hands + 1,
            pots: sums.pots + pots,
        }
    } else {
        sums
    }
}

// Whether the hand counts: it is of the game, or all games are wanted.
fn counts(play: &Play, wanted: Option<Code>) -> bool
    ensures { result ≡ is_counted wanted (hand_of play.now) }
{
    match wanted {
        None => true,
        Some(code) => code.text() == play.trace.setup.code.text(),
    }
}

/// Appends the lines of sums: one per game that was played, and one for all hands.
pub fn push_sums(alloc: Global, text: &mut String, sums: &[Sums]) -> Result<(), Memory>
    ensures { OnOk result (string_bytes text.new ≡ string_bytes text.old
        ++ flat_map sums_line sums.now) }
{
    for one in sums {
        push_line(alloc, text, one.wanted, one.hands, one.pots)?;
    }
    Ok(())
}

// Appends the line of a game, if it was played, or the line of all hands.
fn push_line(
    alloc: Global,
    text: &mut String,
    wanted: Option<Code>,
    hands: u64,
    pots: u128,
) -> Result<(), Memory>
    ensures { OnOk result (string_bytes text.new ≡ string_bytes text.old
        ++ line_for wanted hands pots) }
{
    match wanted {
        Some(code) => push_game(alloc, text, code, hands, pots),
        None => push_hands_line(alloc, text, "total", hands, pots),
    }
}

// Appends the line of a game, if it was played.
fn push_game(
    alloc: Global,
    text: &mut String,
    code: Code,
    hands: u64,
    pots: u128,
) -> Result<(), Memory>
    ensures { OnOk result (string_bytes text.new ≡ string_bytes text.old
        ++ line_for (Some code) hands pots) }
{
    if hands == 0 {
        return Ok(());
    }
    push_hands_line(alloc, text, code.text(), hands, pots)
}
