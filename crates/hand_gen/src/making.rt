//! Makes hands, one after the other.
ghost use Rattle.std.specs.Prelude.{◌≡◌, ◌≤◌, All, IfOk, map};
ghost use Rattle.play_event.specs.PlayedScript.{IsWithinLimits};
ghost use Rattle.first_fault.specs.declared.limits.TheConstants.{MOST_HANDS};
ghost use Rattle.play_event.specs.HistoryRules.{history_rules as rules_of_histories};
ghost use Rattle.play_event.specs.Said.{said_of};
ghost use Rattle.hand_canon.specs.LegalHand.{IsLegalHand};
ghost use Rattle.hand_gen.specs.Made.{AreMade, IsMade, IsMadeScript, backward, number_behind, source_behind};
ghost use Rattle.hand_gen.specs.Progress.{IsSmall};
ghost use Rattle.hand_gen.specs.Setups as setups;
ghost use Rattle.hand_gen.specs.HandSource.{full_deck};
ghost use Rattle.hand_canon.specs.Sound.{IsSound};
ghost use Rattle.hand_gen.specs.Sound.{IsSoundHand};

use crate::hand::{history_rules, script_of};
use crate::hand_source::HandSource;
use crate::setups::{advance_past_setup, setup_at};
use card_set::Memory;
use hand_canon::{Notes, Play, Record, Records, Stated};
use play_event::{Script, Setup};
use replay_core::{ReplayFault, replay};
use std::alloc::Global;
use variant_table::by_code;

/// A made hand with its trace, and the generator's number after it.
#[derive(Debug, Drop)]
pub struct GeneratedHand {
    pub play: Play,
    pub number: u64,
}

/// Makes `count` hands from a seed.
///
/// # Errors
///
/// Out of memory.
pub fn make(alloc: Global, seed: u64, count: u32) -> Result<Records, Memory>
    requires few { count ≤ MOST_HANDS }
    ensures made { IfOk result (AreMade seed count) }
    ensures sound { IfOk result (λ hands. All IsSoundHand hands) }
{
    let mut number = seed;
    let mut hands = Records::new(alloc);
    for place in 0..count {
        let made = make_play(alloc, place, number)?;
        number = made.number;
        let play = made.play;
        hands.push(play.hand)?;
    }
    Ok(hands)
}

/// The hand at a place among the made hands, from 0, with its trace; `number` is the generator's
/// number before it.
///
/// # Errors
///
/// Out of memory.
pub fn make_play(alloc: Global, place: u32, number: u64) -> Result<GeneratedHand, Memory>
    ensures made { IfOk result (λ made. IsMade place number made.play.hand) }
    ensures behind { IfOk result (λ made. made.number ≡ number_behind number made.play.hand) }
    ensures sound { IfOk result (λ made. IsSound made.play) }
{
    let setup = setup_at(place, number);
    let start = advance_past_setup(number, &setup);
    let mut stock = HandSource::full(alloc, start, setup.code)?;
    let script = script_by_code(alloc, &setup, &mut stock)?;
    let rules = history_rules();
    let trace = match replay(alloc, &setup, &rules, &script) {
        Ok(trace) => trace,
        Err(fault) => match fault {
            ReplayFault::Memory(memory) => return Err(memory),
            _ => unreachable!(),
        },
    };
    let hand = Record {
        setup,
        rules,
        script,
        stated: Stated::nothing(),
        notes: Notes::none(),
    };
    Ok(GeneratedHand {
        play: Play { hand, trace },
        number: stock.number(),
    })
}

// The script of a made hand of the game that its setup names.
fn script_by_code(alloc: Global, setup: &Setup, stock: &mut HandSource) -> Result<Script, Memory>
    requires small { IsSmall setup.now }
    requires deck { stock.old.deck ≡ full_deck setup.now.code }
    ensures made { IfOk result (IsMadeScript setup.now stock.old) }
    ensures left { IfOk result (λ script. stock.new
        ≡ source_behind setup.now rules_of_histories stock.old (backward script)) }
    ensures within { IfOk result (λ script. IsWithinLimits (map said_of script)) }
    ensures legal { IfOk result (λ script.
        IsLegalHand setup.now rules_of_histories (map said_of script)) }
{
    by_code!(setup.code, script_of(alloc, setup, stock))
}
